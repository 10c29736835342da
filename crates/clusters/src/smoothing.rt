//! What leaves a link where at most so much can leave in a second.
ghost use Rattle.std.specs.Prelude.{◌≡◌, ◌^◌, ◌<◌, ◌≤◌, IfOk, OnOk, length, sum};
ghost use Rattle.clusters.specs.Smoothing.{smoothed};

use std::alloc::{AllocError, Global};

/// What leaves in each second where at most `sat` can leave in a second, which is at least 1, and these amounts come.
/// What cannot leave in one second is carried to the next; what is left after the last one is dropped. The amounts
/// together are below 2^32.
///
/// `Err`: out of memory.
///
/// docs/RULES.md, "Smoothing".
pub fn smooth(alloc: Global, sat: u32, amounts: &[u32]) -> Result<Vec<u32>, AllocError>
    requires some { 1 ≤ sat }
    requires sum { sum amounts.now < 2 ^ 32 }
    ensures { IfOk result (λ leaving. leaving.items ≡ smoothed sat amounts.now) }
{
    let mut leaving = Vec::from_slice(alloc, amounts)?;
    smooth_in_place(sat, leaving.as_mut_slice());
    Ok(leaving)
}

/// Puts what leaves in each second in the place of what comes.
pub(crate) fn smooth_in_place(sat: u32, amounts: &mut [u32])
    requires { sum amounts.old < 2 ^ 32 }
    ensures { amounts.new ≡ smoothed sat amounts.old }
{
    let mut carry = 0;
    for amount in amounts.iter_mut() {
        let waiting = carry + *amount;
        *amount = waiting.min(sat);
        carry = waiting - *amount;
    }
}
