//! Lists with which a world begins.

ghost use Rattle.std.specs.Prelude.{◌≡◌, IfOk, replicate};
ghost use Rattle.control_flow.specs.declared.greens.Sign.TheVariants.{Dark};
ghost use Rattle.net_simulator.specs.LinkGreens.{never};

use control_flow::greens::Sign;
use std::alloc::{AllocError, Global};

/// `n` zeros, in thousandths of a vehicle or in seconds. `Err`: out of memory.
///
/// docs/RULES.md, "World".
pub fn zeros(alloc: Global, n: usize) -> Result<Vec<u32>, AllocError>
    ensures { IfOk result (λ v. v.items ≡ replicate n 0) }
{
    vec![in alloc; 0; n]
}

/// The signs of `n` dark nodes. `Err`: out of memory.
///
/// docs/RULES.md, "World".
pub fn no_signs(alloc: Global, n: usize) -> Result<Vec<Sign>, AllocError>
    ensures { IfOk result (λ v. v.items ≡ replicate n Dark) }
{
    vec![in alloc; Sign::Dark; n]
}

/// The seconds since which `n` links are green, none of which is. `Err`: out of memory.
///
/// docs/RULES.md, "World".
pub fn no_greens(alloc: Global, n: usize) -> Result<Vec<u32>, AllocError>
    ensures { IfOk result (λ v. v.items ≡ replicate n never) }
{
    vec![in alloc; u32::MAX; n]
}
