//! Amounts of all links.

ghost use Rattle.std.specs.Prelude.{◌≡◌, ℕ, ◌*◌, ◌≤◌, ◌<◌, length, slice_index};
ghost use Rattle.road_net.specs.Totals.{total};

/// Writes 0 for each link.
pub(crate) fn clear(amounts: &mut [u32], links: u32)
    requires { length amounts.old ≡ links }
    ensures { (l : ℕ) → l < links → slice_index amounts.new l ≡ 0 }
{
    for l in 0..links {
        amounts[l as usize] = 0;
    }
}

/// The sum over the links.
pub(crate) fn sum(amounts: &[u32], links: u32) -> u64
    requires { length amounts.now ≡ links }
    ensures all { result ≡ total (slice_index amounts.now) links }
    ensures most { result ≤ links * 4294967295 }
{
    let mut all = 0;
    for l in 0..links {
        all += u64::from(amounts[l as usize]);
    }
    all
}
