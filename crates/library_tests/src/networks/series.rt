//! Smoothed series.
ghost use Rattle.std.specs.Prelude.{◌≤◌, ◌^◌, ◌<◌, ◌↔◌, All, IsTrue, sum};

use clusters::smooth;
use std::alloc::{AllocError, Global};
use std::test::Fail;

/// What can leave in a second, what comes in each, and what leaves in each.
const SERIES: &[(u32, &[u32], &[u32])] = &[
    (
        500,
        &[1200, 0, 0, 0, 0, 300, 300],
        &[500, 500, 200, 0, 0, 300, 300],
    ),
    (
        7,
        &[0, 0, 35, 0, 0, 0, 0, 37, 37, 53, 7, 19],
        &[0, 0, 7, 7, 7, 7, 7, 7, 7, 7, 7, 7],
    ),
    (
        50,
        &[0, 0, 1, 49, 43, 11, 0, 35, 28, 0, 0, 0],
        &[0, 0, 1, 49, 43, 11, 0, 35, 28, 0, 0, 0],
    ),
    (50, &[0, 0, 0, 121, 231, 3], &[0, 0, 0, 50, 50, 50]),
    (3, &[3, 0, 1, 3, 1, 3, 0], &[3, 0, 1, 3, 1, 3, 0]),
    (
        50,
        &[0, 0, 128, 5, 106, 82, 90, 71, 42],
        &[0, 0, 50, 50, 50, 50, 50, 50, 50],
    ),
    (50, &[313, 0, 0], &[50, 50, 50]),
    (
        50,
        &[340, 0, 382, 0, 183, 397, 21, 203, 0],
        &[50, 50, 50, 50, 50, 50, 50, 50, 50],
    ),
    (
        50,
        &[0, 35, 0, 329, 0, 0, 0, 178, 138, 221],
        &[0, 35, 0, 50, 50, 50, 50, 50, 50, 50],
    ),
    (5, &[], &[]),
];

/// Whether all amounts are small.
fn are_small(amounts: &[u32]) -> bool
    ensures { IsTrue result ↔ All (λ amount. amount ≤ 10000) amounts.now }
{
    amounts.iter().all(|amount| *amount <= 10_000)
}

/// Whether the series is short and its amounts are small.
#[tactic(auto, using(crate::proofs::SeriesLaws::short_sum))]
fn is_short(amounts: &[u32]) -> bool
    ensures { IsTrue result → sum amounts.now < 2 ^ 32 }
{
    amounts.len() <= 100 && are_small(amounts)
}

/// What leaves, where the series is short and its amounts are small.
fn smoothed(alloc: Global, sat: u32, amounts: &[u32]) -> Result<Option<Vec<u32>>, AllocError> {
    if sat == 0 || !is_short(amounts) {
        return Ok(None);
    }
    Ok(Some(smooth(alloc, sat, amounts)?))
}

#[test]
fn smoothed_series(rt: HostRuntime) -> Result<(), Fail> {
    for &(sat, amounts, leaving) in SERIES {
        let found = smoothed(rt.alloc(), sat, amounts)?.ok_or("large")?;
        assert_eq!(rt; found.as_slice(), leaving);
    }
    Ok(())
}
