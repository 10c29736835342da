//! The timelines that the worked network is played with.

use control_flow::greens::{Green, Timeline};
use std::alloc::{AllocError, Global};

/// The greens of node a, and those of node b.
const A: &[Green] = &[
    Green {
        phase: 0,
        from: 0,
        to: 5,
    },
    Green {
        phase: 1,
        from: 10,
        to: 27,
    },
];

const B: &[Green] = &[Green {
    phase: 0,
    from: 0,
    to: 30,
}];

/// The timelines of both nodes.
pub(crate) fn lines_of_both(alloc: Global) -> Result<Vec<Timeline>, AllocError> {
    let mut lines = Vec::new(alloc);
    lines.push(Timeline::from_rows(A.to_vec(alloc)?))?;
    lines.push(Timeline::from_rows(B.to_vec(alloc)?))?;
    Ok(lines)
}
