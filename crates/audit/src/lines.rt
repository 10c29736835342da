//! The lines of a sheet as timelines.

ghost use Rattle.std.specs.Prelude.{◌≡◌, All, IfOk};
ghost use Rattle.control_flow.specs.Greens.{IsInOrder};

use control_flow::greens::{Green, Timeline};
use foundation::items::Items;
use std::alloc::{AllocError, Global};

/// Lines as timelines; no row is copied. `Err`: out of memory.
pub(crate) fn timelines(
    alloc: Global,
    lines: Vec<Items<Green>>,
) -> Result<Vec<Timeline>, AllocError>
    requires { All IsInOrder lines.items }
    ensures { IfOk result (λ all. all.items ≡ lines.items) }
{
    let mut all = Vec::with_capacity(alloc, lines.len())?;
    for rows in lines {
        all.push(Timeline::from_rows(rows.into_vec()))?;
    }
    Ok(all)
}
