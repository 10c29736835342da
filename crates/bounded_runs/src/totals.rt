//! The line of what a run has counted in all.
ghost use Rattle.std.specs.Prelude.{◌≡◌, ◌<◌, ◌++◌, OnOk, length};
ghost use Rattle.bounded_runs.specs.Totals.{totals_line};

use net_simulator::Totals;
use std::alloc::AllocError;
use text_lines::push_line;

/// Appends a line of a word and totals to a text: what entered, left, is on the links, and waited, in thousandths. `Err`: out of
/// memory.
///
/// docs/FORMATS.md, "Summary text".
pub fn push_totals(text: &mut Vec<u8>, word: &[u8], totals: &Totals) -> Result<(), AllocError>
    requires { length word.now < 70 }
    ensures { OnOk result (text.new.items ≡ text.old.items ++ totals_line word.now totals.now) }
{
    push_line(
        text,
        word,
        &[totals.entered, totals.left, totals.on, totals.delay],
    )
}
