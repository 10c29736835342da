//! The rows of a line that a round needs.
ghost use Rattle.std.specs.Prelude.{◌≡◌, ℕ, ◌≤◌, List, drop, length};
ghost use Rattle.control_flow.specs.Greens.{head_at};
ghost use Rattle.phase_plan.specs.declared.Phase.{Phase};
ghost use Rattle.round_states.specs.States.{IsLineAt};
ghost use Rattle.round_decisions.specs.Lines.{rows_from};

use control_flow::greens::{Green, Timeline};

/// The rows of a line from the last that begins by a second on; all rows where none does. They are all that rounds from that
/// second on need: the heads there are the same, and where the line is one for a round that begins then, so are they.
///
/// docs/RULES.md, "Decision of a round".
pub fn rows_from(line: &Timeline, second: u32) -> &[Green]
    ensures value { result.now ≡ rows_from second line.now }
    ensures line { (plan : List Phase) → IsLineAt plan second line.now → IsLineAt plan second result.now }
    ensures heads { (plan : List Phase) (later : ℕ) → second ≤ later
        → head_at plan result.now later ≡ head_at plan line.now later }
{
    let rows = line.rows();
    &rows[first_from(rows, second)..]
}

/// The place of the first row that `rows_from` keeps.
fn first_from(rows: &[Green], second: u32) -> usize
    ensures within { result ≤ length rows.now }
    ensures rows { drop result rows.now ≡ rows_from second rows.now }
{
    let mut first = 0;
    for index in 1..rows.len() {
        if rows[index].from > second {
            break;
        }
        first = index;
    }
    first
}
