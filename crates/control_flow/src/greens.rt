//! What a timeline is made of.

ghost use Rattle.std.specs.Prelude.{◌≡◌, OnErr, OnOk};
ghost use Rattle.control_flow.specs.Greens.{IsInOrder, spliced};

use super::splicing::count_before;
use foundation::threads::CrossesThreads;
use std::alloc::AllocError;
use std::marker::Model;

/// A green of a phase, from a second up to another one.
///
/// docs/RULES.md, "Timeline".
#[derive(Debug, Clone, Copy, PartialEq, Eq)]
pub struct Green {
    /// The phase, from 0.
    pub phase: u8,
    /// The first second of the green.
    pub from: u32,
    /// The first second after it.
    pub to: u32,
}

/// What a phase shows at a second.
///
/// docs/RULES.md, "Colours".
#[derive(Debug, Clone, Copy, PartialEq, Eq)]
pub enum Colour {
    Green,
    Yellow,
    Red,
}

/// What a signal shows at a second.
///
/// docs/RULES.md, "Signs".
#[derive(Debug, Clone, Copy, PartialEq, Eq)]
pub enum Sign {
    /// No green has begun yet, or the last one is over.
    Dark,
    /// A phase is green, since this second without a break.
    On { phase: u8, since: u32 },
    /// The green of one phase is over, and the next one, of another phase or the same, has not begun.
    Change { from: u8, to: u8 },
}

/// The greens of a signal, one after another: each ends after its begin, and begins no earlier than the one before it
/// ends. Contracts see it as the list of its rows.
///
/// docs/RULES.md, "Timeline".
#[derive(Drop)]
pub struct Timeline {
    rows: Vec<Green>,
    /// A guess at the row that is asked for next: where the last splice began.
    guess: usize,
}

impl Model for Timeline {
    ghost use Rattle.std.specs.Prelude.{List};
    ghost use Rattle.control_flow.specs.declared.greens.Green.{Green};

    ghost Value = { List Green };

    ghost use Rattle.control_flow.specs.Greens.{IsInOrder};

    ghost view = { λ line. line.rows.items };

    ghost invariant = { λ line. IsInOrder line.rows.items };
}

impl Timeline {
    ghost use Rattle.std.specs.Prelude.{◌≡◌, ℕ, Some, List, OnErr, OnOk};
    ghost use Rattle.phase_plan.specs.{Phases.IsRing, declared.Phase.Phase};
    ghost use Rattle.switch_rules.specs.declared.Head.{Head};
    ghost use Rattle.control_flow.specs.Greens.{GoesOn, IsContinued, IsInOrder, IsLawful, Joins, head_at, spliced};

    /// The timeline of these rows, each of which ends after its begin, and begins no earlier than the one before it ends.
    ///
    /// docs/RULES.md, "Timeline".
    pub fn from_rows(rows: Vec<Green>) -> Self
        requires { IsInOrder rows.items }
        ensures { result ≡ rows.items }
    {
        Timeline { rows, guess: 0 }
    }

    /// The rows, one after another.
    ///
    /// docs/RULES.md, "Timeline".
    pub fn rows(&self) -> &[Green]
        ensures value { result.now ≡ self.now }
        ensures order { IsInOrder self.now }
    {
        self.rows.as_slice()
    }

    /// A place, which may be that of no row, for the row that is asked for next.
    pub(crate) fn guess(&self) -> usize {
        self.guess
    }

    /// Replaces the rows from the begin of the first row of `next` on by `next`; an empty one replaces nothing. Some row
    /// has the phase and the begin of that first row. At an `Err`, out of memory, all is as it was.
    ///
    /// Where the timeline is lawful for a plan, and `next` is and goes on in the head that the timeline has at a second
    /// `now`, the new timeline is lawful too; in every second before `now` it shows the same sign, and every phase the same
    /// colour; and it ends as `next` does.
    ///
    /// docs/RULES.md, "Timeline".
    pub fn splice(&mut self, next: Timeline) -> Result<(), AllocError>
        requires { Joins self.old next }
        ensures ok { OnOk result (self.new ≡ spliced self.old next) }
        ensures refused { OnErr result (self.new ≡ self.old) }
        ensures law { (plan : List Phase) (now : ℕ) (head : Head)
            → IsRing plan → IsLawful plan self.old → head_at plan self.old now ≡ Some head → IsLawful plan next
            → GoesOn head next
            → OnOk result (IsContinued plan self.old now next self.new) }
    {
        replace(&mut self.rows, &next.rows, &mut self.guess)
    }
}

/// Replaces the rows from the begin of the first new one on by the new ones, and writes where that is; at an `Err`, out of
/// memory, the rows are as they were.
fn replace(rows: &mut Vec<Green>, next: &[Green], guess: &mut usize) -> Result<(), AllocError>
    requires { IsInOrder rows.old.items }
    ensures ok { OnOk result (rows.new.items ≡ spliced rows.old.items next.now) }
    ensures refused { OnErr result (rows.new.items ≡ rows.old.items) }
{
    let Some(first) = next.first() else {
        return Ok(());
    };
    let kept = count_before(rows, first.from);
    let freed = rows.len() - kept;
    *guess = kept;
    rows.reserve(next.len().saturating_sub(freed))?;
    rows.truncate(kept);
    rows.extend_from_slice(next)
}

impl CrossesThreads for Green {}

impl CrossesThreads for Colour {}

impl CrossesThreads for Sign {}

impl CrossesThreads for Timeline {}
