//! Waits under the greens of a clean sheet.
ghost use Rattle.std.specs.Prelude.{ℕ, ◌≤◌};
ghost use Rattle.audit.specs.{Audits.IsClean, CleanWaits.AllShowFirst, declared.sheet.Sheet.Sheet};
ghost use Rattle.net_simulator.specs.{Shown.cumulative_of_lines, Sums.end_of_run};
ghost use Rattle.waits.specs.Discharges.{AreEmptied, AreWaitsWithin, wait_bounds};

use road_net::{Network, law_of_network};

/// Under the greens of a clean sheet, whoever wrote it, no queue of a link without a walk waits for ever while its lines go on with
/// intergreens within bounds: each loses something within the bound of its phase, where it has one, and what stands at a second, of an
/// unmarked phase, leaves green by green.
///
/// docs/RULES.md, "How long a queue can wait".
pub fn law_of_clean_waits(net: &Network)
    ensures waits { (arriving : ℕ → ℕ → ℕ) (sheet : Sheet) → IsClean net.now arriving sheet
        → (intergreens : ℕ → ℕ → ℕ) (until : ℕ) → until ≤ end_of_run net.now
        → AllShowFirst net.now intergreens until sheet.lines
        → AreWaitsWithin net.now (wait_bounds net.now intergreens)
        (cumulative_of_lines net.now arriving sheet.lines) until }
    ensures empties { (arriving : ℕ → ℕ → ℕ) (sheet : Sheet) → IsClean net.now arriving sheet
        → (intergreens : ℕ → ℕ → ℕ) (until : ℕ) → until ≤ end_of_run net.now
        → AllShowFirst net.now intergreens until sheet.lines
        → AreEmptied net.now intergreens (cumulative_of_lines net.now arriving sheet.lines) until }
{
    law_of_network(net);
}
