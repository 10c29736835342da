//! Waits in runs of planned signals.
ghost use Rattle.std.specs.Prelude.{ℕ, List};
ghost use Rattle.board_model.specs.declared.boards.Heard.{Heard};
ghost use Rattle.intersection_actor.specs.Commits.{Commitment};
ghost use Rattle.net_parts.specs.Numbers.{Net};
ghost use Rattle.net_simulator.specs.Sums.{end_of_run};
ghost use Rattle.road_net.specs.Network.{IsNetwork};
ghost use Rattle.runs.specs.Runs.{AllCommit, line_before, cumulative_by};
ghost use Rattle.waits.specs.{Bounds.planned_bounds, Discharges.AreEmptied, Discharges.AreWaitsWithin, Discharges.AreWholeLines, Discharges.intergreens_of};

/// The last timelines of a run are lawful and show all of it, and their intergreens are no longer than the nodes look ahead, or
/// than yellow and all-red take.
///
/// docs/RULES.md, "How long a queue can wait".
pub fn law_of_planned_lines()
    ensures { (net : Net) → IsNetwork net → (arriving : ℕ → ℕ → ℕ) (heard : ℕ → ℕ → List Heard)
        → (made : ℕ → ℕ → Commitment) → AllCommit net arriving heard made net.run.rounds
        → AreWholeLines net (intergreens_of net net.run.look) (end_of_run net) (line_before net made net.run.rounds) }
{}

/// In every run, of whatever history, no queue of a link without a walk waits for ever: where its phase has a bound, it loses
/// something within it if the run goes on as long, and what stands at a second, of an unmarked phase, leaves green by green.
///
/// docs/RULES.md, "How long a queue can wait".
pub fn law_of_planned_waits()
    ensures waits { (net : Net) → IsNetwork net → (arriving : ℕ → ℕ → ℕ) (heard : ℕ → ℕ → List Heard)
        → (made : ℕ → ℕ → Commitment) → AllCommit net arriving heard made net.run.rounds
        → AreWaitsWithin net (planned_bounds net) (cumulative_by net arriving made (end_of_run net)) (end_of_run net) }
    ensures empties { (net : Net) → IsNetwork net → (arriving : ℕ → ℕ → ℕ) (heard : ℕ → ℕ → List Heard)
        → (made : ℕ → ℕ → Commitment) → AllCommit net arriving heard made net.run.rounds
        → AreEmptied net (intergreens_of net net.run.look) (cumulative_by net arriving made (end_of_run net))
        (end_of_run net) }
{}
