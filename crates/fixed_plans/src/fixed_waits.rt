//! Waits under fixed plans.
ghost use Rattle.std.specs.Prelude.{ℕ, ◌+◌, ◌<◌, ◌≤◌, Contains, List, length};
ghost use Rattle.control_flow.specs.Greens.{IsLawful};
ghost use Rattle.fixed_plans.specs.{FixedBounds.fixed_bounds, Lines.cycle_length, Lines.fixed_line, Lines.rows_of, Rows.IsFixedPlan, declared.rows.FixedRow.FixedRow};
ghost use Rattle.net_parts.specs.{Numbers.Net, Outline.plan_at};
ghost use Rattle.net_simulator.specs.{Flow.cumulative_under, Sums.end_of_run, Worlds.signs_by};
ghost use Rattle.road_net.specs.Network.{IsNetwork};
ghost use Rattle.waits.specs.{Discharges.AreWaitsWithin, Waits.IsGreenBy};

/// Under a fixed plan each phase that has a row is green within each length of its node's cycle.
///
/// docs/RULES.md, "How long a queue can wait".
pub fn law_of_cycles()
    ensures { (net : Net) → IsNetwork net → (rows : List FixedRow) → IsFixedPlan net rows
        → (node : ℕ) → node < length net.node_names → (row : FixedRow) → Contains (rows_of rows node) row
        → let length = cycle_length (plan_at net node) (rows_of rows node) in
        (second : ℕ) → second ≤ end_of_run net
        → IsGreenBy (fixed_line net rows node) row.phase second (second + length) }
{}

/// Under a fixed plan each queue of a link without a walk, whose phase has a row with a green longer than its start-up, loses something
/// within the length of the cycle, that start-up and a second, where the run goes on as long.
///
/// docs/RULES.md, "How long a queue can wait".
pub fn law_of_fixed_waits()
    ensures { (net : Net) → IsNetwork net → (rows : List FixedRow) → IsFixedPlan net rows → (arriving : ℕ → ℕ → ℕ)
        → ((node : ℕ) → node < length net.node_names → IsLawful (plan_at net node) (fixed_line net rows node))
        → AreWaitsWithin net (fixed_bounds net rows)
        (cumulative_under net arriving (signs_by (fixed_line net rows)) (end_of_run net)) (end_of_run net) }
{}
