//! Waits in runs under actuated control.
ghost use Rattle.std.specs.Prelude.{ℕ, List};
ghost use Rattle.actuated.specs.{ActRuns.AllAct, ActRuns.KeepsWaits, ActRuns.first_line, ActRuns.cumulative_by, ActSteps.act_rounds};
ghost use Rattle.control_flow.specs.{declared.greens.Green.Green, declared.greens.Sign.Sign};
ghost use Rattle.net_parts.specs.Numbers.{Net};
ghost use Rattle.net_simulator.specs.{Flow.Cumulative, Flow.cumulative_under, Sums.end_of_run};
ghost use Rattle.road_net.specs.Network.{IsNetwork};
ghost use Rattle.signal_safety.specs.Rounds.{line_before};
ghost use Rattle.waits.specs.Discharges.{AreEmptied, AreWholeLines, intergreens_of};

/// The last timelines under actuated control are lawful and show all of the run, and their intergreens are yellow and all-red
/// alone, in whatever world the nodes sense.
///
/// docs/RULES.md, "How long a queue can wait".
pub fn law_of_actuated_lines()
    ensures { (net : Net) → IsNetwork net → (under : (ℕ → ℕ → Sign) → ℕ → ℕ → ℕ → Cumulative)
        → (made : ℕ → ℕ → List Green) → AllAct net under made (act_rounds net)
        → AreWholeLines net (intergreens_of net 0) (end_of_run net)
        (line_before (first_line net) made (act_rounds net)) }
{}

/// Under actuated control no queue of a link without a walk waits for ever: each loses something within the bound of its phase, where
/// it has one and the run goes on as long, and what stands at a second, of an unmarked phase, leaves green by green.
///
/// docs/RULES.md, "How long a queue can wait".
pub fn law_of_actuated_waits()
    ensures waits { (net : Net) → IsNetwork net → (arriving : ℕ → ℕ → ℕ) (made : ℕ → ℕ → List Green)
        → AllAct net (cumulative_under net arriving) made (act_rounds net)
        → KeepsWaits net arriving made }
    ensures empties { (net : Net) → IsNetwork net → (arriving : ℕ → ℕ → ℕ) (made : ℕ → ℕ → List Green)
        → AllAct net (cumulative_under net arriving) made (act_rounds net)
        → AreEmptied net (intergreens_of net 0) (cumulative_by net arriving made) (end_of_run net) }
{}
