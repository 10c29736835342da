//! When the signals of a network are safe, and what makes them so, whoever makes the timelines: one lawful timeline at each node.
#![tactic(auto)]

ghost use Rattle.std.specs.Prelude.{ℕ, ◌<◌, List, All, length};
ghost use Rattle.control_flow.specs.{Greens.IsLawful, declared.greens.Green.Green};
ghost use Rattle.net_parts.specs.{Numbers.Net, Outline.plan_at};
ghost use Rattle.road_net.specs.Network.{IsNetwork};
ghost use Rattle.signal_safety.specs.{Rows.AreRowsApart, Safe.IsSafe};

/// Lawful timelines, one for each node of a network, make the network safe: no two links in conflict are ever green together, and
/// each is green only after the yellow and all-red of every earlier green of the other, and after who entered a walk then is over.
///
/// docs/RULES.md, "Run".
pub fn law_of_safety()
    ensures { (net : Net) → IsNetwork net → (lines : ℕ → List Green)
        → ((node : ℕ) → node < length net.node_names → IsLawful (plan_at net node) (lines node))
        → IsSafe net lines }
{}

/// Where lawful timelines are safe, the rows in which two links in conflict are green are apart: no second is in a row of both, and
/// each begins only after the yellow and all-red of every earlier one of the other.
///
/// docs/RULES.md, "Run".
pub fn law_of_rows()
    ensures { (net : Net) → IsNetwork net → (lines : ℕ → List Green)
        → ((node : ℕ) → node < length net.node_names → IsLawful (plan_at net node) (lines node))
        → IsSafe net lines → All (AreRowsApart net lines) net.conflicts }
{}
