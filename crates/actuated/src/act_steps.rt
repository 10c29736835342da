//! The rounds of the controller.

ghost use Rattle.std.specs.Prelude.{◌≡◌, ◌≤◌};
ghost use Rattle.road_net.specs.Network.{IsNetwork};
ghost use Rattle.actuated.specs.ActSteps as spec;

use road_net::Network;

/// The seconds of a round of the controller: `act_step` of the run, or its step where it has none.
///
/// docs/RULES.md, "Actuated control".
#[tactic(auto, unfolding(crate::specs::ActSteps::act_step))]
pub fn act_step(net: &Network) -> u32
    ensures value { result ≡ spec.act_step net.now }
    ensures bounds { (1 ≤ result) × (result ≤ net.now.run.step) }
{
    let run = net.run();
    run.act_step.unwrap_or(run.step)
}

/// How many rounds the controller plays in a run. Together they are as long as the run.
///
/// docs/RULES.md, "Actuated control".
#[tactic(auto, unfolding(crate::specs::ActSteps::act_rounds))]
pub fn act_rounds(net: &Network) -> u32
    ensures value { result ≡ spec.act_rounds net.now }
    ensures network { IsNetwork net.now }
{
    let run = net.run();
    run.rounds * (run.step / act_step(net))
}
