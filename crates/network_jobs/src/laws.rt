//! What the text that one command writes is to the other commands: an instance that was planned in a run, and the report of a run.
ghost use Rattle.std.specs.Prelude.{◌≡◌, ℕ, List};
ghost use Rattle.dp_certificate.specs.Certificates.{Claim};
ghost use Rattle.schedule_meaning.specs.Instances.{Problem};
ghost use Rattle.commands.specs.Texts.{AllSaid, Reads};
ghost use Rattle.delay_report.specs.Texts.{IsHistoryText};
ghost use Rattle.planner_jobs.specs.{Kinds.InstanceText, Meanings.IsAcceptedText, Meanings.certify_bound_meaning, Meanings.certify_meaning};
ghost use Rattle.network_jobs.specs.{Headline.AgreesWith, Meanings.instance_meaning, Meanings.net_meaning, Meanings.replay_meaning, Meanings.turns_meaning};

use delay_report::law_of_reports;
use road_net::Network;
use runs::law_of_one_run;

/// Of every plan that was committed: from the text that `instance` writes of it, `certify` and `certify_bound` write a certificate
/// that `check` accepts, and whose answer agrees with the plan.
///
/// docs/RULES.md, "Run".
pub fn law_of_instances()
    ensures whole { (net arr hist node file : List ℕ) (round : ℕ)
        (said : AllSaid (instance_meaning net arr hist node round).texts) (bytes certificate : List ℕ) (p : Problem)
        → (text : (instance_meaning net arr hist node round).writes said bytes) → Reads InstanceText bytes p
        → (certify_meaning file).writes (p, tt) certificate
        → (c : Claim) × IsAcceptedText certificate c × AgreesWith c.answer text.plan.answer }
    ensures bounded { (net arr hist node file : List ℕ) (round : ℕ)
        (said : AllSaid (instance_meaning net arr hist node round).texts) (bytes certificate : List ℕ) (p : Problem)
        → (text : (instance_meaning net arr hist node round).writes said bytes) → Reads InstanceText bytes p
        → (certify_bound_meaning file).writes (p, tt) certificate
        → (c : Claim) × IsAcceptedText certificate c × AgreesWith c.answer text.plan.answer }
{}

/// From the report that `net`, `turns` or `replay` wrote, `replay` writes the same bytes: with the network and what enters it as they
/// were, and the report as the text of the history.
///
/// docs/FORMATS.md, "Words".
pub fn law_of_replays(net: &Network)
    ensures net { (file arr hist : List ℕ) (arriving : ℕ → ℕ → ℕ) (history bytes again : List ℕ)
        → (net_meaning file arr).writes (net.now, (arriving, tt)) bytes → IsHistoryText net.now bytes history
        → (replay_meaning file arr hist).writes (net.now, (arriving, (history, tt))) again → again ≡ bytes }
    ensures turns { (file arr hist : List ℕ) (arriving : ℕ → ℕ → ℕ) (history bytes again : List ℕ)
        → (turns_meaning file arr).writes (net.now, (arriving, tt)) bytes → IsHistoryText net.now bytes history
        → (replay_meaning file arr hist).writes (net.now, (arriving, (history, tt))) again → again ≡ bytes }
    ensures replay { (file arr hist : List ℕ) (arriving : ℕ → ℕ → ℕ) (given history bytes again : List ℕ)
        → (replay_meaning file arr hist).writes (net.now, (arriving, (given, tt))) bytes
        → IsHistoryText net.now bytes history
        → (replay_meaning file arr hist).writes (net.now, (arriving, (history, tt))) again → again ≡ bytes }
{
    law_of_one_run(net);
    law_of_reports(net);
}
