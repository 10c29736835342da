//! What is counted of plans that are not kept.
ghost use Rattle.std.specs.Prelude.{◌≡◌, ◌≤◌, if◌then◌else◌};
ghost use Rattle.runs.specs.Tallies.{is_no_plan, planned_delay};
ghost use Rattle.schedule_meaning.specs.Best.{IsLeast};
ghost use Rattle.switch_rules.specs.Bounds.{greatest_delay};

use foundation::threads::CrossesThreads;
use intersection_actor::PlanRecord;
use schedule_meaning::Answer;

/// What is counted of plans: how many there are, how many of them are none, and the delays that the others plan together.
///
/// docs/RULES.md, "Run".
#[derive(Debug, Clone, Copy, PartialEq, Eq)]
pub struct PlanTally {
    /// How many plans there are.
    pub plans: u64,
    /// How many of them are none.
    pub none: u64,
    /// The delays of the others together, in thousandths of a vehicle times weight times seconds.
    pub delay: u128,
}

impl CrossesThreads for PlanTally {}

impl PlanTally {
    ghost use Rattle.std.specs.Prelude.{◌≡◌, ◌+◌, ◌<◌, ◌^◌, [], All, if◌then◌else◌, length};
    ghost use Rattle.runs.specs.Tallies.{IsTally, IsTallyOf, is_no_plan, none_count, planned_delay, planned_delays};
    ghost use Rattle.schedule_meaning.specs.Best.{IsLeast};

    /// What is counted of no plans.
    ///
    /// docs/RULES.md, "Run".
    pub fn of_none() -> PlanTally
        ensures none { IsTallyOf [] result }
        ensures bounds { IsTally result }
    {
        PlanTally {
            plans: 0,
            none: 0,
            delay: 0,
        }
    }

    /// Counts these plans too, than which no sequence of their instances has less delay. With them there are fewer than 2^48.
    ///
    /// docs/RULES.md, "Run".
    pub fn add(&mut self, plans: &[PlanRecord])
        requires least { All (λ plan. IsLeast plan.instance plan.answer) plans.now }
        requires bounds { IsTally self.old }
        requires few { self.old.plans + length plans.now < 2 ^ 48 }
        ensures plans { self.new.plans ≡ self.old.plans + length plans.now }
        ensures none { self.new.none ≡ self.old.none + none_count plans.now }
        ensures delay { self.new.delay ≡ self.old.delay + planned_delays plans.now }
        ensures bounds { IsTally self.new }
    {
        for plan in plans {
            self.add_plan(plan);
        }
    }

    /// Counts a plan.
    fn add_plan(&mut self, plan: &PlanRecord)
        requires least { IsLeast plan.now.instance plan.now.answer }
        requires bounds { IsTally self.old }
        requires few { self.old.plans < 2 ^ 48 }
        ensures plans { self.new.plans ≡ self.old.plans + 1 }
        ensures none { self.new.none ≡ self.old.none + (if is_no_plan plan.now.answer then 1 else 0) }
        ensures delay { self.new.delay ≡ self.old.delay + planned_delay plan.now.answer }
        ensures bounds { IsTally self.new }
    {
        self.none += none_of(&plan.answer);
        self.delay += u128::from(delay_of(plan));
        self.plans += 1;
    }
}

/// One where an answer is no plan.
fn none_of(answer: &Answer) -> u64
    ensures { result ≡ (if is_no_plan answer.now then 1 else 0) }
{
    match answer {
        Answer::NoPlan => 1,
        Answer::Plan { .. } => 0,
    }
}

/// The delay of a plan, which its instance bounds.
fn delay_of(plan: &PlanRecord) -> u64
    requires { IsLeast plan.now.instance plan.now.answer }
    ensures value { result ≡ planned_delay plan.now.answer }
    ensures bound { result ≤ greatest_delay }
{
    // Called for its clause `instance`.
    let _plan = plan.instance.plan();
    match &plan.answer {
        Answer::NoPlan => 0,
        Answer::Plan { delay, .. } => *delay,
    }
}
