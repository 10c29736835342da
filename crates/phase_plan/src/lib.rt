//! The signal phases of an intersection: their bounds, and the time that a change of phase takes.
#![tactic(auto)]

mod fault_codes;

ghost use Rattle.std.specs.Prelude.{◌≡◌, ◌≢◌, ◌+◌, ◌-◌, ◌*◌, ◌^◌, ◌<◌, ◌≤◌, ◌||◌, length, map, filter, count_by, sum_by, slice_get, if◌then◌else◌, IfErr, IfNone, IfSome, OnErr, OnOk};
ghost use Rattle.std.specs.List.{range_with_len};
ghost use Rattle.phase_plan.specs.Phases as spec;
ghost use Rattle.phase_plan.specs.Phases.{IsPhase, IsPlanFault, IsRing, IsFirstFault, AreSwitchTimes, AreSwitchTimesFrom, greatest_switch_time, is_free, is_unmarked, is_unmarked_at, passing, phase_at, stops_between};

use foundation::threads::CrossesThreads;
use std::alloc::{AllocError, Global};
use std::marker::Model;

/// The times of one phase, in whole seconds, and its mark.
///
/// docs/RULES.md, "Phases".
#[derive(Debug, Clone, Copy, PartialEq, Eq)]
pub struct Phase {
    /// The least duration of a green, 1 to 120.
    pub least: u32,
    /// The greatest duration of a green, from `least` to 240.
    pub greatest: u32,
    /// The yellow that follows a green, 1 to 10.
    pub yellow: u32,
    /// The all-red that follows the yellow, 0 to 10.
    pub clear: u32,
    /// The start-up loss of a new green, 0 to 10 and less than `greatest`.
    pub loss: u32,
    /// The longest time that a cluster of the phase may wait, 1 to 3600.
    pub wait: u32,
    /// The mark of a phase that the ring leaves out, but where docs/RULES.md, "Phases", says otherwise. A ring with all phases marked
    /// is free: any may follow any other.
    pub skip: bool,
}

impl Phase {
    ghost use Rattle.std.specs.Prelude.{◌↔◌, IsTrue};
    ghost use Rattle.phase_plan.specs.Phases.{IsPhase};

    /// Whether each time is within its bounds.
    ///
    /// docs/RULES.md, "Phases".
    pub fn is_within_bounds(&self) -> bool
        ensures { IsTrue result ↔ IsPhase self.now }
    {
        out_of_bounds(self).is_none()
    }
}

/// A field of a `Phase`, as a fault names it.
///
/// docs/RULES.md, "Phases".
#[derive(Debug, Clone, Copy, PartialEq, Eq)]
pub enum Field {
    Least,
    Greatest,
    Yellow,
    Clear,
    Loss,
    Wait,
}

/// Why phases are no plan.
///
/// docs/RULES.md, "Phases".
#[derive(Debug, Clone, Copy, PartialEq, Eq)]
pub enum PlanFault {
    /// The number of phases, which is not 2 to 4.
    Count(u32),
    /// The first phase, from 0, and its first field that is out of bounds.
    Bound { phase: u8, field: Field },
    /// Fewer than two phases are unmarked; where a ring may be free, exactly one; where all but one have to be marked, any other number.
    Skips,
}

/// How many phases of a ring are marked.
///
/// docs/RULES.md, "Phases".
#[derive(Debug, Clone, Copy, PartialEq, Eq)]
pub enum Marks {
    /// Two phases or more are unmarked.
    Fewer,
    /// All phases: the ring is free, and any phase may follow any other.
    All,
    /// All phases but one, as in a round that recalls one phase of a free ring.
    AllButOne,
}

/// Phases that an intersection serves in a ring, 2 to 4 of them, each within its bounds, with any marks.
/// Contracts see it as the list of its phases. The switch times are kept beside them.
///
/// docs/RULES.md, "Phases".
#[derive(Drop)]
pub struct PhasePlan {
    phases: Vec<Phase>,
    /// The switch time from each phase to each, row by row.
    switch_times: [[u32; 4]; 4],
}

impl Model for PhasePlan {
    ghost use Rattle.std.specs.Prelude.{List};
    ghost use Rattle.phase_plan.specs.declared.Phase.{Phase};

    ghost Value = { List Phase };

    ghost use Rattle.phase_plan.specs.Phases.{IsRing, AreSwitchTimes};

    ghost view = { λ plan. plan.phases.items };

    ghost invariant = { λ plan. IsRing plan.phases.items × AreSwitchTimes plan.phases.items plan.switch_times };
}

impl CrossesThreads for Phase {}

impl CrossesThreads for Field {}

impl CrossesThreads for PlanFault {}

impl CrossesThreads for Marks {}

impl CrossesThreads for PhasePlan {}

impl PhasePlan {
    ghost use Rattle.std.specs.Prelude.{◌≡◌, ◌<◌, ◌≤◌, ◌^◌, ◌↔◌, All, IfOk, IfErr, OnErr, IsTrue, length, vec_len};
    ghost use Rattle.phase_plan.specs.Phases.{IsOwnRing, IsOwnRingFault, IsPlan, IsPlanFault, IsRing, IsRingFault, IsRingOfOne, IsRingOfOneFault, IsPhase, IsMarkedAt, between, greatest_switch_time, is_free, marks_of, next_phase, passes_all, phase_at, switch_time};

    /// The plan of these phases, fewer than 2^32, where there are 2 to 4 of them, each is within its
    /// bounds, and at least two are unmarked.
    ///
    /// The fault is the number of phases, or else the first phase that is out of bounds, with the
    /// first of its fields that is, or else that fewer than two are unmarked.
    ///
    /// docs/RULES.md, "Phases".
    pub fn new(phases: Vec<Phase>) -> Result<PhasePlan, PlanFault>
        requires { vec_len phases < 2 ^ 32 }
        ensures ok { IfOk result (λ plan. (plan ≡ phases.items) × IsPlan phases.items) }
        ensures refused { OnErr result (¬ IsPlan phases.items) }
        ensures first { IfErr result (IsPlanFault phases.items) }
    {
        check_phases(&phases)?;
        if count_unmarked(&phases) < 2 {
            return Err(PlanFault::Skips);
        }
        Ok(PhasePlan {
            switch_times: switch_times(&phases),
            phases,
        })
    }

    /// The plan of these phases, as `new` makes it, or with a free ring where all of them are marked.
    ///
    /// The faults are those of `new`, but that a plan is refused for its marks where exactly one phase
    /// is unmarked.
    ///
    /// docs/RULES.md, "Phases".
    pub fn new_or_free(phases: Vec<Phase>) -> Result<PhasePlan, PlanFault>
        requires { vec_len phases < 2 ^ 32 }
        ensures ok { IfOk result (λ plan. (plan ≡ phases.items) × IsOwnRing phases.items) }
        ensures refused { OnErr result (¬ IsOwnRing phases.items) }
        ensures first { IfErr result (IsOwnRingFault phases.items) }
    {
        check_phases(&phases)?;
        if count_unmarked(&phases) == 1 {
            return Err(PlanFault::Skips);
        }
        Ok(PhasePlan {
            switch_times: switch_times(&phases),
            phases,
        })
    }

    /// The plan of these phases, as `new` makes it, of which all but one are marked.
    ///
    /// The faults are those of `new`, but that a plan is refused for its marks where not exactly one phase
    /// is unmarked.
    ///
    /// docs/RULES.md, "Phases".
    pub fn new_of_one(phases: Vec<Phase>) -> Result<PhasePlan, PlanFault>
        requires { vec_len phases < 2 ^ 32 }
        ensures ok { IfOk result (λ plan. (plan ≡ phases.items) × IsRingOfOne phases.items) }
        ensures refused { OnErr result (¬ IsRingOfOne phases.items) }
        ensures first { IfErr result (IsRingOfOneFault phases.items) }
    {
        check_phases(&phases)?;
        if count_unmarked(&phases) != 1 {
            return Err(PlanFault::Skips);
        }
        Ok(PhasePlan {
            switch_times: switch_times(&phases),
            phases,
        })
    }

    /// The plan of these phases, as `new` makes it, with any marks. The faults are those of `new`, but that none is for the marks.
    ///
    /// docs/RULES.md, "Phases".
    pub fn with_any_marks(phases: Vec<Phase>) -> Result<PhasePlan, PlanFault>
        requires { vec_len phases < 2 ^ 32 }
        ensures ok { IfOk result (λ plan. (plan ≡ phases.items) × IsRing phases.items) }
        ensures refused { OnErr result (¬ IsRing phases.items) }
        ensures first { IfErr result (IsRingFault phases.items) }
    {
        check_phases(&phases)?;
        Ok(PhasePlan {
            switch_times: switch_times(&phases),
            phases,
        })
    }

    /// An equal plan, on this allocator. `Err`: out of memory.
    ///
    /// docs/RULES.md, "Phases".
    pub fn copy(&self, alloc: Global) -> Result<PhasePlan, AllocError>
        ensures { IfOk result (λ copy. copy ≡ self.now) }
    {
        Ok(PhasePlan {
            phases: self.phases.as_slice().to_vec(alloc)?,
            switch_times: self.switch_times,
        })
    }

    /// The phases, in order.
    ///
    /// docs/RULES.md, "Phases".
    pub fn phases(&self) -> &[Phase]
        ensures { result.now ≡ self.now }
    {
        self.phases.as_slice()
    }

    /// How many phases there are, 2 to 4.
    ///
    /// docs/RULES.md, "Phases".
    pub fn count(&self) -> u8
        ensures count { result ≡ length self.now }
        ensures ring { IsRing self.now }
    {
        self.phases.len() as u8
    }

    /// Whether the ring is free: all phases are marked, and any may follow any other.
    ///
    /// docs/RULES.md, "Phases".
    pub fn is_free(&self) -> bool
        ensures { result ≡ is_free self.now }
    {
        count_unmarked(&self.phases) == 0
    }

    /// How many of the phases are marked.
    ///
    /// docs/RULES.md, "Phases".
    pub fn marks(&self) -> Marks
        ensures { result ≡ marks_of self.now }
    {
        match count_unmarked(&self.phases) {
            0 => Marks::All,
            1 => Marks::AllButOne,
            _ => Marks::Fewer,
        }
    }

    /// Whether the ring, on its way from a green of phase `s` to one of phase `j`, is green for all others: `s` is `j`, and no
    /// other phase is unmarked. Both numbers are below the count of phases.
    ///
    /// docs/RULES.md, "Ring and switch time".
    pub fn passes_all(&self, s: u8, j: u8) -> bool
        requires from { s < length self.now }
        requires to { j < length self.now }
        ensures { result ≡ passes_all self.now s j }
    {
        passes_all(&self.phases, s as usize, j as usize)
    }

    /// The phase with this number, which is below their count.
    ///
    /// docs/RULES.md, "Phases".
    pub fn phase(&self, k: u8) -> &Phase
        requires { k < length self.now }
        ensures value { result.now ≡ phase_at self.now k }
        ensures bounds { IsPhase result.now }
    {
        &self.phases[k as usize]
    }

    /// The seconds from the end of a green of phase `s` to the begin of a green of phase `j`, at the
    /// least: the yellow and clear time of `s`, and a least green with its yellow and clear time
    /// for each unmarked phase between, or, from `s` to `s` where no other is unmarked, for each other phase.
    /// Both numbers are below the count of phases. At most 440.
    ///
    /// docs/RULES.md, "Ring and switch time".
    pub fn switch_time(&self, s: u8, j: u8) -> u32
        requires from { s < length self.now }
        requires to { j < length self.now }
        ensures value { result ≡ switch_time self.now s j }
        ensures bounds { result ≤ greatest_switch_time }
    {
        self.switch_times[s as usize][j as usize]
    }

    /// The first unmarked phase up the ring from phase `s`, which is below the count of phases; in a
    /// free ring the one after `s`.
    ///
    /// docs/RULES.md, "Ring and switch time".
    pub fn next(&self, s: u8) -> u8
        requires { s < length self.now }
        ensures value { result ≡ next_phase self.now s }
        ensures bounds { result < length self.now }
        ensures passed { All (IsMarkedAt self.now) (between self.now s result) }
    {
        next_phase(&self.phases, s as usize) as u8
    }
}

/// The number of phases, or else the first phase that is out of bounds and the first of its fields that is.
fn check_phases(phases: &[Phase]) -> Result<(), PlanFault>
    requires { length phases.now < 2 ^ 32 }
    ensures ok { OnOk result (IsRing phases.now) }
    ensures refused { OnErr result (¬ IsRing phases.now) }
    ensures first { IfErr result (IsPlanFault phases.now) }
    ensures only { IfErr result (λ fault. fault ≢ PlanFault.Skips) }
{
    if phases.len() < 2 || phases.len() > 4 {
        return Err(PlanFault::Count(phases.len() as u32));
    }
    for (k, phase) in phases.iter().enumerate() {
        if let Some(field) = out_of_bounds(phase) {
            return Err(PlanFault::Bound {
                phase: k as u8,
                field,
            });
        }
    }
    Ok(())
}

/// How many phases are unmarked.
fn count_unmarked(phases: &[Phase]) -> usize
    ensures { result ≡ count_by is_unmarked phases.now }
{
    phases.iter().filter(|phase| !phase.skip).count()
}

/// The first field of the phase that is out of bounds.
fn out_of_bounds(phase: &Phase) -> Option<Field>
    ensures none { IfNone result (IsPhase phase.now) }
    ensures first { IfSome result (IsFirstFault phase.now) }
{
    if !(1..=120).contains(&phase.least) {
        Some(Field::Least)
    } else if !(phase.least..=240).contains(&phase.greatest) {
        Some(Field::Greatest)
    } else if !(1..=10).contains(&phase.yellow) {
        Some(Field::Yellow)
    } else if phase.clear > 10 {
        Some(Field::Clear)
    } else if phase.loss > 10 || phase.loss >= phase.greatest {
        Some(Field::Loss)
    } else if !(1..=3600).contains(&phase.wait) {
        Some(Field::Wait)
    } else {
        None
    }
}

/// The switch times from each phase to each.
fn switch_times(phases: &[Phase]) -> [[u32; 4]; 4]
    requires { IsRing phases.now }
    ensures { AreSwitchTimes phases.now result }
{
    let mut rows = [[0; 4]; 4];
    for s in 0..phases.len() {
        rows[s] = switch_times_from(phases, s);
    }
    rows
}

/// The switch times from phase `s` to each.
fn switch_times_from(phases: &[Phase], s: usize) -> [u32; 4]
    requires ring { IsRing phases.now }
    requires from { s < length phases.now }
    ensures { AreSwitchTimesFrom phases.now s result }
{
    let mut row = [0; 4];
    for j in 0..phases.len() {
        row[j] = switch_time(phases, s, j);
    }
    row
}

/// The seconds from the end of a green of phase `s` to the begin of a green of phase `j`.
fn switch_time(phases: &[Phase], s: usize, j: usize) -> u32
    requires ring { IsRing phases.now }
    requires from { s < length phases.now }
    requires to { j < length phases.now }
    ensures value { result ≡ spec.switch_time phases.now s j }
    ensures bounds { result ≤ greatest_switch_time }
{
    let leaving = &phases[s];
    let all = passes_all(phases, s, j);
    let passed = if s < j {
        passing_time(phases, s + 1, j, all)
    } else {
        passing_time(phases, s + 1, phases.len(), all) + passing_time(phases, 0, j, all)
    };
    leaving.yellow + leaving.clear + passed
}

/// Whether the ring passes all others on its way from phase `s` to phase `j`: they are one, and no other is unmarked.
fn passes_all(phases: &[Phase], s: usize, j: usize) -> bool
    requires { s < length phases.now }
    ensures { result ≡ spec.passes_all phases.now s j }
{
    s == j && first_other(phases, s).is_none()
}

/// The first unmarked phase up the ring from phase `s`, another than `s`.
fn first_other(phases: &[Phase], s: usize) -> Option<usize>
    requires { s < length phases.now }
    ensures { result ≡ slice_get (stops_between phases.now (is_unmarked_at phases.now) s s) 0 }
{
    match first_unmarked(phases, s + 1, phases.len()) {
        Some(k) => Some(k),
        None => first_unmarked(phases, 0, s),
    }
}

/// The seconds that the ring takes to pass the phases from `low` up to `high`: the unmarked ones, or all.
fn passing_time(phases: &[Phase], low: usize, high: usize, all: bool) -> u32
    requires ring { IsRing phases.now }
    requires low { low ≤ high }
    requires high { high ≤ length phases.now }
    ensures value { result ≡ sum_by passing (map (λ k. phase_at phases.now k) (filter (λ k. is_unmarked_at phases.now k || all) (range_with_len low (high - low)))) }
    ensures bounds { result ≤ 140 * (high - low) }
{
    let mut total = 0;
    for k in low..high {
        total += passing(&phases[k], all);
    }
    total
}

/// The seconds that the ring takes to pass the phase: none where it is marked, unless it passes all.
fn passing(phase: &Phase, all: bool) -> u32
    requires { IsPhase phase.now }
    ensures value { result ≡ (if is_unmarked phase.now || all then spec.passing phase.now else 0) }
    ensures bounds { result ≤ 140 }
{
    if phase.skip && !all {
        0
    } else {
        phase.least + phase.yellow + phase.clear
    }
}

/// The first unmarked phase up the ring from phase `s`, or the one after `s` where no other is unmarked.
fn next_phase(phases: &[Phase], s: usize) -> usize
    requires { s < length phases.now }
    ensures { result ≡ spec.next_phase phases.now s }
{
    first_other(phases, s).unwrap_or(one_up(phases, s))
}

/// The phase after `s` up the ring.
fn one_up(phases: &[Phase], s: usize) -> usize
    requires { s < length phases.now }
    ensures { result ≡ spec.one_up phases.now s }
{
    if s + 1 < phases.len() { s + 1 } else { 0 }
}

/// The first unmarked phase from `low` up to `high`.
fn first_unmarked(phases: &[Phase], low: usize, high: usize) -> Option<usize>
    requires low { low ≤ high }
    requires high { high ≤ length phases.now }
    ensures { result ≡ slice_get (filter (is_unmarked_at phases.now) (range_with_len low (high - low))) 0 }
{
    for k in low..high {
        if !phases[k].skip {
            return Some(k);
        }
    }
    None
}
