//! One step of a table: what is reached from rows with the same counts by the next cluster of one phase.

ghost use Rattle.std.specs.Prelude.{◌≡◌, ◌+◌, ◌<◌, ◌≤◌, IfNone, IfSome, Ok, Some, false, length, slice_get, slice_index};
ghost use Rattle.switch_rules.specs.Serving.{serving};
ghost use Rattle.schedule_meaning.specs.Instances.{list_at};
ghost use Rattle.dp_certificate.specs.{Certificates.IsEntry, Certificates.head_of, Limits.IsWithin, LowerBound.IsRemainingCost, NextEntry.IsNext, NextEntry.stage_of_next, Prefixes.stage_after, Proves.stage_of_entry};

use crate::greens::Greens;
use crate::rows::{Row, merge, push_row};
use dp_certificate::{Entry, RemainingCost, serve_next};
use foundation::steps::Steps;
use foundation::threads::CrossesThreads;
use schedule_meaning::Instance;
use std::alloc::{AllocError, Global};
use std::sync::ledger::Ledger;
use switch_rules::{Cluster, Served};

/// What is reached from rows with the same counts by one phase: in new greens, and in greens that go on. It keeps its
/// memory from one group to the next.
///
/// docs/RULES.md, "Table".
#[derive(Drop)]
pub struct Reached {
    greens: Greens,
    fresh: Vec<Row>,
    kept: Vec<Row>,
}

impl CrossesThreads for Reached {}

impl Reached {
    ghost use Rattle.std.specs.Prelude.{◌≡◌, ◌+◌, ◌-◌, ◌<◌, ◌≤◌, OnOk, true, false, length, [], Contains, ◌⊎◌};
    ghost use Rattle.forward_dp.specs.{Groups.AreJoined, Groups.AreReachedBy, Groups.IsEmpty, Groups.IsSource, Rows.AreBestOf, Rows.AreLater, Rows.AreRisingPlaces, Rows.AreUpTo, Rows.IsOffered, Rows.time_of};

    /// Nothing is reached. It takes no memory.
    ///
    /// docs/RULES.md, "Table".
    pub fn none(alloc: Global) -> Reached
        ensures { IsEmpty result }
    {
        Reached {
            greens: Greens::none(alloc),
            fresh: Vec::new(alloc),
            kept: Vec::new(alloc),
        }
    }

    /// Reserves memory for this many rows of each kind, at the least. `Err`: out of memory.
    ///
    /// docs/RULES.md, "Table".
    pub fn reserve_rows(&mut self, count: usize) -> Result<(), AllocError>
        requires { IsEmpty self.old }
        ensures { OnOk result (IsEmpty self.new) }
    {
        self.greens.reserve_rows(count)?;
        self.fresh.reserve(count)?;
        self.kept.reserve(count)?;
        Ok(())
    }

    /// Takes in all that is reached from rows by a cluster of a phase, which is the next one after each of them, and
    /// is within the limit, where there is one: its delay with the rest is not above it. It is one step for each row.
    /// `Err`: out of memory.
    ///
    /// docs/RULES.md, "Table".
    pub fn reach<L: Ledger>(
        &mut self,
        i: &Instance,
        source: &[Row],
        phase: u8,
        cluster: &Cluster,
        limit: Option<u64>,
        steps: &mut Steps<L>,
    ) -> Result<(), AllocError>
        requires phase { phase < length i.now.plan }
        requires source { IsSource i.now phase cluster.now source.now }
        requires empty { IsEmpty self.old }
        ensures reached { OnOk result
            (AreReachedBy i.now limit phase cluster.now source.now (length source.now) self.new) }
        ensures steps { steps.new ≤ steps.old + length source.now }
    {
        let mut remaining = RemainingCost::new();
        for row in source {
            if let Some((served, entry)) = serve_within(
                i,
                &row.entry,
                phase,
                cluster,
                limit,
                &mut remaining,
                steps,
            ) {
                let order = row.order.followed_by(phase);
                self.take_in(&served, cluster, Row { entry, order })?;
            }
        }
        Ok(())
    }

    /// Takes in one row by a cluster that was served so.
    fn take_in(&mut self, served: &Served, cluster: &Cluster, row: Row) -> Result<(), AllocError>
        requires kept { served.now.kept ≡ true → AreLater self.old.kept.items
            × AreUpTo (time_of row) self.old.kept.items }
        requires wait { (cluster.now.arr ≤ served.now.start) × (served.now.start - cluster.now.arr ≤ 3600) }
        ensures kept { OnOk result (served.now.kept ≡ true → AreLater self.new.kept.items
            × AreBestOf (λ c. Contains self.old.kept.items c ⊎ (c ≡ row)) self.new.kept.items
            × (self.new.greens ≡ self.old.greens)) }
        ensures fresh { OnOk result (self.new.fresh.items ≡ self.old.fresh.items) }
        ensures anew { OnOk result (served.now.kept ≡ false
            → IsOffered self.old.greens self.new.greens (served.now.start - cluster.now.arr) row
            × (self.new.kept.items ≡ self.old.kept.items)) }
    {
        if served.kept {
            push_row(&mut self.kept, row)
        } else {
            self.greens.offer(served.start - cluster.arr, row)
        }
    }

    /// Appends what is reached to other rows, in the order of their times, and is empty again. `Err`: out of memory.
    ///
    /// docs/RULES.md, "Table".
    pub fn append_to(&mut self, rows: &mut Vec<Row>) -> Result<(), AllocError>
        requires later { AreLater self.old.kept.items }
        requires rising { AreRisingPlaces self.old.greens }
        requires fresh { self.old.fresh.items ≡ [] }
        ensures joined { OnOk result (AreJoined self.old rows.old.items rows.new.items) }
        ensures empty { OnOk result (IsEmpty self.new) }
    {
        self.greens.drain(&mut self.fresh)?;
        merge(self.fresh.as_slice(), self.kept.as_slice(), rows)?;
        self.fresh.clear();
        self.kept.clear();
        Ok(())
    }
}

/// What is next after an entry when the next cluster of a phase is served, as `serve_next` gives it, where it is within
/// the limit.
#[inline]
fn serve_within<L: Ledger>(
    i: &Instance,
    entry: &Entry,
    phase: u8,
    cluster: &Cluster,
    limit: Option<u64>,
    remaining: &mut RemainingCost,
    steps: &mut Steps<L>,
) -> Option<(Served, Entry)>
    requires phase { phase < length i.now.plan }
    requires entry { IsEntry i.now entry.now }
    requires cluster { slice_get (list_at i.now.lists phase) (slice_index entry.now.counts phase) ≡ Some cluster.now }
    requires remaining { IsRemainingCost i.now remaining.old }
    ensures leads { IfSome result (λ x. Some (stage_of_next x.1)
        ≡ stage_after i.now (stage_of_entry i.now entry.now) phase) }
    ensures served { IfSome result (λ x. serving i.now.plan (stage_of_entry i.now entry.now).head phase cluster.now
        ≡ Ok (x.0, head_of x.1 false)) }
    ensures bounds { IfSome result (λ x. IsNext i.now x.1) }
    ensures within { IfSome result (λ x. IsWithin i.now limit (stage_of_next x.1)) }
    ensures left { IfNone result (IfSome (stage_after i.now (stage_of_entry i.now entry.now) phase)
        (λ s. ¬ IsWithin i.now limit s)) }
    ensures remaining { IsRemainingCost i.now remaining.new }
    ensures steps { steps.new ≤ steps.old + 1 }
{
    let (served, next) = serve_next(i, entry, phase, cluster, steps)?;
    if remaining.is_within(i, &next, limit) {
        Some((served, next))
    } else {
        None
    }
}
