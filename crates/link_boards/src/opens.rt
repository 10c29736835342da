//! The boards and their passes are made.
ghost use Rattle.std.specs.Prelude.{◌≡◌, ◌<◌, ◌≤◌, ◌+◌, ◌^◌, [], IfOk, IfErr, All, length, replicate, slice_index, vec_len, vec_capacity};
ghost use Rattle.std.specs.List.{sum};
ghost use Rattle.board_model.specs.Boards.{most_versions};
ghost use Rattle.link_boards.specs.{Gathered.IsDealer, Passes.AreAllPasses, Passes.fresh_pass, Passes.fresh_passes};

use crate::boards::{Boards, Place};
use crate::pass::Pass;
use crate::rule::{DealPass, PassRequest};
use crate::slots::LinkSlot;
use crate::views::Terms;
use atomic_table::{Refused, Table};
use std::alloc::{AllocError, Global};
use std::marker::Brand;
use std::sync::atomic::AtomicU64;

// No thread waits yet.
fn none_waiting(alloc: Global, links: u32) -> Result<Vec<AtomicU64>, AllocError>
    ensures { IfOk result (λ v. vec_len v ≡ links) }
{
    let mut waiting = Vec::with_capacity(alloc, links as usize)?;
    for _ in 0..links {
        waiting.push(AtomicU64::new(0))?;
    }
    Ok(waiting)
}

// What is taken before the table is made.
#[derive(Drop)]
struct Reserved<S: LinkSlot> {
    waiting: Vec<AtomicU64>,
    words: Vec<u64>,
    passes: Vec<Pass<S>>,
}

// Takes that: no thread waits, the words are 0, and there is capacity for the passes. `Err`: out of memory.
fn reserve<S: LinkSlot>(alloc: Global, links: u32, passes: u32) -> Result<Reserved<S>, AllocError>
    ensures waiting { IfOk result (λ r. vec_len r.waiting ≡ links) }
    ensures words { IfOk result (λ r. r.words.items ≡ replicate (links + 1) 0) }
    ensures passes { IfOk result (λ r. (r.passes.items ≡ []) × (passes ≤ vec_capacity r.passes)) }
{
    let waiting = none_waiting(alloc, links)?;
    let words = Vec::from_elem(alloc, 0u64, links as usize + 1)?;
    let passes = Vec::with_capacity(alloc, passes as usize)?;
    Ok(Reserved {
        waiting,
        words,
        passes,
    })
}

impl<S: LinkSlot> Boards<S> {
    // Makes a pass with calls that the seat has left.
    fn deal<W: PassRequest>(&self, seat: &mut Place<S>, number: u32, calls: u32) -> Pass<S>
        requires asked { W.calls ≡ calls }
        requires table { seat.old.table_id ≡ self.now.id }
        requires number { number < self.now.passes }
        requires left { calls ≤ seat.old.me.0.left }
        requires dealer { IsDealer number seat.old.me.0 }
        ensures table { (seat.new.table_id ≡ seat.old.table_id) × (seat.new.id ≡ seat.old.id)
            × (seat.new.me.1 ≡ seat.old.me.1) }
        ensures left { seat.new.me.0.left + calls ≡ seat.old.me.0.left }
        ensures dealer { IsDealer (number + 1) seat.new.me.0 }
        ensures pass { result ≡ fresh_pass self.now.id calls number }
    {
        let given = self.table.shared.split_seat::<DealPass<W>>(seat);
        Pass {
            seat: given,
            number,
            left: calls,
        }
    }

    // Makes all passes, with these calls.
    fn deal_all(
        &self,
        mut all: Vec<Pass<S>>,
        mut seat: Place<S>,
        passes: u32,
        calls: &[u32],
    ) -> Vec<Pass<S>>
        requires table { (seat.table_id ≡ self.now.id) × (seat.me.1 ≡ []) }
        requires passes { (passes ≡ self.now.passes) × (1 ≤ passes) × (passes ≡ length calls.now) }
        requires calls { sum calls.now ≤ seat.me.0.left }
        requires dealer { IsDealer 1 seat.me.0 }
        requires capacity { (all.items ≡ []) × (passes ≤ vec_capacity all) }
        ensures { result.items ≡ fresh_passes self.now.id calls.now }
    {
        for number in 1..passes {
            let left = calls[number as usize];
            all.push_reserved(self.deal::<Brand>(&mut seat, number, left));
        }
        let first = Pass {
            seat,
            number: 0,
            left: calls[0],
        };
        let Ok(()) = all.insert(0, first) else {
            unreachable!();
        };
        all
    }

    /// Boards over slots that stand for empty logs, one for each link, and a pass for each of these numbers of calls left,
    /// with the numbers 0, 1, .. in their order. There is at least one pass, fewer than 2^32 passes and links, and at most
    /// 4,000,000,000 calls in all.
    ///
    /// `Err`: out of memory; it gives the slots back.
    ///
    /// docs/DESIGN.md, "Shared boards".
    pub fn over(
        alloc: Global,
        slots: Vec<S>,
        calls: &[u32],
    ) -> Result<(Boards<S>, Vec<Pass<S>>), Vec<S>>
        requires links { length slots.items < 2 ^ 32 }
        requires slots { All (λ s. ((S.log s).events ≡ []) × S.settled s) slots.items }
        requires passes { (1 ≤ length calls.now) × (length calls.now < 2 ^ 32) }
        requires calls { sum calls.now ≤ most_versions }
        ensures boards { IfOk result (λ r. (r.0.links ≡ length slots.items) × (r.0.passes ≡ length calls.now)) }
        ensures passes { IfOk result (λ r. r.1.items ≡ fresh_passes r.0.id calls.now) }
        ensures all { IfOk result (λ r. AreAllPasses r.0 r.1.items) }
        ensures back { IfErr result (λ back. back.items ≡ slots.items) }
    {
        let links = slots.len() as u32;
        let passes = calls.len() as u32;
        let Ok(reserved) = reserve(alloc, links, passes) else {
            return Err(slots);
        };
        let Reserved {
            waiting,
            words,
            passes: all,
        } = reserved;
        let terms = Terms {
            passes: passes as u64,
        };
        match Table::new(alloc, words.as_slice(), slots, &terms) {
            Ok((table, seat)) => {
                let boards = Boards {
                    table,
                    links,
                    passes,
                    waiting,
                };
                let all = boards.deal_all(all, seat, passes, calls);
                Ok((boards, all))
            }
            Err(Refused { slots }) => Err(slots),
        }
    }

    // Ends boards that have no link.
    fn end_empty(self)
        requires { self.links ≡ 0 }
    {
        let Boards {
            table,
            links: _,
            passes: _,
            waiting: _,
        } = self;
        table.close().free();
    }
}

/// Passes of boards that have ended, which have no link, so that no call can be made with them. They are for a place that must have a
/// pass while its own is elsewhere. There is at least one.
///
/// `Err`: out of memory.
///
/// docs/DESIGN.md, "Shared boards".
pub fn idle_passes<S: LinkSlot>(alloc: Global, passes: u32) -> Result<Vec<Pass<S>>, AllocError>
    requires { 1 ≤ passes }
    ensures { IfOk result (λ all. vec_len all ≡ passes) }
{
    let calls = Vec::from_elem(alloc, 0u32, passes as usize)?;
    match Boards::over(alloc, Vec::new(alloc), calls.as_slice()) {
        Ok((boards, all)) => {
            boards.end_empty();
            Ok(all)
        }
        Err(slots) => {
            slots.destroy_empty();
            Err(AllocError)
        }
    }
}
