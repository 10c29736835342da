//! A layer out of the one before: its pieces are extended in threads, and joined.

ghost use Rattle.std.specs.Prelude.{◌≡◌, ◌*◌, ◌<◌, ◌≤◌, [], All, IfOk, length};
ghost use Rattle.dp_certificate.specs.Certificates.{AreRising, IsEntry};
ghost use Rattle.parallel_dp.specs.Pieces.{AreNextOfPieces, IsJoinOfAll, IsNextOf, piece_of};

use crate::joins::join;
use crate::{extend, join_pieces};
use dp_certificate::Entry;
use foundation::items::Items;
use foundation::steps::Steps;
use rayon::prelude::*;
use schedule_meaning::Instance;
use std::alloc::{AllocError, Global};
use std::marker::Brand;
use std::sync::ledger::{Blank, Ledger};
use std::thread::Threads;

/// How many entries a thread extends at the least: below it, starting a thread costs more than it gains.
const LEAST_ENTRIES: usize = 2048;

/// What is next after the entries of a layer, each within its bounds: extended in pieces of this width, and joined.
pub(crate) fn next_layer(
    rt: &(impl Threads + Sync),
    alloc: Global,
    i: &Instance,
    layer: &[Entry],
    width: usize,
) -> Result<Vec<Entry>, AllocError>
    requires width { (0 < width) × (width ≤ 4096) }
    requires entries { All (IsEntry i.now) layer.now }
    ensures { IfOk result (λ v. IsNextOf i.now layer.now v.items) }
{
    let pieces = next_of_pieces(rt, alloc, i, layer, width)?;
    join_all(alloc, pieces.as_slice())
}

/// What is next after each piece of a layer.
fn next_of_pieces(
    rt: &(impl Threads + Sync),
    alloc: Global,
    i: &Instance,
    layer: &[Entry],
    width: usize,
) -> Result<Vec<Items<Entry>>, AllocError>
    requires width { (0 < width) × (width ≤ 4096) }
    requires entries { All (IsEntry i.now) layer.now }
    ensures { IfOk result (λ v. AreNextOfPieces i.now layer.now width v.items) }
{
    let count = layer.len() / width + 1;
    (0..count)
        .into_par_iter()
        .with_min_len(LEAST_ENTRIES / width + 1)
        .map(
            |k: usize| -> Result<Items<Entry>, AllocError>
                requires { (k * width ≤ length layer.now) × All (IsEntry i.now) layer.now }
                ensures { IfOk result (IsNextOf i.entry.now (piece_of layer.entry.now width k)) }
            { next_of_piece(alloc, i, layer, width, k) },
        )
        .collect::<Result<Vec<Items<Entry>>, AllocError>>(rt, alloc)?
}

/// What is next after one piece of a layer.
fn next_of_piece(
    alloc: Global,
    i: &Instance,
    layer: &[Entry],
    width: usize,
    k: usize,
) -> Result<Items<Entry>, AllocError>
    requires place { k * width ≤ length layer.now }
    requires entries { All (IsEntry i.now) layer.now }
    ensures { IfOk result (IsNextOf i.now (piece_of layer.now width k)) }
{
    let rest = &layer[k * width..];
    let piece = &rest[..width.min(rest.len())];
    next_in_ledger::<Brand>(alloc, i, piece, Blank::new(1))
}

/// What is next after a piece, its servings counted in the ledger of this blank.
fn next_in_ledger<L: Ledger>(
    alloc: Global,
    i: &Instance,
    piece: &[Entry],
    blank: Blank,
) -> Result<Items<Entry>, AllocError>
    requires name { blank.name ≡ L.name }
    requires parts { blank.parts ≡ L.parts }
    requires some { 0 < L.parts }
    requires entries { All (IsEntry i.now) piece.now }
    ensures { IfOk result (IsNextOf i.now piece.now) }
{
    let mut steps = Steps::<L>::new(blank);
    let next = extend(alloc, i, piece, &mut steps)?;
    Ok(Items::from_vec(next))
}

/// Several lists as one, by halves. The keys of each list rise.
pub(crate) fn join_all(alloc: Global, lists: &[Items<Entry>]) -> Result<Vec<Entry>, AllocError>
    requires { All AreRising lists.now }
    ensures { IfOk result (λ v. IsJoinOfAll lists.now v.items) }
{
    match lists {
        [] => Ok(Vec::new(alloc)),
        [list] => copy(alloc, list.as_slice()),
        [first, second] => join(alloc, first.as_slice(), second.as_slice()),
        _ => {
            let (first, second) = lists.split_at(lists.len() / 2);
            let first = join_all(alloc, first)?;
            let second = join_all(alloc, second)?;
            join_pieces(alloc, first, second)
        }
    }
}

/// The entries of a list once more.
fn copy(alloc: Global, entries: &[Entry]) -> Result<Vec<Entry>, AllocError>
    ensures { IfOk result (λ v. v.items ≡ entries.now) }
{
    let mut copy = Vec::new(alloc);
    copy.extend_from_slice(entries)?;
    Ok(copy)
}
