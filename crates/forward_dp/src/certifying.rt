//! The whole table as a certificate.

ghost use Rattle.std.specs.Prelude.{◌≡◌, ◌+◌, ◌*◌, ◌≤◌, [], List, length, IfOk, OnOk, true};
ghost use Rattle.switch_rules.specs.Bounds.{most_clusters, most_entries};
ghost use Rattle.schedule_meaning.specs.{Best.IsBest, Instances.IsInstance};
ghost use Rattle.dp_certificate.specs.{Limits.HasKeysWithin, Limits.IsLimited, Limits.IsSomeDelay, Numbers.sequence_of, Prefixes.HasAllKeys, Prefixes.Key, Proves.Proves, Whole.IsWhole};
ghost use Rattle.forward_dp.specs.{Parts.AreParts, Tables.HasAnswers, Tables.HasEntries, Tables.all_rows, declared.rows.Row.Row};

use crate::best_answer;
use crate::lists::Lists;
use crate::live_rows::{DroppedRows, Rows};
use crate::table::{row_capacity, table};
use dp_certificate::Certificate;
use foundation::steps::Steps;
use schedule_meaning::{Answer, Instance};
use std::alloc::{AllocError, Global};
use std::sync::ledger::Ledger;

/// The whole table with the best answer: a certificate with an entry for each key that a fit prefix reaches, with the
/// least delay of the prefixes that reach it. It proves its answer.
///
/// There are at most as many servings as phases for each such key. `Err`: out of memory.
///
/// docs/RULES.md, "Certificate".
pub fn certify<L: Ledger>(
    alloc: Global,
    i: &Instance,
    steps: &mut Steps<L>,
) -> Result<Certificate, AllocError>
    ensures instance { IfOk result (λ c. c.problem ≡ i.now) }
    ensures whole { IfOk result (λ c. IsWhole i.now c.entries) }
    ensures best { IfOk result (λ c. IsBest i.now c.answer) }
    ensures proves { IfOk result Proves }
    ensures few { IfOk result (λ c. (length c.entries ≤ most_entries)
        × (length (sequence_of c.answer) ≤ most_clusters)) }
    ensures servings { (keys : List Key) → HasAllKeys i.now keys
        → steps.new ≤ steps.old + length i.now.plan * length keys }
{
    certify_within(alloc, i, None, steps)
}

/// The table with a limit, with the best answer: a certificate with an entry for each key that a fit prefix within
/// the limit reaches, with the least delay of the prefixes that reach it. It proves its answer. The limit is the
/// delay of a feasible sequence, in thousandths of a vehicle times weight times seconds; with none the table is the whole one.
///
/// There are at most as many servings as phases for each such key. `Err`: out of memory.
///
/// docs/RULES.md, "Bounded table".
pub fn certify_within<L: Ledger>(
    alloc: Global,
    i: &Instance,
    limit: Option<u64>,
    steps: &mut Steps<L>,
) -> Result<Certificate, AllocError>
    requires { IsSomeDelay i.now limit }
    ensures instance { IfOk result (λ c. c.problem ≡ i.now) }
    ensures table { IfOk result (λ c. IsLimited i.now limit c.entries) }
    ensures best { IfOk result (λ c. IsBest i.now c.answer) }
    ensures proves { IfOk result Proves }
    ensures few { IfOk result (λ c. (length c.entries ≤ most_entries)
        × (length (sequence_of c.answer) ≤ most_clusters)) }
    ensures servings { (keys : List Key) → HasKeysWithin i.now limit keys
        → steps.new ≤ steps.old + length i.now.plan * length keys }
{
    let mut past = DroppedRows {
        keeps_entries: true,
        entries: Vec::with_capacity(alloc, 2 * row_capacity(i))?,
    };
    let answer = answer_of_table(alloc, i, limit, &mut past, steps)?;
    let instance = i.copy(alloc)?;
    Ok(Certificate::of_lawful(instance, past.entries, answer))
}

/// The best answer of the table with a limit, in lists of its own, whose entries are kept. `Err`: out of memory.
fn answer_of_table<L: Ledger>(
    alloc: Global,
    i: &Instance,
    limit: Option<u64>,
    past: &mut DroppedRows,
    steps: &mut Steps<L>,
) -> Result<Answer, AllocError>
    requires delay { IsSomeDelay i.now limit }
    requires past { HasEntries past.old [] }
    requires keeps_entries { past.old.keeps_entries ≡ true }
    ensures parts { IfOk result (AreParts i.now limit past.new.entries.items) }
    ensures servings { (keys : List Key) → HasKeysWithin i.now limit keys
        → steps.new ≤ steps.old + length i.now.plan * length keys }
{
    let Lists {
        mut reached,
        mut rows,
        mut cells,
    } = Lists::new(alloc).for_table(i)?;
    table(i, limit, past, &mut reached, &mut rows, &mut cells, steps)?;
    answer_of_rows(alloc, i, &rows, past)
}

/// The best answer of the rows of a table, whose entries are kept as those before them. `Err`: out of memory.
fn answer_of_rows(
    alloc: Global,
    i: &Instance,
    rows: &Rows,
    past: &mut DroppedRows,
) -> Result<Answer, AllocError>
    requires { HasAnswers i.now rows.now }
    ensures instance { OnOk result (IsInstance i.now) }
    ensures best { IfOk result (IsBest i.now) }
    ensures taken { (gone : List Row) → HasEntries past.old gone
        → OnOk result (HasEntries past.new (all_rows gone rows.now)) }
    ensures keeps_entries { past.new.keeps_entries ≡ past.old.keeps_entries }
{
    let answer = best_answer(alloc, i, rows)?;
    past.take(rows.earlier.as_slice())?;
    past.take(rows.latest.as_slice())?;
    Ok(answer)
}
