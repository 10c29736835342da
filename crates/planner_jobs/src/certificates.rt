//! The certificate of an instance, by the whole table of entries or by the bounded one.
ghost use Rattle.std.specs.Prelude.{◌≡◌, ◌<◌, ◌≤◌, IfOk, length};
ghost use Rattle.switch_rules.specs.Bounds.{most_clusters, most_entries};
ghost use Rattle.schedule_meaning.specs.Best.{IsBest};
ghost use Rattle.dp_certificate.specs.Numbers as numbers;
ghost use Rattle.dp_certificate.specs.{Proves.Proves, Whole.IsWhole};
ghost use Rattle.pruned_dp.specs.Bounded.{IsBounded};

use dp_certificate::Certificate;
use foundation::steps::Steps;
use schedule_meaning::Instance;
use std::alloc::{AllocError, Global};
use std::sync::ledger::{Blank, Ledger};

/// Which table of entries a certificate is made with.
#[derive(Debug, Clone, Copy, PartialEq, Eq)]
pub(crate) enum Table {
    /// The whole table, as `certify` writes it.
    Whole,
    /// The bounded table, as `certify_bound` writes it.
    Bounded,
}

/// The certificate of an instance by this table, its steps counted in the ledger of this blank.
pub(crate) fn certificate_in_ledger<L: Ledger>(
    alloc: Global,
    blank: Blank,
    table: Table,
    i: &Instance,
) -> Result<Certificate, AllocError>
    requires name { blank.name ≡ L.name }
    requires parts { blank.parts ≡ L.parts }
    requires some { 0 < L.parts }
    ensures instance { IfOk result (λ c. c.problem ≡ i.now) }
    ensures whole { table ≡ Table.Whole → IfOk result (λ c. IsWhole i.now c.entries) }
    ensures bounded { table ≡ Table.Bounded → IfOk result (λ c. IsBounded i.now c.entries) }
    ensures best { IfOk result (λ c. IsBest i.now c.answer) }
    ensures proves { IfOk result Proves }
    ensures few { IfOk result (λ c. (length c.entries ≤ most_entries)
        × (length (numbers.sequence_of c.answer) ≤ most_clusters)) }
{
    let mut steps = Steps::<L>::new(blank);
    match table {
        Table::Whole => forward_dp::certify(alloc, i, &mut steps),
        Table::Bounded => pruned_dp::certify_bound(alloc, i, &mut steps),
    }
}
