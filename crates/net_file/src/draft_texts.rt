//! The text of a road network: the table of a draft, and how it is printed.
ghost use Rattle.std.specs.Prelude.{◌≡◌, ◌≤◌, Some, OnOk, IfOk, IsUtf8};
ghost use Rattle.toml.specs.{Data.no_members, Data.members_depth, Parse.parse_document, View.table_view};
ghost use Rattle.net_file.specs.Written.{AreMembersOf, IsPrinted, IsTextOfDraft, Says};

use crate::puts::put_number;
use crate::tables::{put_table, put_tables, put_tables_if_any};
use net_parts::Draft;
use std::alloc::{AllocError, Global};
use toml::Table;

/// The network file of a draft, of a version in which it can be: it has every mark and weight, and of what else may be absent
/// `split` where it is true, `age`, `hold`, `recall`, `act_step`, `rate`, the ends of links, yields and walks where the draft has
/// them, and an array where it is not empty. `Err`: out of memory.
///
/// docs/FORMATS.md, "Network file".
pub(crate) fn draft_text(alloc: Global, draft: &Draft, version: u32) -> Result<Vec<u8>, AllocError>
    requires known { (2 ≤ version) × (version ≤ 3) }
    requires says { Says version draft.now }
    ensures { IfOk result (λ bytes. IsTextOfDraft version bytes.items draft.now) }
{
    let mut table = Table::new(alloc);
    fill(alloc, &mut table, draft, version)?;
    print(alloc, &table)
}

/// Fills an empty table with the version and the draft.
fn fill(alloc: Global, table: &mut Table, draft: &Draft, version: u32) -> Result<(), AllocError>
    requires known { (2 ≤ version) × (version ≤ 3) }
    requires says { Says version draft.now }
    ensures { OnOk result
        (table_view table.old ≡ no_members → AreMembersOf 5 version (table_view table.new) draft.now) }
{
    put_number(alloc, table, "version", version)?;
    put_table(alloc, table, "run", &draft.run)?;
    put_tables(alloc, table, "node", &draft.nodes)?;
    put_tables(alloc, table, "link", &draft.links)?;
    put_tables_if_any(alloc, table, "conflict", &draft.conflicts)
}

/// The table as TOML. No date of a table of numbers and texts is at fault, so `Err` is out of memory.
fn print(alloc: Global, table: &Table) -> Result<Vec<u8>, AllocError>
    ensures { IfOk result (λ bytes. IsPrinted bytes.items (table_view table.now)) }
{
    let text = toml::table_to_string(alloc, table).ok().ok_or(AllocError)?;
    Ok(text.into_bytes())
}
