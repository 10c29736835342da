//! The tables of a network file, each made of a part of the draft.
ghost use Rattle.std.specs.Prelude.{ℕ, Option, Some, OnOk, IfOk};
ghost use Rattle.toml.specs.{Data.Data, View.view, View.table_view, View.items_view};
ghost use Rattle.net_tables.specs.Table as spec;
ghost use Rattle.net_file.specs.Written.{IsDataOf, IsFilledWith, AreItemsOf, HasData, HasItems, HasItemsIfAny, HasYields, HasWalk, SaysPhase, SaysNode, SaysLink, Always, text_in, run_in};

use crate::puts::{
    put, put_flag, put_flag_if_true, put_number, put_number_if, put_text, put_text_if,
};
use foundation::items::Items;
use foundation::text::Text;
use net_parts::{
    DraftConflict, DraftLink, DraftNode, DraftPhase, DraftTurn, DraftYield, Run, Walk,
};
use std::alloc::{AllocError, Global};
use toml::{Table, Value};

/// A part of a draft that is a table in an array of the file.
pub(crate) trait Element: Sized {
    /// What is read from such a table, in a file of a version.
    ghost reading: { ℕ → Data → Option Self };

    /// In which version it can be.
    ghost says: { ℕ → Self → Type 0 };

    /// How deep such a table is, at most.
    ghost deep: { ℕ };

    /// Fills an empty table.
    fn fill(&self, alloc: Global, table: &mut Table) -> Result<(), AllocError>
        ensures { OnOk result (IsFilledWith reading says deep self.now (table_view table.old) (table_view table.new)) };
}

/// The table of an element.
fn table_of<T: Element>(alloc: Global, element: &T) -> Result<Value, AllocError>
    ensures { IfOk result (λ value. IsDataOf T.reading T.says T.deep (view value) element.now) }
{
    let mut table = Table::new(alloc);
    element.fill(alloc, &mut table)?;
    Ok(Value::Table(table))
}

/// The tables of some elements, in order.
fn tables_of<T: Element>(alloc: Global, elements: &[T]) -> Result<Vec<Value>, AllocError>
    ensures { IfOk result (λ values. AreItemsOf T.reading T.says T.deep (items_view values.items) elements.now) }
{
    let mut values = Vec::new(alloc);
    for element in elements {
        values.push(table_of(alloc, element)?)?;
    }
    Ok(values)
}

/// Puts the table of an element at a key.
pub(crate) fn put_table<T: Element>(
    alloc: Global,
    table: &mut Table,
    key: &str,
    element: &T,
) -> Result<(), AllocError>
    ensures { OnOk result
        (HasData T.reading T.says T.deep key.now element.now (table_view table.old) (table_view table.new)) }
{
    let value = table_of(alloc, element)?;
    put(alloc, table, key, value)
}

/// Puts an array of tables at a key.
pub(crate) fn put_tables<T: Element>(
    alloc: Global,
    table: &mut Table,
    key: &str,
    elements: &Items<T>,
) -> Result<(), AllocError>
    ensures { OnOk result
        (HasItems T.reading T.says T.deep key.now elements.now (table_view table.old) (table_view table.new)) }
{
    let values = tables_of(alloc, elements.as_slice())?;
    put(alloc, table, key, Value::Array(values))
}

/// Puts an array of tables at a key, where there are elements.
pub(crate) fn put_tables_if_any<T: Element>(
    alloc: Global,
    table: &mut Table,
    key: &str,
    elements: &Items<T>,
) -> Result<(), AllocError>
    ensures { OnOk result
        (HasItemsIfAny T.reading T.says T.deep key.now elements.now (table_view table.old) (table_view table.new)) }
{
    if elements.as_slice().is_empty() {
        Ok(())
    } else {
        put_tables(alloc, table, key, elements)
    }
}

/// The texts as values, in order.
fn values_of(alloc: Global, texts: &[Text]) -> Result<Vec<Value>, AllocError>
    ensures { IfOk result (λ values. AreItemsOf text_in Always 0 (items_view values.items) texts.now) }
{
    let mut values = Vec::new(alloc);
    for text in texts {
        values.push(Value::string(alloc, text.as_str())?)?;
    }
    Ok(values)
}

/// Puts an array of texts at a key.
fn put_texts(
    alloc: Global,
    table: &mut Table,
    key: &str,
    texts: &Items<Text>,
) -> Result<(), AllocError>
    ensures { OnOk result (HasItems text_in Always 0 key.now texts.now (table_view table.old) (table_view table.new)) }
{
    let values = values_of(alloc, texts.as_slice())?;
    put(alloc, table, key, Value::Array(values))
}

/// Puts an array of texts at a key, where there are texts.
fn put_texts_if_any(
    alloc: Global,
    table: &mut Table,
    key: &str,
    texts: &Items<Text>,
) -> Result<(), AllocError>
    ensures { OnOk result
        (HasItemsIfAny text_in Always 0 key.now texts.now (table_view table.old) (table_view table.new)) }
{
    if texts.as_slice().is_empty() {
        Ok(())
    } else {
        put_texts(alloc, table, key, texts)
    }
}

/// Puts the links to which a link gives way, and its discharge then, where there are any.
fn put_yields(
    alloc: Global,
    table: &mut Table,
    yields: &Option<DraftYield>,
) -> Result<(), AllocError>
    ensures { OnOk result (HasYields yields.now (table_view table.old) (table_view table.new)) }
{
    match yields {
        Some(given) => {
            put_texts(alloc, table, "yields", &given.links)?;
            put_number(alloc, table, "yield_sat", given.sat)
        }
        None => Ok(()),
    }
}

/// Puts a walk, where there is one.
fn put_walk(alloc: Global, table: &mut Table, walk: Option<Walk>) -> Result<(), AllocError>
    ensures { OnOk result (HasWalk walk (table_view table.old) (table_view table.new)) }
{
    match walk {
        Some(walk) => {
            put_number(alloc, table, "walk", walk.seconds)?;
            put_number(alloc, table, "cross", walk.cross)
        }
        None => Ok(()),
    }
}

impl Element for Run {
    ghost reading = { run_in };

    ghost says = { Always };

    ghost deep = { 1 };

    fn fill(&self, alloc: Global, table: &mut Table) -> Result<(), AllocError> {
        put_number(alloc, table, "step", self.step)?;
        put_number(alloc, table, "look", self.look)?;
        put_number(alloc, table, "gap", self.gap)?;
        put_number(alloc, table, "rounds", self.rounds)?;
        put_flag_if_true(alloc, table, "split", self.split)?;
        put_number_if(alloc, table, "age", self.age)?;
        put_number_if(alloc, table, "hold", self.hold)?;
        put_number_if(alloc, table, "recall", self.recall)?;
        put_number_if(alloc, table, "act_step", self.act_step)?;
        put_number_if(alloc, table, "rate", self.rate)
    }
}

impl Element for DraftNode {
    ghost reading = { λ version. spec.node_of (Some version) };

    ghost says = { SaysNode };

    ghost deep = { 4 };

    fn fill(&self, alloc: Global, table: &mut Table) -> Result<(), AllocError> {
        put_text(alloc, table, "name", &self.name)?;
        put_tables(alloc, table, "phase", &self.phases)
    }
}

impl Element for DraftPhase {
    ghost reading = { λ version. spec.phase_of (Some version) };

    ghost says = { SaysPhase };

    ghost deep = { 2 };

    fn fill(&self, alloc: Global, table: &mut Table) -> Result<(), AllocError> {
        let phase = self.phase;
        put_number(alloc, table, "least", phase.least)?;
        put_number(alloc, table, "greatest", phase.greatest)?;
        put_number(alloc, table, "yellow", phase.yellow)?;
        put_number(alloc, table, "clear", phase.clear)?;
        put_number(alloc, table, "loss", phase.loss)?;
        put_number(alloc, table, "wait", phase.wait)?;
        put_flag(alloc, table, "skip", phase.skip)?;
        put_texts(alloc, table, "links", &self.links)?;
        put_texts_if_any(alloc, table, "also", &self.also)
    }
}

impl Element for DraftLink {
    ghost reading = { λ version. spec.link_of (Some version) };

    ghost says = { SaysLink };

    ghost deep = { 3 };

    fn fill(&self, alloc: Global, table: &mut Table) -> Result<(), AllocError> {
        put_text(alloc, table, "name", &self.name)?;
        put_text_if(alloc, table, "from", &self.from)?;
        put_text_if(alloc, table, "to", &self.to)?;
        put_number(alloc, table, "travel", self.travel)?;
        put_number(alloc, table, "sat", self.sat)?;
        put_number(alloc, table, "weight", self.weight)?;
        put_yields(alloc, table, &self.yields)?;
        put_walk(alloc, table, self.walk)?;
        put_tables_if_any(alloc, table, "turn", &self.turns)
    }
}

impl Element for DraftTurn {
    ghost reading = { λ _. spec.turn_of };

    ghost says = { Always };

    ghost deep = { 1 };

    fn fill(&self, alloc: Global, table: &mut Table) -> Result<(), AllocError> {
        put_text(alloc, table, "exit", &self.exit)?;
        put_number(alloc, table, "share", self.share)
    }
}

impl Element for DraftConflict {
    ghost reading = { λ _. spec.conflict_of };

    ghost says = { Always };

    ghost deep = { 1 };

    fn fill(&self, alloc: Global, table: &mut Table) -> Result<(), AllocError> {
        put_text(alloc, table, "a", &self.a)?;
        put_text(alloc, table, "b", &self.b)
    }
}
