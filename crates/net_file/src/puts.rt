//! What is put into a table: a value at a key.
ghost use Rattle.std.specs.Prelude.{◌≡◌, OnOk};
ghost use Rattle.toml.specs.{Data.boolean, Data.string, View.view, View.table_view};
ghost use Rattle.net_file.specs.{Members.with_member, Written.HasNumber, Written.HasNumberIf, Written.HasTextIf, Written.HasFlagIfTrue};

use foundation::text::Text;
use std::alloc::{AllocError, Global};
use toml::{Table, Value};

/// Puts a value at a key.
pub(crate) fn put(
    alloc: Global,
    table: &mut Table,
    key: &str,
    value: Value,
) -> Result<(), AllocError>
    ensures { OnOk result (table_view table.new ≡ with_member key.now (view value) (table_view table.old)) }
{
    let key = String::from_str(alloc, key)?;
    let _ = table.insert(key, value)?;
    Ok(())
}

/// Puts a number at a key.
pub(crate) fn put_number(
    alloc: Global,
    table: &mut Table,
    key: &str,
    number: u32,
) -> Result<(), AllocError>
    ensures { OnOk result (HasNumber key.now number (table_view table.old) (table_view table.new)) }
{
    put(alloc, table, key, Value::Integer(i64::from(number)))
}

/// Puts a number at a key, where there is one.
pub(crate) fn put_number_if(
    alloc: Global,
    table: &mut Table,
    key: &str,
    number: Option<u32>,
) -> Result<(), AllocError>
    ensures { OnOk result (HasNumberIf key.now number (table_view table.old) (table_view table.new)) }
{
    match number {
        Some(number) => put_number(alloc, table, key, number),
        None => Ok(()),
    }
}

/// Puts a truth value at a key.
pub(crate) fn put_flag(
    alloc: Global,
    table: &mut Table,
    key: &str,
    flag: bool,
) -> Result<(), AllocError>
    ensures { OnOk result (table_view table.new ≡ with_member key.now (boolean flag) (table_view table.old)) }
{
    put(alloc, table, key, Value::Boolean(flag))
}

/// Puts a truth value at a key, where it is true.
pub(crate) fn put_flag_if_true(
    alloc: Global,
    table: &mut Table,
    key: &str,
    flag: bool,
) -> Result<(), AllocError>
    ensures { OnOk result (HasFlagIfTrue key.now flag (table_view table.old) (table_view table.new)) }
{
    if flag {
        put_flag(alloc, table, key, true)
    } else {
        Ok(())
    }
}

/// Puts a text at a key.
pub(crate) fn put_text(
    alloc: Global,
    table: &mut Table,
    key: &str,
    text: &Text,
) -> Result<(), AllocError>
    ensures { OnOk result (table_view table.new ≡ with_member key.now (string text.now) (table_view table.old)) }
{
    let value = Value::string(alloc, text.as_str())?;
    put(alloc, table, key, value)
}

/// Puts a text at a key, where there is one.
pub(crate) fn put_text_if(
    alloc: Global,
    table: &mut Table,
    key: &str,
    text: &Option<Text>,
) -> Result<(), AllocError>
    ensures { OnOk result (HasTextIf key.now text.now (table_view table.old) (table_view table.new)) }
{
    match text {
        Some(text) => put_text(alloc, table, key, text),
        None => Ok(()),
    }
}
