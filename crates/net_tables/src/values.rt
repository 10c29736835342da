//! What stands at the keys of a table. There is none where a key is absent or has another kind.
ghost use Rattle.std.specs.Prelude.{◌≡◌, option_map, option_copied, map};
ghost use Rattle.std.specs.List.{list_any};
ghost use Rattle.std.specs.Str.{bytes_eq};
ghost use Rattle.toml.specs.{Data.get_member, Data.as_array, View.view, View.table_view};
ghost use Rattle.net_tables.specs.Parts as parts;
ghost use Rattle.net_tables.specs.Table as spec;

use toml::{Table, Value};

/// The value at a key.
fn member<'a>(table: &'a Table, key: &str) -> Option<&'a Value>
    ensures { option_map (λ value. view value.now) result ≡ get_member key.now (table_view table.now) }
{
    table.get(key)
}

/// The whole number at a key.
#[tactic(auto, unfolding(crate::specs::Table::number_at))]
pub(crate) fn number_at(table: &Table, key: &str) -> Option<u32>
    ensures { result ≡ spec.number_at key.now (table_view table.now) }
{
    let number = member(table, key)?.as_integer()?;
    Some(field_of(number))
}

/// The number, or the greatest u32 where it is no u32.
fn field_of(number: i64) -> u32
    ensures { result ≡ spec.field_of number }
{
    if (0..=4_294_967_295).contains(&number) {
        number as u32
    } else {
        u32::MAX
    }
}

/// The whole number at a key that may be absent.
#[tactic(auto, unfolding(crate::specs::Table::optional_number_at))]
pub(crate) fn optional_number_at(table: &Table, key: &str) -> Option<Option<u32>>
    ensures { result ≡ spec.optional_number_at key.now (table_view table.now) }
{
    match member(table, key) {
        Some(value) => Some(Some(field_of(value.as_integer()?))),
        None => Some(None),
    }
}

/// The whole numbers at two keys.
#[tactic(auto, unfolding(crate::specs::Parts::numbers_at))]
pub(crate) fn numbers_at(table: &Table, first: &str, second: &str) -> Option<(u32, u32)>
    ensures { result ≡ parts.numbers_at first.now second.now (table_view table.now) }
{
    let a = number_at(table, first)?;
    let b = number_at(table, second)?;
    Some((a, b))
}

/// The whole numbers at two keys that may be absent.
#[tactic(auto, unfolding(crate::specs::Parts::optional_numbers_at))]
pub(crate) fn optional_numbers_at(
    table: &Table,
    first: &str,
    second: &str,
) -> Option<(Option<u32>, Option<u32>)>
    ensures { result ≡ parts.optional_numbers_at first.now second.now (table_view table.now) }
{
    let a = optional_number_at(table, first)?;
    let b = optional_number_at(table, second)?;
    Some((a, b))
}

/// The weight at a key; an absent one is 1, where the file need not be complete.
#[tactic(auto, unfolding(crate::specs::Table::weight_at))]
pub(crate) fn weight_at(table: &Table, key: &str, complete: bool) -> Option<u32>
    ensures { result ≡ spec.weight_at complete key.now (table_view table.now) }
{
    match member(table, key) {
        Some(value) => Some(field_of(value.as_integer()?)),
        None if complete => None,
        None => Some(1),
    }
}

/// The truth value at a key; an absent one is false, where the file need not be complete.
#[tactic(auto, unfolding(crate::specs::Table::flag_at))]
pub(crate) fn flag_at(table: &Table, key: &str, complete: bool) -> Option<bool>
    ensures { result ≡ spec.flag_at complete key.now (table_view table.now) }
{
    match member(table, key) {
        Some(value) => value.as_bool(),
        None if complete => None,
        None => Some(false),
    }
}

/// The text at a key.
#[tactic(auto, unfolding(crate::specs::Table::text_at))]
pub(crate) fn text_at<'a>(table: &'a Table, key: &str) -> Option<&'a str>
    ensures { option_copied result ≡ spec.text_at key.now (table_view table.now) }
{
    member(table, key)?.as_str()
}

/// The text at a key that may be absent.
#[tactic(auto, unfolding(crate::specs::Table::optional_text_at))]
pub(crate) fn optional_text_at<'a>(table: &'a Table, key: &str) -> Option<Option<&'a str>>
    ensures { option_map (λ text. option_copied text) result ≡ spec.optional_text_at key.now (table_view table.now) }
{
    match member(table, key) {
        Some(value) => Some(Some(value.as_str()?)),
        None => Some(None),
    }
}

/// The table at a key.
#[tactic(auto, unfolding(crate::specs::Table::table_at))]
pub(crate) fn table_at<'a>(table: &'a Table, key: &str) -> Option<&'a Table>
    ensures { option_map (λ found. table_view found.now) result ≡ spec.table_at key.now (table_view table.now) }
{
    member(table, key)?.as_table()
}

/// The elements of the array that the value is.
fn list_of(value: &Value) -> Option<&[Value]>
    ensures { option_map (λ values. map view values.now) result ≡ option_map spec.list_of (as_array (view value.now)) }
{
    let values = value.as_array()?;
    Some(values.as_slice())
}

/// The elements of the array at a key.
#[tactic(auto, unfolding(crate::specs::Table::list_at))]
pub(crate) fn list_at<'a>(table: &'a Table, key: &str) -> Option<&'a [Value]>
    ensures { option_map (λ values. map view values.now) result ≡ spec.list_at key.now (table_view table.now) }
{
    list_of(member(table, key)?)
}

/// The elements of the array at a key; an absent one is empty.
#[tactic(auto, unfolding(crate::specs::Table::optional_list_at))]
pub(crate) fn optional_list_at<'a>(table: &'a Table, key: &str) -> Option<&'a [Value]>
    ensures { option_map (λ values. map view values.now) result ≡ spec.optional_list_at key.now (table_view table.now) }
{
    match member(table, key) {
        Some(value) => list_of(value),
        None => Some(&[]),
    }
}

/// The elements of the array at a key that may be absent, where it is there.
#[tactic(auto, unfolding(crate::specs::Table::array_at))]
pub(crate) fn array_at<'a>(table: &'a Table, key: &str) -> Option<Option<&'a [Value]>>
    ensures { option_map (λ found. option_map (λ values. map view values.now) found) result
        ≡ spec.array_at key.now (table_view table.now) }
{
    match member(table, key) {
        Some(value) => Some(Some(list_of(value)?)),
        None => Some(None),
    }
}

/// The table, where it has no key beside these.
#[tactic(auto, unfolding(crate::specs::Table::only))]
pub(crate) fn only<'a>(table: &'a Table, keys: &[&str]) -> Option<&'a Table>
    ensures { option_map (λ table. table_view table.now) result
        ≡ spec.only (map (λ key. key.now) keys.now) (table_view table.now) }
{
    if has_only(table, keys) {
        Some(table)
    } else {
        None
    }
}

/// Whether each key of the table is one of these. It stops at the first that is not.
fn has_only(table: &Table, keys: &[&str]) -> bool
    ensures { result ≡ spec.has_only (map (λ key. key.now) keys.now) (table_view table.now) }
{
    table.keys().all(|key| is_one_of(key.as_str(), keys))
}

/// Whether the key is one of these.
fn is_one_of(key: &str, keys: &[&str]) -> bool
    ensures { result ≡ list_any (λ other. bytes_eq key.now other.now) keys.now }
{
    keys.iter().any(|other| key == *other)
}
