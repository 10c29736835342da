//! A list inside public types.

ghost use Rattle.std.specs.Prelude.{◌≡◌, ◌≢◌, ◌<◌, ◌++◌, ◌∷◌, [], ℕ, OnOk, length, slice_index_or};

use std::alloc::{AllocError, Global};
use std::marker::Model;
use std::mem;

/// A list inside a public struct, enum or answer. Contracts see it as the list of its elements.
///
/// It is made from a `Vec` and gives the `Vec` back, and neither takes memory.
#[derive(Drop)]
pub struct Items<T> {
    items: Vec<T>,
}

impl<T> Model for Items<T> {
    ghost use Rattle.std.specs.Prelude.{List};

    ghost Value = { List T };

    ghost view = { λ list. list.items.items };
}

impl<T> Items<T> {
    /// The list of the elements of `items`.
    pub fn from_vec(items: Vec<T>) -> Self
        ensures { result ≡ items.items }
    {
        Items { items }
    }

    /// The elements, as a `Vec` again.
    pub fn into_vec(self) -> Vec<T>
        ensures { result.items ≡ self }
    {
        let Items { items } = self;
        items
    }

    /// The elements, lent.
    pub fn as_slice(&self) -> &[T]
        ensures { result.now ≡ self.now }
    {
        self.items.as_slice()
    }

    /// How many elements there are.
    pub fn len(&self) -> usize
        ensures { result ≡ length self.now }
    {
        self.items.len()
    }
}

/// Appends an element to the list in this place. `Err`: out of memory; the list in this place is then lost.
pub fn push_item<T: Drop>(
    alloc: Global,
    lists: &mut Vec<Items<T>>,
    place: usize,
    element: T,
) -> Result<(), AllocError>
    requires { place < length lists.old.items }
    ensures count { OnOk result (length lists.new.items ≡ length lists.old.items) }
    ensures here { OnOk result
        (slice_index_or lists.new.items place [] ≡ slice_index_or lists.old.items place [] ++ element ∷ []) }
    ensures others { OnOk result ((k : ℕ) → k ≢ place
        → slice_index_or lists.new.items k [] ≡ slice_index_or lists.old.items k []) }
{
    let list = mem::replace(&mut lists[place], Items::from_vec(Vec::new(alloc)));
    let mut elements = list.into_vec();
    elements.push(element)?;
    lists[place] = Items::from_vec(elements);
    Ok(())
}
