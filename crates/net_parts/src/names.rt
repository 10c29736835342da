//! Names and their numbers.
use indexmap::IndexSet;
use std::alloc::{AllocError, Global};
use std::marker::Model;

/// Names, numbered from 0 in the order in which they were added, and found by hash. Contracts see it as
/// the list of the names.
///
/// docs/RULES.md, "Road network".
#[derive(Drop)]
pub struct Names {
    set: IndexSet<String>,
}

impl Model for Names {
    ghost use Rattle.std.specs.Prelude.{ℕ, ◌<◌, ◌^◌, List, map, length, string_bytes};

    ghost Value = { List (List ℕ) };

    ghost view = { λ names. map string_bytes names.set.keys };

    ghost invariant = { λ names. length names.set.keys < 2 ^ 32 };
}

impl Names {
    ghost use Rattle.std.specs.Prelude.{◌≡◌, ◌<◌, ◌+◌, ◌^◌, [], ◌∷◌, ◌++◌, IfOk, OnErr, is_none, if◌then◌else◌, length, slice_index_or};
    ghost use Rattle.net_parts.specs.Numbers.{number_of};

    /// No names.
    ///
    /// docs/RULES.md, "Road network".
    pub fn new(alloc: Global) -> Names
        ensures { result ≡ [] }
    {
        Names {
            set: IndexSet::new(alloc),
        }
    }

    /// How many names there are.
    ///
    /// docs/RULES.md, "Road network".
    pub fn len(&self) -> u32
        ensures { result ≡ length self.now }
    {
        self.set.len() as u32
    }

    /// The name with this number.
    ///
    /// docs/RULES.md, "Road network".
    pub fn name(&self, number: u32) -> &str
        requires { number < length self.now }
        ensures { result.now ≡ slice_index_or self.now number [] }
    {
        self.set.as_slice()[number as usize].as_str()
    }

    /// The number of a name; none where it is not among these.
    ///
    /// docs/RULES.md, "Road network".
    pub fn find(&self, name: &str) -> Option<u32>
        ensures { result ≡ number_of self.now name.now }
    {
        match self.set.get_index_of(name) {
            Some(number) => Some(number as u32),
            None => None,
        }
    }

    /// Adds a name at the end; `false` where it is there already. `Err`: out of
    /// memory; the names stay as they were.
    ///
    /// docs/RULES.md, "Road network".
    pub fn add(&mut self, alloc: Global, name: &str) -> Result<bool, AllocError>
        requires { length self.old + 1 < 2 ^ 32 }
        ensures names { IfOk result (λ added. self.new ≡ (if added then self.old ++ name.now ∷ [] else self.old)) }
        ensures added { IfOk result (λ added. added ≡ is_none (number_of self.old name.now)) }
        ensures refused { OnErr result (self.new ≡ self.old) }
    {
        let name = String::from_str(alloc, name)?;
        Ok(self.set.insert(name)?)
    }
}
