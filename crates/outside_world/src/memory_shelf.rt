//! A shelf in memory, which fails at the calls that it is given.
ghost use Rattle.std.specs.Prelude.{◌≡◌, ◌≤◌, ◌↔◌, [], ◌∷◌, ◌++◌, Some, length, take, Contains, IsTrue, IfOk, OnOk, OnErr, IsErrOf};
ghost use Rattle.std.specs.Option.{option_map};
ghost use Rattle.outside_world.specs.Shelf.{file_of, front_of, Continues};
ghost use Rattle.outside_world.specs.MemoryShelf.{ShelfInMemory, FailsAt, shelf_seen};
ghost use Rattle.outside_world.specs.Sink.{one_more};

use crate::shelf::{Shelf, ShelfFault};
use foundation::items::Items;
use foundation::text::Text;
use std::alloc::{AllocError, Global};
use std::marker::Model;

/// Files in memory, for tests. Contracts see the files, the numbers of the calls that fail, how many
/// calls there were, and the names whose fetch failed.
#[derive(Drop)]
pub struct MemoryShelf {
    files: Vec<(Text, Items<u8>)>,
    fails: Vec<u32>,
    calls: u64,
    failed: Vec<Text>,
}

impl Model for MemoryShelf {
    ghost Value = { ShelfInMemory };

    ghost view = { λ shelf. record {
      files = shelf.files.items;
      fails = shelf.fails.items;
      calls = shelf.calls;
      failed = shelf.failed.items;
    } };
}

impl MemoryShelf {
    /// A shelf with these files, each a name and a content. The calls of `fetch` that `fails` names
    /// will fail, the first call being 1.
    pub fn new(alloc: Global, files: Vec<(Text, Items<u8>)>, fails: Vec<u32>) -> Self
        ensures { result ≡ record { files = files.items; fails = fails.items; calls = 0; failed = [] } }
    {
        MemoryShelf {
            files,
            fails,
            calls: 0,
            failed: Vec::new(alloc),
        }
    }

    // The fault of a fetch that fails: the name joins the list of failed names, where there is memory.
    fn fail(&mut self, alloc: Global, name: &str) -> ShelfFault
        ensures same { self.new ≡ record self.old { failed = self.new.failed } }
        ensures continues { Continues self.old.failed self.new.failed }
        ensures failed { result ≡ ShelfFault.Failed → self.new.failed ≡ self.old.failed ++ name.now ∷ [] }
        ensures no_memory { result ≡ ShelfFault.NoMemory → self.new.failed ≡ self.old.failed }
    {
        match add_name(alloc, &mut self.failed, name) {
            Ok(()) => ShelfFault::Failed,
            Err(AllocError) => ShelfFault::NoMemory,
        }
    }
}

impl Shelf for MemoryShelf {
    ghost state = { λ shelf. shelf_seen shelf };

    /// As the trait says. Besides, it fails exactly where this call is one of those that were named
    /// to fail or the name is absent, as far as there is memory.
    fn fetch(&mut self, alloc: Global, name: &str, most: usize) -> Result<Vec<u8>, ShelfFault>
        ensures files { self.new.files ≡ self.old.files }
        ensures fails { self.new.fails ≡ self.old.fails }
        ensures calls { self.new.calls ≡ one_more self.old.calls }

        ensures bound { IfOk result (λ bytes. length bytes.items ≤ most) }
        ensures text { IfOk result (λ bytes. front_of self.old.files name.now most ≡ Some bytes.items) }

        ensures failed { IsErrOf result ShelfFault.Failed → FailsAt self.old self.new.calls name.now }
        ensures not_failed { OnOk result (¬ FailsAt self.old self.new.calls name.now) }

        ensures continues { Continues self.old.failed self.new.failed }
        ensures ok { OnOk result (self.new.failed ≡ self.old.failed) }
        ensures no_memory { IsErrOf result ShelfFault.NoMemory → self.new.failed ≡ self.old.failed }
        ensures cause { IsErrOf result ShelfFault.Failed → self.new.failed ≡ self.old.failed ++ name.now ∷ [] }
    {
        self.calls = self.calls.saturating_add(1);
        if is_named(&self.fails, self.calls) {
            return Err(self.fail(alloc, name));
        }
        match content(&self.files, name) {
            Some(content) => Ok(front(content, most).to_vec(alloc)?),
            None => Err(self.fail(alloc, name)),
        }
    }
}

// Adds a name to a list of names.
fn add_name(alloc: Global, names: &mut Vec<Text>, name: &str) -> Result<(), AllocError>
    ensures ok { OnOk result (names.new.items ≡ names.old.items ++ name.now ∷ []) }
    ensures refused { OnErr result (names.new.items ≡ names.old.items) }
{
    names.push(Text::from_string(String::from_str(alloc, name)?))?;
    Ok(())
}

// Whether the call of this number is one of those named.
fn is_named(fails: &[u32], call: u64) -> bool
    ensures { IsTrue result ↔ Contains fails.now call }
{
    fails.iter().any(|&fail| u64::from(fail) == call)
}

// The content of the file with this name.
fn content<'a>(files: &'a [(Text, Items<u8>)], name: &str) -> Option<&'a [u8]>
    ensures { option_map (λ bytes. bytes.now) result ≡ file_of files.now name.now }
{
    files
        .iter()
        .find(|file| file.0.as_str() == name)
        .map(|file| file.1.as_slice())
}

// The first `most` bytes.
fn front(bytes: &[u8], most: usize) -> &[u8]
    ensures { result.now ≡ take most bytes.now }
{
    &bytes[..most.min(bytes.len())]
}
