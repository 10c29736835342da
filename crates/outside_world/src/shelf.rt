//! A shelf: files by name, and the names whose fetch failed.
ghost use Rattle.std.specs.Prelude.{◌≡◌, ◌≤◌, Some, length, IfOk, OnOk, IfSome, IsErrOf};
ghost use Rattle.outside_world.specs.declared.shelf.ShelfFault.TheVariants.{NoMemory};
ghost use Rattle.outside_world.specs.Shelf.{ShelfState, front_of, Continues, GainsLast};

use std::alloc::{AllocError, Global};

/// Why a fetch gave no bytes.
#[derive(Debug, Clone, Copy, PartialEq, Eq)]
pub enum ShelfFault {
    /// The file is absent or can't be read. The shelf's list of failed names has the name.
    Failed,
    /// Memory ran out.
    NoMemory,
}

impl From<AllocError> for ShelfFault {
    ghost from_gives = { λ _ fault. fault ≡ NoMemory };

    fn from(_: AllocError) -> Self {
        ShelfFault::NoMemory
    }
}

/// Files by name.
pub trait Shelf {
    /// The shelf as contracts see it: its files, each a name and a content, where it exposes them, and the names whose
    /// fetch failed, the oldest first. Of two files with one name the first counts.
    ghost state: { Self → ShelfState };

    /// The first `most` bytes of the file with this name, or all where it has fewer.
    ///
    /// `Failed` comes only where the shelf's list of failed names grew in this call, and this name is then its last.
    /// `NoMemory` comes where memory runs out. The files stay as they are.
    fn fetch(&mut self, alloc: Global, name: &str, most: usize) -> Result<Vec<u8>, ShelfFault>
        ensures bound { IfOk result (λ bytes. length bytes.items ≤ most) }
        ensures text { IfOk result (λ bytes.
            IfSome (state self.old).files (λ known. front_of known name.now most ≡ Some bytes.items)) }

        ensures ok { OnOk result (state self.new ≡ state self.old) }
        ensures no_memory { IsErrOf result ShelfFault.NoMemory → state self.new ≡ state self.old }
        ensures cause { IsErrOf result ShelfFault.Failed
            → GainsLast (state self.old).failed (state self.new).failed name.now }
        ensures files { (state self.new).files ≡ (state self.old).files }
        ensures continues { Continues (state self.old).failed (state self.new).failed };
}
