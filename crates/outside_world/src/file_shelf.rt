//! The shelf of the files that a runtime reaches.
ghost use Rattle.std.specs.Prelude.{◌≡◌, ◌≤◌, ℕ, List, [], ◌∷◌, ◌++◌, None, length, take, IfOk, OnOk, IfSome, IsErrOf};
ghost use Rattle.outside_world.specs.Shelf.{Continues};

use crate::shelf::{Shelf, ShelfFault};
use foundation::text::Text;
use std::alloc::Global;
use std::fs;
use std::io::Read;
use std::marker::Model;
use std::rt::Files;

/// How many bytes are asked for in one read.
const READ_SIZE: usize = 8192;

/// The files of a runtime, by path. It does not expose its contents. Contracts see it as the list of the names
/// whose fetch failed.
#[derive(Drop)]
pub struct FileShelf<F: Files> {
    files: F,
    failed: Vec<Text>,
}

impl<F: Files> Model for FileShelf<F> {
    ghost Value = { List (List ℕ) };

    ghost view = { λ shelf. shelf.failed.items };
}

impl<F: Files> FileShelf<F> {
    /// A shelf of these files, whose list of failed names is empty.
    pub fn new(alloc: Global, files: F) -> Self
        ensures { result ≡ [] }
    {
        FileShelf {
            files,
            failed: Vec::new(alloc),
        }
    }
}

impl<F: Files> Shelf for FileShelf<F> {
    ghost state = { λ names. record { files = None; failed = names } };

    /// As the trait says, the name being a path. `Failed` comes where the file can't be opened or a
    /// read fails, and the list then has the name more.
    fn fetch(&mut self, alloc: Global, name: &str, most: usize) -> Result<Vec<u8>, ShelfFault>
        ensures bound { IfOk result (λ bytes. length bytes.items ≤ most) }
        ensures continues { Continues self.old self.new }
        ensures ok { OnOk result (self.new ≡ self.old) }
        ensures no_memory { IsErrOf result ShelfFault.NoMemory → self.new ≡ self.old }
        ensures cause { IsErrOf result ShelfFault.Failed → self.new ≡ self.old ++ name.now ∷ [] }
    {
        // Memory for the name first, so that a failure can always be recorded.
        let failed_name = Text::from_string(String::from_str(alloc, name)?);
        self.failed.reserve(1)?;
        let fetched = read_file(alloc, &self.files, name, most);
        if let Err(ShelfFault::Failed) = fetched {
            self.failed.push_reserved(failed_name);
        }
        fetched
    }
}

// The first `most` bytes of the file at this path. `Failed` where it can't be opened or read.
fn read_file<F: Files>(
    alloc: Global,
    files: &F,
    path: &str,
    most: usize,
) -> Result<Vec<u8>, ShelfFault>
    ensures { IfOk result (λ bytes. length bytes.items ≤ most) }
{
    match fs::open(files, path) {
        Ok(mut file) => read_front(alloc, &mut file, most),
        Err(_) => Err(ShelfFault::Failed),
    }
}

// The first `most` bytes that are left to read, or all where there are fewer.
fn read_front<R: Read>(alloc: Global, source: &mut R, most: usize) -> Result<Vec<u8>, ShelfFault>
    ensures bound { IfOk result (λ bytes. length bytes.items ≤ most) }
    ensures text { IfOk result (λ bytes. IfSome (R.remaining source.old) (λ left. bytes.items ≡ take most left)) }
{
    let mut bytes = Vec::new(alloc);
    let mut buffer = [0; READ_SIZE];
    for _ in 0..u64::MAX {
        let wanted = (most - bytes.len()).min(READ_SIZE);
        if wanted == 0 {
            break;
        }
        match source.read(&mut buffer[..wanted]) {
            Ok(0) => break,
            Ok(count) => bytes.extend_from_slice(&buffer[..count])?,
            Err(_) => return Err(ShelfFault::Failed),
        }
    }
    // Each turn read a byte, so all that were asked for are there where the turns ended.
    Ok(bytes)
}
