//! The texts of a command, fetched from the shelf and read.
ghost use Rattle.std.specs.Prelude.{◌≡◌, IfOk, IfErr, OnOk};
ghost use Rattle.commands.specs.{Stops.IsLong, Stops.StopsAt, Texts.IsIn};

use super::refusals::{Refusal, TextPlace};
use outside_world::{Shelf, ShelfFault};
use std::alloc::{AllocError, Global};
use text_lines::Fault;

/// The greatest length of a text, in bytes.
///
/// docs/FORMATS.md, "Numbers and lines".
pub const MOST_BYTES: usize = 100_663_296;

/// Why a text is read as nothing.
///
/// docs/FORMATS.md, "Codes of a bad text".
#[derive(Debug, Drop)]
pub enum Flaw {
    /// It is none of its kind, and this is the code of what is wrong with it.
    Bad(Vec<u8>),
    /// Memory ran out.
    NoMemory,
}

impl Flaw {
    ghost use Rattle.std.specs.Prelude.{◌≡◌};
    ghost use Rattle.commands.specs.Flaws.{IsFlawOf, refusal_of};

    /// The flaw of a text in which its reader found this fault: `Bad` with its code, or `NoMemory` where memory ran out, here or as the
    /// fault says.
    ///
    /// docs/FORMATS.md, "Codes of a bad text".
    pub fn from_fault<F: Fault>(alloc: Global, fault: F) -> Flaw
        ensures { IsFlawOf F.code F.is_of_text fault result }
    {
        let mut code = Vec::new(alloc);
        match fault.push_code(&mut code) {
            Ok(()) => Flaw::Bad(code),
            Err(AllocError) => Flaw::NoMemory,
        }
    }

    /// The refusal of the text at this place, which has this flaw.
    ///
    /// docs/FORMATS.md, "Exit statuses and lines of refusal".
    pub fn into_refusal(self, text: TextPlace) -> Refusal
        ensures { result ≡ refusal_of text self }
    {
        match self {
            Flaw::Bad(code) => Refusal::Bad { text, code },
            Flaw::NoMemory => Refusal::NoMemory,
        }
    }
}

/// A kind of texts, and what is read of them.
///
/// docs/FORMATS.md, "Words".
pub trait TextKind {
    ghost use Rattle.std.specs.Prelude.{◌≤◌, IfErr, IfOk, length};
    ghost use Rattle.commands.specs.{Flaws.IsFlaw, Kinds.Kind, Limits.most_bytes, Texts.IsReadAs};

    /// What is read of a text.
    type Value: Drop;

    /// What the text is read over: the network of a text before it, or nothing.
    type Over;

    /// What the text is to be.
    ghost kind: { Self.Over → Kind };

    /// What a text says of which this is read.
    ghost said: { (over : Self.Over) → Self.Value → (kind over).Said };

    /// What else is so of what is read.
    ghost keeps: { Self.Over → Self.Value → Type 0 } = { λ over value. Unit {0} };

    /// What a text within the limit says.
    ///
    /// `Err`: `Bad` where the text is none of its kind, `NoMemory` where memory runs out.
    fn read(alloc: Global, text: &[u8], over: &Self::Over) -> Result<Self::Value, Flaw>
        requires { length text.now ≤ most_bytes }
        ensures ok { IfOk result (λ value. IsReadAs (kind over.now) text.now (said over.now value)) }
        ensures keeps { IfOk result (keeps over.now) }
        ensures refused { IfErr result (IsFlaw (kind over.now) text.now) };
}

/// What the text at this place says. What it is read over is the network of a text before it, or `()`.
///
/// `Err`: `Unread` where the shelf fails, `Bad` where the text is too long or is none of its kind, `NoMemory` where memory runs out.
///
/// docs/FORMATS.md, "Words".
pub fn fetch<K: TextKind, S: Shelf>(
    alloc: Global,
    shelf: &mut S,
    place: TextPlace,
    file: &str,
    over: &K::Over,
) -> Result<K::Value, Refusal>
    ensures text { IfOk result (λ value.
        IsIn (S.state shelf.old).files file.now (K.kind over.now) (K.said over.now value)) }
    ensures keeps { IfOk result (K.keeps over.now) }
    ensures ok { OnOk result (S.state shelf.new ≡ S.state shelf.old) }
    ensures refused { IfErr result (λ why. StopsAt why place (K.kind over.now) file.now (S.state shelf.old)
        (S.state shelf.new)) }
{
    let text = match shelf.fetch(alloc, file, MOST_BYTES + 1) {
        Ok(text) => text,
        Err(ShelfFault::Failed) => return Err(Refusal::Unread { text: place }),
        Err(ShelfFault::NoMemory) => return Err(Refusal::NoMemory),
    };
    if text.len() > MOST_BYTES {
        return Err(too_long(alloc, place));
    }
    match K::read(alloc, &text, over) {
        Ok(value) => Ok(value),
        Err(Flaw::Bad(code)) => Err(Refusal::Bad { text: place, code }),
        Err(Flaw::NoMemory) => Err(Refusal::NoMemory),
    }
}

/// The refusal of the text at this place, which is longer than the limit; or `NoMemory` where there is no memory to say so.
///
/// docs/FORMATS.md, "Codes of a bad text".
pub fn too_long(alloc: Global, place: TextPlace) -> Refusal
    ensures { IsLong place result }
{
    match Vec::from_slice(alloc, b"long") {
        Ok(code) => Refusal::Bad { text: place, code },
        Err(AllocError) => Refusal::NoMemory,
    }
}
