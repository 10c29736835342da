//! The file of a report, and what it is read as.
use audit::{Sheet, read_sheet};
use commands::{Flaw, TextKind};
use road_net::Network;
use std::alloc::Global;

/// The file of a report, which says a sheet.
///
/// docs/FORMATS.md, "Words".
#[derive(Debug, Clone, Copy, PartialEq, Eq)]
pub struct SheetFile;

impl TextKind for SheetFile {
    ghost use Rattle.std.specs.Prelude.{◌<◌, ◌^◌, All, length};
    ghost use Rattle.audit.specs.SheetTexts.{HasShape};
    ghost use Rattle.audit_jobs.specs.Kinds.{SheetText};

    type Value = Sheet;

    type Over = Network;

    ghost kind = { SheetText };

    ghost said = { λ net sheet. sheet };

    ghost keeps = { λ net sheet. HasShape net sheet × All (λ rows. length rows < 2 ^ 32) sheet.lines };

    fn read(alloc: Global, text: &[u8], net: &Network) -> Result<Sheet, Flaw> {
        match read_sheet(alloc, text, net) {
            Ok(value) => Ok(value),
            Err(fault) => Err(Flaw::from_fault(alloc, fault)),
        }
    }
}
