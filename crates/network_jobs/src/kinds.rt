//! The file of a history, and what it is read as.
use commands::{Flaw, TextKind};
use delay_report::read_history;
use histories::History;
use road_net::Network;
use std::alloc::Global;

/// The file of a history.
///
/// docs/FORMATS.md, "Words".
#[derive(Debug, Clone, Copy, PartialEq, Eq)]
pub struct HistoryFile;

impl TextKind for HistoryFile {
    ghost use Rattle.histories.specs.Histories.{IsLawful};
    ghost use Rattle.network_jobs.specs.Kinds.{HistoryText};

    type Value = History;

    type Over = Network;

    ghost kind = { HistoryText };

    ghost said = { λ net history. history };

    ghost keeps = { IsLawful };

    fn read(alloc: Global, text: &[u8], net: &Network) -> Result<History, Flaw> {
        match read_history(alloc, text, net) {
            Ok(value) => Ok(value),
            Err(fault) => Err(Flaw::from_fault(alloc, fault)),
        }
    }
}
