//! Codes of faults of a network.
ghost use Rattle.std.specs.Prelude.{◌≡◌, ◌++◌, OnOk};
ghost use Rattle.net_parts.specs.Codes.{part_name, place_text};

use crate::{NetFault, Place, Section};
use std::alloc::AllocError;
use text_lines::{Fault, push_one, push_two};

impl Fault for NetFault {
    ghost use Rattle.std.specs.Prelude.{◌≢◌};
    ghost use Rattle.net_parts.specs.Codes.{net_code};
    ghost use Rattle.net_parts.specs.declared.faults.NetFault.TheVariants.{NoMemory};

    ghost code = { net_code };

    ghost is_of_text = { λ fault. fault ≢ NoMemory };

    fn push_code(self, line: &mut Vec<u8>) -> Result<(), AllocError> {
        match self {
            NetFault::NoMemory => Err(AllocError),
            NetFault::NotToml => line.extend_from_slice(b"toml"),
            NetFault::Shape(place) => push_place(line, b"shape ", place),
            NetFault::Bound(place) => push_place(line, b"bound ", place),
            NetFault::Twice(place) => push_place(line, b"twice ", place),
            NetFault::Unknown(place) => push_place(line, b"unknown ", place),
            NetFault::Ends(link) => push_one(line, b"ends ", u64::from(link) + 1),
            NetFault::Crowd(node) => push_one(line, b"crowd ", u64::from(node) + 1),
            NetFault::Shares(link) => push_one(line, b"shares ", u64::from(link) + 1),
            NetFault::Phaseless(link) => push_one(line, b"phaseless ", u64::from(link) + 1),
            NetFault::Also(link) => push_one(line, b"also ", u64::from(link) + 1),
            NetFault::Yields(link) => push_one(line, b"yields ", u64::from(link) + 1),
            NetFault::Walk(link) => push_one(line, b"walk ", u64::from(link) + 1),
            NetFault::Clash { a, b } => push_two(
                line,
                b"clash ",
                u64::from(a) + 1,
                u64::from(b) + 1,
            ),
        }
    }
}

// Appends a word and a place of a network's file.
fn push_place(line: &mut Vec<u8>, word: &[u8], place: Place) -> Result<(), AllocError>
    ensures { OnOk result (line.new.items ≡ line.old.items ++ (word.now ++ place_text place)) }
{
    line.extend_from_slice(word)?;
    line.extend_from_slice(part_name(place.part))?;
    push_two(line, b" ", u64::from(place.item), u64::from(place.sub))
}

// The name of a section of a network's file.
fn part_name(part: Section) -> &'static [u8]
    ensures { result.now ≡ part_name part }
{
    match part {
        Section::Top => b"top",
        Section::Run => b"run",
        Section::Node => b"node",
        Section::Phase => b"phase",
        Section::Link => b"link",
        Section::Turn => b"turn",
        Section::Conflict => b"conflict",
    }
}
