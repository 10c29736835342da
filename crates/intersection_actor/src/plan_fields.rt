//! The fields of a record that tells a plan.
ghost use Rattle.std.specs.Prelude.{◌≡◌, ◌==◌, ◌++◌, ◌<◌, [], ◌∷◌, All, IfOk, OnOk, if◌then◌else◌, length, map};
ghost use Rattle.std.specs.Fmt.{decimal};
ghost use Rattle.std.specs.List.{flat_map, join_with_byte};
ghost use Rattle.intersection_actor.specs.PlanFields as fields;

use crate::records::Used;
use road_net::Network;
use std::alloc::{AllocError, Global};
use text_lines::push_number;

// The capacity for a version in the text of a plan, in bytes: the name of a link and a number are seldom longer.
const CAPACITY_OF_A_VERSION: usize = 16;

/// The versions that a plan used, each after the name of its link and `=`, with a semicolon between each two. `Err`: out
/// of memory.
///
/// docs/FORMATS.md, "Report".
pub fn used_text(alloc: Global, net: &Network, used: &[Used]) -> Result<Vec<u8>, AllocError>
    requires { All (λ u. u.link < length net.now.link_names) used.now }
    ensures { IfOk result (λ text. text.items ≡ join_with_byte 59 (map (fields.used_text net.now) used.now)) }
{
    let mut text = Vec::with_capacity(alloc, used.len().saturating_mul(CAPACITY_OF_A_VERSION))?;
    for (place, version) in used.iter().enumerate() {
        push_semicolon(place, &mut text)?;
        push_version(net, *version, &mut text)?;
    }
    Ok(text)
}

/// Appends a semicolon to a text, unless the place is the first.
fn push_semicolon(place: usize, text: &mut Vec<u8>) -> Result<(), AllocError>
    ensures { OnOk result (text.new.items ≡ text.old.items ++ (if place == 0 then [] else 59 ∷ [])) }
{
    if place == 0 {
        return Ok(());
    }
    text.push(b';')?;
    Ok(())
}

/// Appends a version to a text.
fn push_version(net: &Network, used: Used, text: &mut Vec<u8>) -> Result<(), AllocError>
    requires { used.link < length net.now.link_names }
    ensures { OnOk result (text.new.items ≡ text.old.items ++ fields.used_text net.now used) }
{
    text.extend_from_slice(net.link_name(used.link).as_bytes())?;
    text.push(b'=')?;
    push_number(text, u64::from(used.version))
}

/// The digits of phases, one after another. `Err`: out of memory.
///
/// docs/FORMATS.md, "Report".
pub fn phase_digits(alloc: Global, phases: &[u8]) -> Result<Vec<u8>, AllocError>
    ensures { IfOk result (λ text. text.items ≡ flat_map decimal phases.now) }
{
    let mut text = Vec::with_capacity(alloc, phases.len())?;
    for phase in phases {
        push_number(&mut text, u64::from(*phase))?;
    }
    Ok(text)
}
