//! Writing an instance's text.

ghost use Rattle.std.specs.Prelude.{◌≡◌, ◌≤◌, [], ◌∷◌, ◌++◌, length, IfOk, OnOk};
ghost use Rattle.std.specs.List.{flat_map};
ghost use Rattle.instance_form.specs.InstanceText.{first_line, phase_line, freshness, head_line, cluster_line, cluster_lines, form_text, whole_text};
ghost use Rattle.instance_form.specs.Lines.{marked_end};

use crate::form::Version;
use crate::versions::version_of;
use foundation::items::Items;
use phase_plan::{Marks, Phase};
use std::alloc::{AllocError, Global};
use switch_rules::{Cluster, Head};
use text_lines::{Line, push_line, put_numbers};

/// The text of these phases, this head and the clusters of each phase, whatever their numbers, of which so many are
/// said to be marked. `Err`: out of memory.
///
/// docs/FORMATS.md, "Instance text".
#[tactic(auto, unfolding(crate::specs::InstanceText::form_text, crate::specs::InstanceText::whole_text))]
pub fn write_form(
    alloc: Global,
    marks: Marks,
    phases: &[Phase],
    head: &Head,
    lists: &[Items<Cluster>],
) -> Result<Vec<u8>, AllocError>
    ensures { IfOk result (λ text. text.items ≡ whole_text marks phases.now head.now lists.now) }
{
    let version = version_of(marks, phases, lists);
    let mut text = Vec::from_slice(alloc, first_line(version))?;
    push_line(&mut text, b"phases", &[phases.len() as u64])?;
    write_phases(&mut text, version, phases)?;
    write_head(&mut text, head)?;
    write_lists(&mut text, version, lists)?;
    text.extend_from_slice(b"end\n")?;
    Ok(text)
}

/// The line that says the version.
fn first_line(version: Version) -> &'static [u8]
    ensures { result.now ≡ first_line version }
{
    match version {
        Version::One => b"instance 1\n",
        Version::Two => b"instance 2\n",
        Version::Three => b"instance 3\n",
        Version::Four => b"instance 4\n",
        Version::Five => b"instance 5\n",
    }
}

/// Appends the lines of phases to a text.
fn write_phases(text: &mut Vec<u8>, version: Version, phases: &[Phase]) -> Result<(), AllocError>
    ensures { OnOk result (text.new.items ≡ text.old.items ++ flat_map (phase_line version) phases.now) }
{
    for phase in phases {
        write_phase(text, version, phase)?;
    }
    Ok(())
}

/// Appends the line of a phase to a text.
fn write_phase(text: &mut Vec<u8>, version: Version, phase: &Phase) -> Result<(), AllocError>
    ensures { OnOk result (text.new.items ≡ text.old.items ++ phase_line version phase.now) }
{
    let numbers = [
        u64::from(phase.least),
        u64::from(phase.greatest),
        u64::from(phase.yellow),
        u64::from(phase.clear),
        u64::from(phase.loss),
        u64::from(phase.wait),
    ];
    let mut line = Line::new();
    line.put_word(phase_end(version, phase.skip));
    put_numbers(&mut line, &numbers);
    line.put_word(b"phase");
    text.extend_from_slice(line.as_bytes())
}

/// What the line of a phase with this mark ends in.
fn phase_end(version: Version, skip: bool) -> &'static [u8]
    ensures value { result.now ≡ marked_end version skip }
    ensures short { length result.now ≤ 6 }
{
    match version {
        Version::One => b"\n",
        Version::Two | Version::Three | Version::Four | Version::Five => {
            if skip { b" skip\n" } else { b" ring\n" }
        }
    }
}

/// Appends the line of a head to a text.
fn write_head(text: &mut Vec<u8>, head: &Head) -> Result<(), AllocError>
    ensures { OnOk result (text.new.items ≡ text.old.items ++ head_line head.now) }
{
    let mut line = Line::new();
    line.put_word(head_end(head.fresh));
    line.put_spaced(u64::from(head.at));
    line.put_spaced(u64::from(head.since));
    line.put_spaced(u64::from(head.phase));
    line.put_word(b"head");
    text.extend_from_slice(line.as_bytes())
}

/// What the line of a head ends in.
fn head_end(fresh: bool) -> &'static [u8]
    ensures value { result.now ≡ 32 ∷ (freshness fresh ++ 10 ∷ []) }
    ensures short { length result.now ≤ 7 }
{
    if fresh { b" fresh\n" } else { b" kept\n" }
}

/// Appends the lines of the clusters of each phase to a text.
fn write_lists(
    text: &mut Vec<u8>,
    version: Version,
    lists: &[Items<Cluster>],
) -> Result<(), AllocError>
    ensures { OnOk result (text.new.items ≡ text.old.items ++ cluster_lines version 0 lists.now) }
{
    for (phase, list) in lists.iter().enumerate() {
        write_list(text, version, phase as u64, list.as_slice())?;
    }
    Ok(())
}

/// Appends the lines of the clusters of this phase to a text.
fn write_list(
    text: &mut Vec<u8>,
    version: Version,
    phase: u64,
    list: &[Cluster],
) -> Result<(), AllocError>
    ensures { OnOk result (text.new.items ≡ text.old.items ++ flat_map (cluster_line version phase) list.now) }
{
    for cluster in list {
        write_cluster(text, version, phase, cluster)?;
    }
    Ok(())
}

/// Appends the line of a cluster of this phase to a text.
fn write_cluster(
    text: &mut Vec<u8>,
    version: Version,
    phase: u64,
    cluster: &Cluster,
) -> Result<(), AllocError>
    ensures { OnOk result (text.new.items ≡ text.old.items ++ cluster_line version phase cluster.now) }
{
    let size = u64::from(cluster.size);
    let load = u64::from(cluster.load);
    let arr = u64::from(cluster.arr);
    let len = u64::from(cluster.len);
    match version {
        Version::One | Version::Two => push_line(text, b"cluster", &[phase, size, arr, len]),
        Version::Three | Version::Four | Version::Five => push_line(
            text,
            b"cluster",
            &[phase, size, load, arr, len],
        ),
    }
}
