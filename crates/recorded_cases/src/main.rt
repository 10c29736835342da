//! Recorded cases: each is done by `signal` in this process, over files and sinks in memory, and what it answers is compared with
//! the answer that the case has. The cases are those of the files `GROUP.cases` of the folder that the program runs in, each as `Case`
//! says. Those of the group `each_command` are done as well with each of their calls of the shelf and the sinks failing in turn. A case
//! that is answered otherwise, or ends otherwise than it has to where a call fails, is named with what differs. The last line is
//! `N cases and R runs with a call that fails, all equal`, or `N cases, K differ`, and the exit status 0 or 1; it is 2 where the cases
//! cannot be read.
#![tactic(auto)]

mod calls;
mod cases;
mod counted;
mod differences;
mod failing;
mod groups;
mod texts;

use differences::difference;
use failing::{Runs, run_failing};
use groups::{Group, Recorded, group_name, malformed, read_group};
use std::alloc::{AllocError, Global};
use std::process::ExitCode;
use std::sync::Wait;
use std::thread::Threads;
use std::{fs, io};

/// The group of the cases that are done with calls that fail as well.
const FAILING: &str = "each_command";

/// How many cases there are, how many were answered otherwise, and the lines that name them; and how many runs there were in which
/// calls fail.
#[derive(Drop)]
struct Done {
    cases: u64,
    differing: u64,
    lines: String,
    failing: u64,
}

fn main(rt: HostRuntime) -> io::Result<ExitCode> {
    match read_groups(&rt) {
        Ok(groups) => conclude(&rt, &do_all(&rt, rt.alloc(), groups.as_slice())?),
        Err(fault) => {
            println!(&rt; "cannot read the cases: {fault}")?;
            Ok(ExitCode::from(2))
        }
    }
}

/// Prints the lines, and the last line. The exit status.
fn conclude(rt: &HostRuntime, done: &Done) -> io::Result<ExitCode> {
    let Done {
        cases,
        differing,
        lines,
        failing,
    } = done;
    if *differing == 0 {
        println!(rt; "{cases} cases and {failing} runs with a call that fails, all equal")?;
        return Ok(ExitCode::from(0));
    }
    println!(rt; "{lines}{cases} cases, {differing} differ")?;
    Ok(ExitCode::from(1))
}

/// The names of the groups that there are, in their order.
fn group_names(rt: &HostRuntime) -> io::Result<Vec<String>> {
    let mut names = Vec::new(rt.alloc());
    for entry in fs::read_dir(rt, ".")? {
        let entry = entry?;
        if let Some(name) = group_name(entry.file_name()) {
            names.push(String::from_str(rt.alloc(), name)?)?;
        }
    }
    names.sort_unstable();
    Ok(names)
}

/// The groups.
fn read_groups(rt: &HostRuntime) -> io::Result<Vec<Group>> {
    let mut groups = Vec::new(rt.alloc());
    for name in group_names(rt)? {
        let path = format!(in rt.alloc(); "{name}.cases")?;
        let Ok(text) = String::from_utf8(fs::read(rt, path.as_str())?) else {
            return Err(malformed());
        };
        groups.push(read_group(rt.alloc(), name, text.as_str())?)?;
    }
    Ok(groups)
}

/// Does the cases of these groups.
fn do_all<R: AllocGlobal + Threads + Wait + Sync>(
    rt: &R,
    alloc: Global,
    groups: &[Group],
) -> Result<Done, AllocError> {
    let mut done = Done {
        cases: 0,
        differing: 0,
        lines: String::new(alloc),
        failing: 0,
    };
    for group in groups {
        do_group(rt, alloc, groups, group, &mut done)?;
    }
    Ok(done)
}

/// Does the cases of one of these groups.
fn do_group<R: AllocGlobal + Threads + Wait + Sync>(
    rt: &R,
    alloc: Global,
    groups: &[Group],
    group: &Group,
    done: &mut Done,
) -> Result<(), AllocError> {
    let fails = group.name.as_str() == FAILING;
    for case in &group.cases {
        let found = match found_in(rt, alloc, groups, case, fails, &mut done.failing) {
            Ok(found) => found,
            Err(fault) => format!(in alloc; "cannot be read: {fault}")?,
        };
        add_line(group, case, found.as_str(), done)?;
    }
    Ok(())
}

/// What differs in a case, and where calls fail if they have to fail as well; nothing where it ends as it has to. Counts the runs with
/// such calls.
fn found_in<R: AllocGlobal + Threads + Wait + Sync>(
    rt: &R,
    alloc: Global,
    groups: &[Group],
    case: &Recorded,
    fails: bool,
    failing: &mut u64,
) -> io::Result<String> {
    let found = difference(rt, alloc, groups, case)?;
    if !found.is_empty() || !fails {
        return Ok(found);
    }
    let Runs { count, text } = run_failing(rt, alloc, groups, case)?;
    *failing = failing.saturating_add(count);
    Ok(text)
}

/// Counts a case, and adds what differs in it, if anything does.
fn add_line(
    group: &Group,
    case: &Recorded,
    found: &str,
    done: &mut Done,
) -> Result<(), AllocError> {
    done.cases = done.cases.saturating_add(1);
    if !found.is_empty() {
        let (group, case) = (group.name.as_str(), case.name.as_str());
        done.differing = done.differing.saturating_add(1);
        write!(done.lines, "{group}/{case}: {found}\n")?;
    }
    Ok(())
}
