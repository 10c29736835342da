//! Groups of cases, as their files have them.
//!
//! A group is a file `GROUP.cases`. In it a line `=== NAME` begins a case, and a line `--- FILE FORM` a file of that case, whose lines
//! follow. What the forms are is in `texts.rt`.
use std::alloc::{AllocError, Global};
use std::io::{self, ErrorKind};

/// The end of the name of a file of cases.
const ENDING: &str = ".cases";

/// A file of a case: its name, its form, and its lines as they stand.
#[derive(Drop)]
pub(crate) struct File {
    pub(crate) name: String,
    pub(crate) form: String,
    pub(crate) lines: String,
}

/// A case: its name and its files.
#[derive(Drop)]
pub(crate) struct Recorded {
    pub(crate) name: String,
    pub(crate) files: Vec<File>,
}

/// A group: its name and its cases.
#[derive(Drop)]
pub(crate) struct Group {
    pub(crate) name: String,
    pub(crate) cases: Vec<Recorded>,
}

/// The fault of a text that has no such form.
pub(crate) fn malformed() -> io::Error {
    io::Error::from(ErrorKind::InvalidData)
}

/// The name of the group of a file, if it is one.
pub(crate) fn group_name(file: &str) -> Option<&str> {
    file.strip_suffix(ENDING)
}

/// The group of this name whose file has this text.
pub(crate) fn read_group(alloc: Global, name: String, text: &str) -> io::Result<Group> {
    let mut cases = Vec::new(alloc);
    for line in text.split_inclusive('\n') {
        add_line(alloc, &mut cases, line)?;
    }
    Ok(Group { name, cases })
}

/// Adds a line of a group's file to its cases.
fn add_line(alloc: Global, cases: &mut Vec<Recorded>, line: &str) -> io::Result<()> {
    if let Some(name) = line.strip_prefix("=== ") {
        return Ok(cases.push(begin_case(alloc, name)?)?);
    }
    let Some(case) = cases.last_mut() else {
        return Err(malformed());
    };
    if let Some(head) = line.strip_prefix("--- ") {
        return Ok(case.files.push(begin_file(alloc, head)?)?);
    }
    match case.files.last_mut() {
        Some(file) => Ok(file.lines.push_str(line)?),
        None => Err(malformed()),
    }
}

/// The case that a line begins, without files.
fn begin_case(alloc: Global, name: &str) -> Result<Recorded, AllocError> {
    Ok(Recorded {
        name: String::from_str(alloc, without_newline(name))?,
        files: Vec::new(alloc),
    })
}

/// The file that a line begins, without lines. Its form is what follows its name after a space.
fn begin_file(alloc: Global, head: &str) -> Result<File, AllocError> {
    let head = without_newline(head);
    let (name, form) = head.split_once(' ').unwrap_or((head, ""));
    Ok(File {
        name: String::from_str(alloc, name)?,
        form: String::from_str(alloc, form)?,
        lines: String::new(alloc),
    })
}

/// A line without the newline at its end.
fn without_newline(line: &str) -> &str {
    line.strip_suffix('\n').unwrap_or(line)
}

/// The file of a path GROUP/CASE/FILE.
pub(crate) fn file_at<'a>(groups: &'a [Group], path: &str) -> Option<&'a File> {
    let (group, path) = path.split_once('/')?;
    let (case, file) = path.split_once('/')?;
    file_of(files_of(cases_of(groups, group)?, case)?, file)
}

/// The cases of the group of this name.
fn cases_of<'a>(groups: &'a [Group], name: &str) -> Option<&'a [Recorded]> {
    for group in groups {
        if group.name.as_str() == name {
            return Some(group.cases.as_slice());
        }
    }
    None
}

/// The files of the case of this name.
fn files_of<'a>(cases: &'a [Recorded], name: &str) -> Option<&'a [File]> {
    for case in cases {
        if case.name.as_str() == name {
            return Some(case.files.as_slice());
        }
    }
    None
}

/// The file of this name.
fn file_of<'a>(files: &'a [File], name: &str) -> Option<&'a File> {
    for file in files {
        if file.name.as_str() == name {
            return Some(file);
        }
    }
    None
}
