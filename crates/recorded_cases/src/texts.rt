//! The texts of files, by the forms that they are written in.
//!
//! - No form: the text has the lines that follow.
//! - `escaped`: in those lines `\r` stands for a carriage return and `\xHH` for the byte HH, and a backslash at the end of a line says
//!   that no newline follows.
//! - `as GROUP/CASE/FILE`: the text of another file, which has lines of its own.
//! - `first N bytes of GROUP/CASE/FILE`: the front of one.
//!
//! A line `*** N lines as D before` stands for N lines, each of which is as the line D lines before it.
use crate::groups::{File, Group, file_at, malformed};
use std::alloc::Global;
use std::io;

/// The text of a file of some groups.
pub(crate) fn text_of(alloc: Global, groups: &[Group], file: &File) -> io::Result<Vec<u8>> {
    let form = file.form.as_str();
    if let Some(path) = form.strip_prefix("as ") {
        return other_text(alloc, groups, path);
    }
    let Some(front) = form.strip_prefix("first ") else {
        return own_text(alloc, file);
    };
    let Some((count, path)) = front.split_once(" bytes of ") else {
        return Err(malformed());
    };
    front_of(other_text(alloc, groups, path)?, count)
}

/// The text of the file at a path.
fn other_text(alloc: Global, groups: &[Group], path: &str) -> io::Result<Vec<u8>> {
    match file_at(groups, path) {
        Some(file) => own_text(alloc, file),
        None => Err(malformed()),
    }
}

/// The front of a text that has this number of bytes.
fn front_of(text: Vec<u8>, count: &str) -> io::Result<Vec<u8>> {
    match count.parse::<usize>() {
        Ok(count) if count <= text.len() => {
            let mut text = text;
            text.truncate(count);
            Ok(text)
        }
        _ => Err(malformed()),
    }
}

/// The text of a file that has lines of its own.
fn own_text(alloc: Global, file: &File) -> io::Result<Vec<u8>> {
    let lines = unfolded(alloc, file.lines.as_str())?;
    match file.form.as_str() {
        "" => Ok(lines.as_slice().concat(alloc)?.into_bytes()),
        "escaped" => unescaped(alloc, lines.as_slice()),
        _ => Err(malformed()),
    }
}

/// These lines, with those that a line `***` stands for in its place.
fn unfolded(alloc: Global, text: &str) -> io::Result<Vec<&str>> {
    let mut lines = Vec::new(alloc);
    for line in text.split_inclusive('\n') {
        match line.strip_prefix("*** ") {
            Some(copies) => add_copies(&mut lines, copies)?,
            None => lines.push(line)?,
        }
    }
    Ok(lines)
}

/// Adds the lines that the rest of a line `***` stands for.
fn add_copies<'a>(lines: &mut Vec<&'a str>, copies: &str) -> io::Result<()> {
    let Some((count, back)) = numbers_of(copies) else {
        return Err(malformed());
    };
    for _ in 0..count {
        let Some(line) = line_before(lines.as_slice(), back) else {
            return Err(malformed());
        };
        lines.push(line)?;
    }
    Ok(())
}

/// How many lines come, and how many lines before each is the one that it is as.
fn numbers_of(copies: &str) -> Option<(usize, usize)> {
    let (count, rest) = copies.split_once(" lines as ")?;
    let back = rest.strip_suffix(" before\n")?;
    Some((count.parse::<usize>().ok()?, back.parse::<usize>().ok()?))
}

/// The line that is this number of lines before the end.
fn line_before<'a>(lines: &[&'a str], back: usize) -> Option<&'a str> {
    let place = lines.len().checked_sub(back)?;
    lines.get(place).copied()
}

/// The text of escaped lines.
fn unescaped(alloc: Global, lines: &[&str]) -> io::Result<Vec<u8>> {
    let mut text = Vec::new(alloc);
    for line in lines {
        add_unescaped(&mut text, line)?;
    }
    Ok(text)
}

/// Adds an escaped line. Each of its pieces but the first one begins after a backslash.
fn add_unescaped(text: &mut Vec<u8>, line: &str) -> io::Result<()> {
    for (place, piece) in line.split('\\').enumerate() {
        let rest = if place == 0 {
            piece
        } else {
            add_escape(text, piece)?
        };
        text.extend_from_slice(rest.as_bytes())?;
    }
    Ok(())
}

/// Adds the byte of an escape, if it stands for one. What follows it.
fn add_escape<'a>(text: &mut Vec<u8>, piece: &'a str) -> io::Result<&'a str> {
    if piece == "\n" {
        return Ok("");
    }
    if let Some(rest) = piece.strip_prefix('r') {
        text.push(b'\r')?;
        return Ok(rest);
    }
    match hex_byte(piece) {
        Some((byte, rest)) => {
            text.push(byte)?;
            Ok(rest)
        }
        None => Err(malformed()),
    }
}

/// The byte of `xHH`, and what follows.
fn hex_byte(piece: &str) -> Option<(u8, &str)> {
    let code = piece.strip_prefix('x')?;
    let (digits, rest) = (code.get(..2)?, code.get(2..)?);
    Some((u8::from_str_radix(digits, 16).ok()?, rest))
}
