//! Cases, as the groups have them.
use crate::groups::{File, Group, Recorded, malformed};
use crate::texts::text_of;
use foundation::items::Items;
use foundation::text::Text;
use hex::encode;
use sha2::{Digest, Sha256};
use std::alloc::{AllocError, Global};
use std::io;

/// A case: the words and files that the program is given, and the answer that is wanted of it.
///
/// Of its files `words` has the words, one a line, `status` the exit status, and `stdout` and `stderr` have the bytes that are written;
/// where one of these two is absent, nothing is. A file `replays` stands for an answer that is not fixed: it has the words of a second
/// call, which has to write once more what the first wrote, and whose last word names that text. A file `note` is for the reader. All
/// other files are the program's, of which `stdin` is what it reads from standard input.
#[derive(Drop)]
pub(crate) struct Case {
    pub(crate) words: Vec<Text>,
    pub(crate) files: Vec<(Text, Items<u8>)>,
    pub(crate) status: String,
    pub(crate) out: Wanted,
    pub(crate) err: Vec<u8>,
    pub(crate) replays: Vec<Text>,
}

/// What has to be written to `out`.
#[derive(Drop)]
pub(crate) enum Wanted {
    /// These bytes.
    Bytes(Vec<u8>),
    /// Bytes with this length and SHA-256, as `N bytes, sha256 HEX` says them.
    Sum(String),
}

/// The length and the SHA-256 of some bytes, as `Wanted` says them.
pub(crate) fn sum_of(alloc: Global, bytes: &[u8]) -> Result<String, AllocError> {
    let (length, digest) = (
        bytes.len(),
        encode(alloc, Sha256::digest(bytes).as_slice())?,
    );
    format!(in alloc; "{length} bytes, sha256 {digest}")
}

/// The case that some groups have.
pub(crate) fn read_case(alloc: Global, groups: &[Group], recorded: &Recorded) -> io::Result<Case> {
    let mut case = Case {
        words: Vec::new(alloc),
        files: Vec::new(alloc),
        status: String::new(alloc),
        out: Wanted::Bytes(Vec::new(alloc)),
        err: Vec::new(alloc),
        replays: Vec::new(alloc),
    };
    for file in &recorded.files {
        if let Some(sum) = sum_in(file) {
            case.out = Wanted::Sum(String::from_str(alloc, sum)?);
        } else {
            let text = text_of(alloc, groups, file)?;
            add_file(alloc, &mut case, file.name.as_str(), text)?;
        }
    }
    Ok(case)
}

/// The length and the SHA-256 of an answer, where its file has no more: its form is `of` and these.
fn sum_in(file: &File) -> Option<&str> {
    if file.name.as_str() != "stdout" {
        return None;
    }
    file.form.as_str().strip_prefix("of ")
}

/// Adds a file with its text to a case.
fn add_file(alloc: Global, case: &mut Case, name: &str, text: Vec<u8>) -> io::Result<()> {
    match name {
        "words" => case.words = words_of(alloc, &string_of(text)?)?,
        "status" => case.status = string_of(text)?,
        "stdout" => case.out = Wanted::Bytes(text),
        "stderr" => case.err = text,
        "replays" => case.replays = words_of(alloc, &string_of(text)?)?,
        "note" => {}
        _ => {
            let name = Text::from_string(String::from_str(alloc, name)?);
            case.files.push((name, Items::from_vec(text)))?;
        }
    }
    Ok(())
}

/// The words of these lines.
fn words_of(alloc: Global, lines: &str) -> io::Result<Vec<Text>> {
    let mut words = Vec::new(alloc);
    let Some(lines) = lines.strip_suffix('\n') else {
        return Ok(words);
    };
    for word in lines.split('\n') {
        words.push(Text::from_string(String::from_str(alloc, word)?))?;
    }
    Ok(words)
}

/// These bytes as a string.
fn string_of(bytes: Vec<u8>) -> io::Result<String> {
    match String::from_utf8(bytes) {
        Ok(text) => Ok(text),
        Err(_) => Err(malformed()),
    }
}
