//! The words of a command line, and the exit status that they end with.

use super::calls::{TWO_CLUSTERS, TWO_CLUSTERS_PLAN};
use signal_cli::run;
use std::env::FillError;
use std::fs;
use std::io::{self, ErrorKind, Write};
use std::process::ExitCode;
use std::rt::Env;
use std::test::Fail;

// A command line, the program's name first.
#[derive(Drop)]
struct CommandLine(&'static [&'static str]);

impl Env for CommandLine {
    fn arg(&self, i: usize, buf: &mut [u8]) -> Result<usize, FillError> {
        let Some(word) = self.0.get(i) else {
            return Err(FillError::NotPresent);
        };
        let Some(front) = buf.get_mut(..word.len()) else {
            return Err(FillError::TooLong);
        };
        front.copy_from_slice(word.as_bytes());
        Ok(word.len())
    }

    fn var(&self, _name: &str, _buf: &mut [u8]) -> Result<usize, FillError> {
        Err(FillError::NotPresent)
    }

    fn var_at(&self, _i: usize, _buf: &mut [u8]) -> Result<usize, FillError> {
        Err(FillError::NotPresent)
    }
}

// What is written, in memory.
#[derive(Drop)]
struct Written(Vec<u8>);

impl Write for Written {
    fn write(&mut self, piece: &[u8]) -> io::Result<usize> {
        match self.0.extend_from_slice(piece) {
            Ok(()) => Ok(piece.len()),
            Err(_) => Err(io::Error::from(ErrorKind::OutOfMemory)),
        }
    }

    fn flush(&mut self) -> io::Result<()> {
        Ok(())
    }
}

// A command line beside a file `instance`, the exit status, and what is written to standard output and error.
const RUNS: &[(&[&str], u8, &str, &str)] = &[
    (&["signal", "plan", "instance"], 0, TWO_CLUSTERS_PLAN, ""),
    (
        &["signal", "plan", "instance", "instance"],
        2,
        "",
        "signal: usage\n",
    ),
    (&["signal", "plan"], 2, "", "signal: usage\n"),
    (&["signal"], 2, "", "signal: usage\n"),
    (&[], 2, "", "signal: usage\n"),
    (
        &["signal", "check", "instance"],
        3,
        "",
        "signal: bad 1 line 1\n",
    ),
    (
        &["signal", "plan", "absent"],
        4,
        "",
        "signal: cannot read 1\n",
    ),
];

#[test]
fn runs(rt: HostRuntime) -> Result<(), Fail> {
    let alloc = rt.alloc();
    fs::write(&rt, "instance", TWO_CLUSTERS)?;
    for &(words, status, told, line) in RUNS {
        let mut out = Written(Vec::new(alloc));
        let mut err = Written(Vec::new(alloc));
        let code = run(
            &(CommandLine(words), alloc),
            &rt,
            &b""[..],
            &mut out,
            &mut err,
        );
        let as_wanted = code == ExitCode::from(status)
            && out.0.as_slice() == told.as_bytes()
            && err.0.as_slice() == line.as_bytes();
        assert!(rt; as_wanted, "{words:?}");
    }
    fs::remove_file(&rt, "instance")?;
    Ok(())
}
