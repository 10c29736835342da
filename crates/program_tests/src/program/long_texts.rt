//! Texts as long as a text may be, and longer.

use super::calls::{NO_FAULTS, run_with_room};
use signal_cli::Status;
use std::alloc::{AllocError, Global};
use std::test::Fail;

// The lines of a certificate up to its entries, none of which is the root.
const FRONT: &str =
    "certificate 1\ninstance 1\nphases 2\nphase 5 30 3 2 2 120\nphase 5 30 3 2 2 120\nhead 0 0 0 kept\ncluster 0 4000 0 8\ncluster 1 2000 3 4\nend\nanswer 24000 0 1\n";

const END: &str = "end\n";

const DELAY: &str = "1111111111111";

// The bytes of the line of an entry with this delay.
const ENTRY_LENGTH: usize = 38;

// A command over a certificate's text, how long that is, how the command ends, and what stands in `out` and `err`.
const LENGTHS: &[(&str, usize, Status, &str, &str)] = &[
    (
        "check",
        100_663_295,
        Status::Rejected,
        "rejected root\n",
        "",
    ),
    (
        "check",
        100_663_296,
        Status::Rejected,
        "rejected root\n",
        "",
    ),
    (
        "check",
        100_663_297,
        Status::BadInput,
        "",
        "signal: bad 1 long\n",
    ),
    (
        "plan",
        100_663_296,
        Status::BadInput,
        "",
        "signal: bad 1 line 1\n",
    ),
    (
        "plan",
        100_663_297,
        Status::BadInput,
        "",
        "signal: bad 1 long\n",
    ),
];

#[test]
fn texts_up_to_the_limit(rt: HostRuntime) -> Result<(), Fail> {
    let alloc = rt.alloc();
    for &(command, length, status, out, err) in LENGTHS {
        let text = certificate_of_length(alloc, length)?;
        assert_eq!(rt; text.len(), length);
        let ending = run_with_room(&rt, alloc, &[command, "file"], text, NO_FAULTS, 100)?;
        assert!(rt; ending.is(status, out, err), "{command} {length}");
    }
    Ok(())
}

// The text of a certificate with as many entries as make it so long; the first few have shorter delays.
fn certificate_of_length(alloc: Global, length: usize) -> Result<Vec<u8>, AllocError> {
    let mut text = String::with_capacity(alloc, length)?;
    text.push_str(FRONT)?;
    let room = length.saturating_sub(FRONT.len()).saturating_sub(END.len());
    let entries = room.div_ceil(ENTRY_LENGTH);
    let mut too_long = entries.saturating_mul(ENTRY_LENGTH).saturating_sub(room);
    for index in 0..entries {
        let shorter = too_long.min(DELAY.len() - 1);
        too_long -= shorter;
        let since = (index / 31).saturating_add(10_000);
        let at = since.saturating_add(index % 31);
        let delay = DELAY.get(shorter..).unwrap_or(DELAY);
        write!(text, "entry 0 0 0 {since} {at} {delay}\n")?;
    }
    text.push_str(END)?;
    Ok(text.into_bytes())
}
