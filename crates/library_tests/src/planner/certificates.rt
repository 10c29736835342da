//! A certificate's text in one piece, which no command writes.
use certificate_form::{read_certificate, write_certificate};
use std::test::Fail;

/// The certificate of two clusters that meet, with the whole table.
const WHOLE: &str = "certificate 1
instance 1
phases 2
phase 5 30 3 2 2 120
phase 5 30 3 2 2 120
head 0 0 0 kept
cluster 0 4000 0 8
cluster 1 2000 3 4
end
answer 24000 0 1
entry 0 0 0 0 0 0
entry 0 1 1 10 16 18000
entry 1 0 0 0 8 0
entry 1 1 0 21 31 110000
entry 1 1 1 13 19 24000
end
";

#[test]
fn a_certificate_written_again(rt: HostRuntime) -> Result<(), Fail> {
    let alloc = rt.alloc();
    assert!(rt; WHOLE.len() < 10_000);
    let certificate = read_certificate(alloc, WHOLE.as_bytes())
        .ok()
        .ok_or("no certificate")?;
    let written = write_certificate(alloc, &certificate)?;
    assert_eq!(rt; written.as_slice(), WHOLE.as_bytes());
    Ok(())
}
