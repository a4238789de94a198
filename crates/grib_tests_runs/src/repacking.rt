//! `repack` and `make` where a call of a device fails.

use crate::in_memory::{CALM, Failing, run_over};
use grib_engine::Outcome;
use std::alloc::{AllocError, Global};
use std::test::Fail;

/// The message M3 of docs/WORKED.md: 215 octets.
const DIFFERENCES: &[u8] = b"GRIB\0\0\0\x02\0\0\0\0\0\0\0\xd7\
\0\0\0\x15\x01\0\x62\0\0\x02\0\x01\x07\xe8\x01\x0f\x0c\0\0\0\x01\
\0\0\0\x48\x03\0\0\0\0\x04\0\0\0\0\x06\xff\xff\xff\xff\xff\xff\xff\xff\xff\xff\xff\xff\xff\xff\xff\
\0\0\0\x02\0\0\0\x02\0\0\0\0\xff\xff\xff\xff\x02\xfa\xf0\x80\0\x98\x96\x80\x30\x02\xeb\xae\x40\
\0\xa7\xd8\xc0\0\x0f\x42\x40\0\x0f\x42\x40\0\
\0\0\0\x22\x04\0\0\0\0\0\0\x02\xff\x01\0\0\0\x01\0\0\0\x06\x67\0\0\0\0\x02\xff\xff\xff\xff\xff\xff\
\0\0\0\x31\x05\0\0\0\x04\0\x03\xc2\xed\x40\0\x80\x03\0\x01\x05\0\x01\0\xff\xff\xff\xff\xff\xff\xff\xff\
\0\0\0\x02\0\x03\0\0\0\x01\x01\0\0\0\x02\x06\x01\x01\
\0\0\0\x06\x06\xff\0\0\0\x0d\x07\x05\x8a\x02\xc0\x0c\x04\x10\xa07777";

#[test]
fn each_device_may_fail(rt: HostRuntime) -> Result<(), Fail> {
    let alloc = rt.alloc();
    let words = "repack to=3 order=1";
    let octets = DIFFERENCES;
    let note = "messages 1 fields 1 written 215\n";
    for (input, written) in [(1, 0), (2, 0), (3, 0), (4, 215)] {
        let ran = run_over(alloc, words, octets, 100, Failing { input, ..CALM })?;
        assert!(rt; ran.outcome == Outcome::ReadFault);
        assert_eq!(rt; ran.output.octets().len(), written);
        assert!(rt; ran.notes.octets() == "read fault\n".as_bytes());
    }
    for (output, written, noted) in [(1, 0, ""), (2, 100, ""), (3, 200, ""), (4, 215, note)] {
        let ran = run_over(alloc, words, octets, 100, Failing { output, ..CALM })?;
        assert!(rt; ran.outcome == Outcome::WriteFault);
        assert_eq!(rt; ran.output.octets().len(), written);
        assert!(rt; ran.notes.octets() == noted.as_bytes());
    }
    for (notes, noted) in [(1, ""), (2, note)] {
        let ran = run_over(alloc, words, octets, 100, Failing { notes, ..CALM })?;
        assert!(rt; ran.gave(Outcome::WriteFault, octets, noted));
    }
    Ok(())
}

#[test]
fn messages_are_made(rt: HostRuntime) -> Result<(), Fail> {
    let alloc = rt.alloc();
    // The input is not read: its first call would fail.
    let failing = Failing { input: 1, ..CALM };
    for piece in [1, 7, 300] {
        let made = run_over(alloc, "make seed=1 ni=2 nj=2 to=0", b"", piece, failing)?;
        let note = "made 183 written 183 present 4 sum 368\n";
        assert!(rt; made.outcome == Outcome::Done);
        assert_eq!(rt; made.output.octets().len(), 183);
        assert!(rt;
            made.output
                .octets()
                .ends_with(b"\0\0\0\x09\x07\x06\x7e\x41\xab7777")
        );
        assert!(rt; made.notes.octets() == note.as_bytes());
    }
    Ok(())
}

// What `make` writes of 65,160 points, by this packing.
fn made(alloc: Global, packing: &str) -> Result<Vec<u8>, AllocError> {
    let words = format!(in alloc; "make seed=7 ni=360 nj=181 {packing}")?;
    let ran = run_over(alloc, words.as_str(), b"", 65_536, CALM)?;
    ran.output.octets().to_vec(alloc)
}
