//! The counts that limits show.
use crate::fixtures::{name, read};
use lib_core::{Library, List, Name};
use net_build::build;
use std::alloc::Global;
use std::test::Fail;

/// A library without RAMs.
fn no_library(alloc: Global) -> Library {
    Library {
        rams: List::from_vec(Vec::new(alloc)),
        budget: None,
    }
}

/// The number of the code, the name and the count that the first breach shows; 0 where there is none.
fn breach(alloc: Global, text: &[u8]) -> Result<(u32, Name, u64), Fail> {
    let doc = read(alloc, text)?;
    match build(alloc, &doc, &no_library(alloc)) {
        Ok(_) => Ok((0, name(alloc, b"")?, 0)),
        Err(fault) => Ok((fault.code.number(), fault.name, fault.seen)),
    }
}

/// A text, and the name and the count of the limit that it passes first.
type Passed<'a> = (&'a [u8], &'a [u8], u64);

/// One for each limit of wires and of memories, and two of their cells: bits of an address and read
/// ports.
const LIMITS: [Passed<'static>; 7] = [
    (
        b"module \\m\nwire width 4194305 \\a\nend\n",
        b"\\a",
        4_194_305,
    ),
    (
        b"module \\m\nmemory size 1048577 \\x\nend\n",
        b"\\x",
        1_048_577,
    ),
    (
        b"module \\m\nmemory size 1048576 offset 1 \\x\nend\n",
        b"\\x",
        1_048_577,
    ),
    (
        b"module \\m\nmemory width 1025 size 4 \\x\nend\n",
        b"\\x",
        1025,
    ),
    (
        b"module \\m\nmemory width 8 size 524289 \\x\nend\n",
        b"\\x",
        4_194_305,
    ),
    (
        b"module \\m\nwire \\d\nmemory size 4 \\x\ncell $memrd $r\nparameter \\MEMID \"\\\\x\"\nparameter \\ABITS 33\nparameter \\WIDTH 1\nparameter \\CLK_ENABLE 0\nparameter \\CLK_POLARITY 0\nparameter \\TRANSPARENT 0\nconnect \\CLK 1'0\nconnect \\EN 1'1\nconnect \\ADDR 33'000000000000000000000000000000000\nconnect \\DATA \\d\nend\nend\n",
        b"$r",
        33,
    ),
    (
        b"module \\m\nwire width 65 \\d\nmemory size 128 \\x\ncell $memrd $r\nparameter \\MEMID \"\\\\x\"\nparameter \\ABITS 7\nparameter \\WIDTH 65\nparameter \\CLK_ENABLE 0\nparameter \\CLK_POLARITY 0\nparameter \\TRANSPARENT 0\nconnect \\CLK 1'0\nconnect \\EN 1'1\nconnect \\ADDR 7'0000000\nconnect \\DATA \\d\nend\nend\n",
        b"$r",
        65,
    ),
];

#[test]
fn limits_are_told(rt: HostRuntime) -> Result<(), Fail> {
    for (text, name, seen) in &LIMITS {
        let found = breach(rt.alloc(), text)?;
        assert_eq!(rt; found.0, 12);
        assert_eq!(rt; found.1.as_slice(), *name);
        assert_eq!(rt; found.2, *seen);
    }
    Ok(())
}
