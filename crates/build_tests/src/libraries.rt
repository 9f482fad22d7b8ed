//! What counts in the variants of a library, and the line of a fault.
use lib_core::{Fill, Group, Library, OwnWrite, Seen, SrstGate, Trans, Variant};
use lib_read::{LibCode, LibFault, read_library};
use std::alloc::Global;
use std::process::Abort;
use std::test::Fail;

const BLOCK: &[u8] = b"# One read, one write.
ram block $__B4K_ {
    abits 11;
    widths 2 4 8 16 per_port;
    cost 64; init any;
    port sr \"R\" { clock anyedge; rden; }
    port sw \"W\" { clock anyedge; }
}
";

const RICH: &[u8] = b"ram huge $__X_ {
    abits 10; widths 8 16 global; byte 8; style \"deep\";
    option \"INIT\" \"yes\" { init zero; cost 9; }
    option \"INIT\" \"no\" { }
    port srsw \"A\" \"B\" {
        clock negedge; clken; rden; wrbe_separate;
        wrtrans \"B\" \"C\" new; wrprio all; width 16;
        portoption \"MODE\" 0 { rdwr old; rdsrst zero gated_clken; }
        portoption \"MODE\" 1 { rdwr new; rdarst any; }
        portoption \"MODE\" 2 { rdinit no_undef; }
    }
    port sw \"C\" { clock posedge; wrtrans all old; }
}";

const SECOND_RAM: &[u8] = b"ram block $a { abits 4; width 4; port ar \"R\" { } }
ram block $b { abits 21; width 4; port ar \"R\" { } }";

const MANY: &[u8] = b"ram block $a {
    abits 4; width 4; port ar \"R\" { }
    option \"X\" 0 { } option \"X\" 1 { } option \"X\" 2 { } option \"X\" 3 { }
    option \"X\" 4 { } option \"X\" 5 { } option \"X\" 6 { }
    option \"Y\" 0 { } option \"Y\" 1 { } option \"Y\" 2 { } option \"Y\" 3 { }
    option \"Y\" 4 { } option \"Y\" 5 { } option \"Y\" 6 { }
    option \"Z\" 0 { } option \"Z\" 1 { } option \"Z\" 2 { } option \"Z\" 3 { }
    option \"Z\" 4 { } option \"Z\" 5 { } option \"Z\" 6 { }
}";

fn read(alloc: Global, text: &[u8]) -> Result<Library, LibFault> {
    read_library(alloc, &text[..text.len().min(16_777_216)])
}

/// How many variants the last RAM has, and how many groups its last variant.
fn shape(library: &Library) -> Option<(usize, usize)> {
    let variants = library.rams.as_slice().last()?.variants.as_slice();
    Some((variants.len(), variants.last()?.groups.as_slice().len()))
}

/// The first fault of a text.
fn fault_of(alloc: Global, text: &[u8]) -> Option<LibFault> {
    match read(alloc, text) {
        Ok(_) => None,
        Err(fault) => Some(fault),
    }
}

fn refused(rt: &impl Abort, alloc: Global, text: &[u8], line: u32, code: LibCode, seen: u64) {
    let found = fault_of(alloc, text);
    assert!(rt; found == Some(LibFault { line, code, seen }));
}

/// A variant of the first RAM.
fn variant_at(library: &Library, place: usize) -> Option<&Variant> {
    library
        .rams
        .as_slice()
        .first()?
        .variants
        .as_slice()
        .get(place)
}

fn first_group(variant: &Variant) -> Option<&Group> {
    variant.groups.as_slice().first()
}

#[test]
fn variants_say_what_counts(rt: HostRuntime) {
    let Ok(library) = read(rt.alloc(), RICH) else {
        assert!(rt; false);
        return;
    };
    let (Some(second), Some(fourth)) = (variant_at(&library, 1), variant_at(&library, 3)) else {
        assert!(rt; false);
        return;
    };
    assert!(rt; second.cost == 9 && second.fill == Fill::Zero);
    assert!(rt; fourth.cost == 1 && fourth.fill == Fill::Nothing);
    let (Some(group), Some(other)) = (first_group(second), first_group(fourth)) else {
        assert!(rt; false);
        return;
    };
    assert!(rt; group.own == OwnWrite::New && group.arst == Fill::Any);
    assert!(rt; other.own == OwnWrite::Old && other.arst == Fill::Nothing);
    assert!(rt; other.srst == Fill::Zero && other.srst_gate == SrstGate::Clken);
    assert_eq!(rt; group.prio.as_slice(), [0, 1].as_slice());
    assert_eq!(rt; group.levels.as_slice(), [1].as_slice());
    let seen = Seen::New;
    let trans = [Trans { group: 0, seen }, Trans { group: 1, seen }];
    assert_eq!(rt; group.trans.as_slice(), trans.as_slice());
}

#[test]
fn limits_have_counts(rt: HostRuntime) -> Result<(), Fail> {
    let alloc = rt.alloc();
    assert_eq!(rt; shape(&read(alloc, RICH)?), Some((6, 2)));
    refused(&rt, alloc, MANY, 1, LibCode::Limit, 257);
    refused(&rt, alloc, SECOND_RAM, 2, LibCode::Limit, 21);
    Ok(())
}

#[test]
fn every_prefix(rt: HostRuntime) {
    let text: &[u8] = BLOCK;
    for end in 0..text.len() {
        let prefix = &text[..end];
        let feeds = prefix.iter().filter(|byte| **byte == b'\n').count();
        if let Some(fault) = fault_of(rt.alloc(), prefix) {
            assert!(rt; fault.line as usize <= feeds.saturating_add(1));
        }
    }
}
