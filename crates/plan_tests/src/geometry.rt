//! Where bits lie in RAM cells.
ghost use Rattle.std.specs.Prelude.{◌≡◌, ◌<◌, ◌^◌, length, IfOk};

use crate::samples::{Size, list, memory, none, one, variant, write};
use fit_rules::{mem_within, variant_within};
use geom_core::{BitPlace, Geometry, bit_place, lane_runs, layout, split};
use lib_core::Memory;
use net_core::{Bit, MemJob, WrPort};
use std::alloc::Global;
use std::test::Fail;

/// A write with these enables.
fn enabled(alloc: Global, enables: &[Bit]) -> Result<WrPort, Memory>
    ensures { IfOk result (λ port. port.en ≡ enables.now) }
{
    let en = list(alloc, enables)?;
    Ok(write(alloc, en, none(alloc)))
}

/// How many runs of equal bits enables have.
fn runs(alloc: Global, enables: &[Bit]) -> Result<u32, Memory>
    requires { length enables.now < 2 ^ 32 }
{
    let port = enabled(alloc, enables)?;
    Ok(lane_runs(&port))
}

/// A memory of 512 words of this width, with one write.
fn written(alloc: Global, width: u32, enables: &[Bit]) -> Result<MemJob, Memory>
    ensures { IfOk result (λ job. job.mem.width ≡ width) }
{
    let size = Size {
        words: 512,
        width,
        abits: 9,
    };
    let writes = one(alloc, enabled(alloc, enables)?)?;
    Ok(memory(alloc, size, none(alloc), writes))
}

#[test]
fn words_in_wider_words(rt: HostRuntime) -> Result<(), Fail> {
    let alloc = rt.alloc();
    let variant = variant(alloc, 14, &[1, 2, 4, 9, 18], None, 64, none(alloc))?;
    assert!(rt; variant_within(&variant));
    let geometry = Geometry::<5>::new(&variant);
    assert_eq!(rt; geometry.offset(2, 4, 3), 13);
    assert_eq!(rt; geometry.rows_of(3), 2048);
    let place = geometry.place(2, 7, 1);
    assert_eq!(rt; (place.word, place.bit), (1, 14));
    Ok(())
}

#[test]
#[tactic(auto, using(crate::proofs::Limits::rows, crate::proofs::Limits::units))]
fn four_enables(rt: HostRuntime) -> Result<(), Fail> {
    let alloc = rt.alloc();
    let variant = variant(alloc, 9, &[36], Some(9), 64, none(alloc))?;
    assert!(rt; variant_within(&variant));
    let mut enables = [Bit::One; 32];
    enables[..8].fill(Bit::Net(0));
    enables[8..16].fill(Bit::Net(1));
    enables[16..24].fill(Bit::Net(2));
    assert_eq!(rt; runs(alloc, &enables)?, 4);
    let job = written(alloc, 32, &enables)?;
    assert!(rt; mem_within(&job.mem));
    let spread = layout(&job.mem, &variant, 0, 0);
    assert_eq!(rt; (spread.unit, spread.units, spread.columns), (9, 4, 1));
    for bit in 0..32 {
        let place = bit_place(&job.mem, &variant, 0, 0, bit);
        assert_eq!(rt;
            place,
            BitPlace {
                column: 0,
                pin: 9 * (bit / 8) + bit % 8
            }
        );
    }
    Ok(())
}

#[test]
#[tactic(auto, using(crate::proofs::Limits::rows, crate::proofs::Limits::units))]
fn three_columns(rt: HostRuntime) -> Result<(), Fail> {
    let alloc = rt.alloc();
    let variant = variant(alloc, 11, &[2, 4, 8, 16], None, 64, none(alloc))?;
    assert!(rt; variant_within(&variant));
    let job = written(alloc, 20, &[Bit::One; 20])?;
    assert!(rt; mem_within(&job.mem));
    let spread = layout(&job.mem, &variant, 0, 2);
    assert_eq!(rt; (spread.unit, spread.units, spread.columns), (8, 3, 3));
    assert_eq!(rt; split(20, 16), 2);
    Ok(())
}
