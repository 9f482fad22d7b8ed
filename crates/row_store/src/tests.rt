ghost use Rattle.std.specs.Prelude.{◌≡◌, length, IfOk};
ghost use Rattle.row_store.specs.Rows.{row_of};

use crate::{Bits, Rows};
use lib_core::{Memory, Tri};
use std::alloc::Global;
use std::test::Fail;

#[test]
fn two_rows(rt: HostRuntime) -> Result<(), Fail> {
    let rows = Rows::<1>::new(rt.alloc(), 2, &[Tri::Zero, Tri::One, Tri::Any, Tri::One])?;
    assert!(rt; rows.get(0, 1) == Tri::One);
    assert!(rt; rows.get(1, 0) == Tri::Any);
    Ok(())
}

#[test]
fn lanes_change(rt: HostRuntime) -> Result<(), Fail> {
    let mut rows = Rows::<4>::new(rt.alloc(), 2, &[Tri::Zero, Tri::One, Tri::Any, Tri::One])?;
    rows.set_lanes(1, &[3, 0, 0, 0], &[1, 0, 0, 0], &[1, 0, 0, 0]);
    assert!(rt; rows.get(0, 1) == Tri::One);
    assert!(rt; rows.get(1, 0) == Tri::One);
    assert!(rt; rows.get(1, 1) == Tri::Any);
    assert!(rt; rows.row(0).values == [2, 0, 0, 0]);
    Ok(())
}

#[test]
fn bits_change(rt: HostRuntime) -> Result<(), Fail> {
    let mut bits = Bits::<4>::new(100);
    bits.put(70, true);
    bits.put(3, true);
    bits.put(3, false);
    assert!(rt; bits.len() == 100);
    assert!(rt; bits.get(70) && !bits.get(3));
    Ok(())
}

/// A row of 1000 bits alike, in which the bits of these lanes are set.
#[tactic(auto, using(crate::proofs::Tables::one_row, crate::proofs::Tables::one_row_changed))]
fn thousand(alloc: Global, bit: Tri, lanes: &[u64; 16]) -> Result<Rows<16>, Memory>
    ensures rows { IfOk result (λ rows. length rows ≡ 1) }
    ensures bits { IfOk result (λ rows. length (row_of rows 0) ≡ 1000) }
{
    let bits = vec![in alloc; bit; 1000]?;
    let mut rows = Rows::<16>::new(alloc, 1000, bits.as_slice())?;
    rows.set_lanes(0, lanes, lanes, lanes);
    Ok(rows)
}

#[test]
fn a_wide_row(rt: HostRuntime) -> Result<(), Fail> {
    let mut lanes = [0u64; 16];
    lanes[0] = 1 << 63;
    lanes[1] = 1;
    lanes[15] = 1 << 39;
    let rows = thousand(rt.alloc(), Tri::Any, &lanes)?;
    assert!(rt; rows.get(0, 63) == Tri::One && rows.get(0, 64) == Tri::One);
    assert!(rt; rows.get(0, 999) == Tri::One && rows.get(0, 998) == Tri::Any);
    assert!(rt; *rows.values(0) == lanes);
    assert!(rt; *rows.known(0) == lanes);
    Ok(())
}

#[test]
fn old_bits_stay(rt: HostRuntime) -> Result<(), Fail> {
    let mut lanes = [0u64; 16];
    lanes[1] = 1;
    let rows = thousand(rt.alloc(), Tri::Zero, &lanes)?;
    assert!(rt; rows.get(0, 64) == Tri::One);
    assert!(rt; rows.get(0, 63) == Tri::Zero && rows.get(0, 999) == Tri::Zero);
    assert!(rt; rows.known(0)[0] == u64::MAX && rows.known(0)[15] == (1 << 40) - 1);
    Ok(())
}
