//! Lists, names and their copies.
use crate::fixtures::name;
use lib_core::{Duplicate, List, Tri};
use std::test::Fail;

#[test]
fn copies_are_equal(rt: HostRuntime) -> Result<(), Fail> {
    let alloc = rt.alloc();
    let memory = name(alloc, b"\\m")?;
    assert_eq!(rt; memory.copy(alloc)?, memory);
    let mut row = List::from_vec(Vec::from_slice(alloc, &[Tri::Zero, Tri::Any])?);
    let copy = row.duplicate(alloc)?;
    assert_eq!(rt; copy, row);
    row.push(Tri::One)?;
    assert!(rt; copy != row);
    assert_eq!(rt; row.as_slice().len(), 3);
    *row.item_mut(0) = Tri::One;
    assert_eq!(rt; row.as_slice(), [Tri::One, Tri::Any, Tri::One].as_slice());
    Ok(())
}
