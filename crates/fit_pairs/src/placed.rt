//! Ports of a memory with the groups of a RAM in which they stand.
use geom_core::ReadPlace;
use lib_core::Group;
use net_core::{RdPort, WrPort};

/// A read of a memory, and where it stands.
#[derive(Clone, Copy)]
pub struct PlacedRead<'a> {
    /// The number of the read.
    pub number: u32,
    pub port: &'a RdPort,
    pub place: ReadPlace,
    /// The number of the group in which the read stands, which for a ride is that of the write.
    pub group: u32,
    pub kind: &'a Group,
}

/// A write of a memory, and the group in which it stands.
#[derive(Clone, Copy)]
pub struct PlacedWrite<'a> {
    /// The number of the write.
    pub number: u32,
    pub port: &'a WrPort,
    /// The number of the group.
    pub group: u32,
    pub kind: &'a Group,
}
