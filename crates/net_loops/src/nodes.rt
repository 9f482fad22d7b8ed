//! Nodes over nets.
use lib_core::List;
use net_core::Bit;

/// A node: the nets that it drives, and the bits on which their values depend within a moment.
#[derive(Debug, PartialEq, Eq, Drop)]
pub struct NetNode {
    pub drives: List<u32>,
    pub needs: List<Bit>,
}
