//! The nets of nodes.
use lib_core::List;

/// The nets that a node drives, and those that it depends on within a moment.
#[derive(Debug, Drop)]
pub struct NodeNets {
    pub drives: List<u32>,
    pub needs: List<u32>,
}
