//! Why a document means no design with whole memories.
use net_build::BuildFault;
use net_collect::DesignFault;

/// Why a document means no design with whole memories.
#[derive(Debug, Drop)]
pub enum WholeFault {
    /// Memory could not be had.
    Memory,
    /// The first rule that the document breaks.
    Build(BuildFault),
    /// The first rule that the memory cells of a module break.
    Collect(DesignFault),
}
