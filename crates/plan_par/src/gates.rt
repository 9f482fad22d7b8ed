//! What is told of each job before its search.

/// Something that is told of each job before its search begins.
pub trait Gate {
    /// The search of the job of this number begins once this returns.
    fn enter(&self, index: u64);
}

/// A gate that holds nobody.
pub struct OpenGate;

impl Gate for OpenGate {
    fn enter(&self, _index: u64) {}
}
