//! What one step of a rewriting answers.
use net_core::Module;

/// A module after a step of a rewriting.
#[derive(Debug, PartialEq, Eq, Drop)]
pub enum Step {
    /// The step found what it looks for, and this is what it made.
    Changed(Module),
    /// It found nothing, and this is the module as given.
    Same(Module),
}
