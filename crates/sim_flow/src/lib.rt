//! The simulation of a document's design: from the document and a library to the module that is
//! simulated, from a stimulus to its events, and from these to the text of the traces.
#![tactic(auto)]

mod chosen;
mod stimulus;
mod subject;
mod testing;
mod tracing;

pub use chosen::simulated_module;
pub use stimulus::events_of;
pub use subject::subject_of;
pub use testing::can_run;
pub use tracing::{TraceRefusal, trace_of};
