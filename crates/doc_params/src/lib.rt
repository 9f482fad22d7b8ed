//! Attributes and parameters of a document as a design keeps them, and back.
#![tactic(auto)]

pub mod kept;
pub mod laws;
pub mod written;

pub use kept::{attr_of, attrs_of, bits_of, param_of, params_of};
pub use written::{const_of, doc_attr, doc_param};
