//! RTLIL text, the text form of Yosys: the document that a text reads as, or its first fault.
#![tactic(auto)]

mod doc;
mod fault;
mod names;
mod place;
mod signal;
mod state;
mod step;
mod text;

pub use doc::{
    CellLine, Doc, DocAttr, DocCell, DocConst, DocFlag, DocMem, DocModule, DocParam, DocWire, Item,
    Part,
};
pub use fault::{TextCode, TextFault};
pub use rtlil_lex::Digit;
pub use text::read_doc;
