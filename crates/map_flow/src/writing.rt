//! The texts of designs.
ghost use Rattle.std.specs.Prelude.{◌≡◌, IfOk};
ghost use Rattle.map_flow.specs.Maps as spec;

use lib_core::{Library, Memory};
use net_core::Design;
use net_unbuild::unbuild;
use rtlil_print::print_doc;
use std::alloc::Global;

/// A text that means the design, but for the numbers of nets, added wires that are no ports, and the
/// values at the start that wires show.
#[tactic(auto, using(crate::proofs::Texts::text_means))]
pub(crate) fn text_of(alloc: Global, design: &Design, library: &Library) -> Result<Vec<u8>, Memory>
    ensures { IfOk result (λ text. spec.TextMeansSame library.now design.now text.items) }
{
    let doc = unbuild(alloc, design, library)?;
    print_doc(alloc, &doc)
}
