//! Laws about logic that is added, each the contract of a function that does nothing.
ghost use Rattle.net_gates.specs.Laws.{GrownSimulates, ExtensionsCompose, AddsCompose, AddsBeside, AddsAs};

/// Each run of a module with more logic is one of the module, with the same wave.
pub fn grown_simulates()
    ensures { GrownSimulates }
{}

/// What extends an extension extends the module.
pub fn extensions_compose()
    ensures { ExtensionsCompose }
{}

/// Logic over the outputs of other logic is logic over its operands.
pub fn adds_compose()
    ensures { AddsCompose }
{}

/// Two pieces of logic, one beside the other, are one.
pub fn adds_beside()
    ensures { AddsBeside }
{}

/// The same logic in other words.
pub fn adds_as()
    ensures { AddsAs }
{}
