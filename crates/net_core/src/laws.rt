//! Laws about runs, each the contract of a function that does nothing.
ghost use Rattle.net_core.specs.Alike.{AlikeAllowedAlike};
ghost use Rattle.net_core.specs.Nodes.{OrdersAgree, CycleHasNoOrder};
ghost use Rattle.net_core.specs.Renaming.{RenamingKeepsRuns, RenamingKeepsTraces, RenamingRefines, RenamingKeepsOrder};
ghost use Rattle.net_core.specs.Runs.{OrderedIsLive, RefinesItself, RefinementsCompose, KeepsDefined};
ghost use Rattle.net_core.specs.Simulation.{SimulationRefines, SimulatesItself, SimulationsCompose, KeepsAlways, PatchedIsAllowed};
ghost use Rattle.net_core.specs.Valid.{ValidNodes, OrderedValidIsLive};

/// A module with a combinational order has a run over every list of happenings.
pub fn ordered_is_live()
    ensures { OrderedIsLive }
{}

/// Each design refines itself.
pub fn refines_itself()
    ensures { RefinesItself }
{}

/// Refinements compose.
pub fn refinements_compose()
    ensures { RefinementsCompose }
{}

/// A value of an output that the old module defines is the one that the new module shows.
pub fn keeps_defined()
    ensures { KeepsDefined }
{}

/// A module each of whose runs the old one simulates refines it.
pub fn simulation_refines()
    ensures { SimulationRefines }
{}

/// Each module simulates itself.
pub fn simulates_itself()
    ensures { SimulatesItself }
{}

/// Simulations compose.
pub fn simulations_compose()
    ensures { SimulationsCompose }
{}

/// What always holds of bits that a simulation does not hide holds of the new module.
pub fn keeps_always()
    ensures { KeepsAlways }
{}

/// An order of the nodes as a list exists exactly where ranks of the nets do.
pub fn orders_agree()
    ensures { OrdersAgree }
{}

/// Where nodes depend on each other in a circle no order exists.
pub fn cycle_has_no_order()
    ensures { CycleHasNoOrder }
{}

/// Cells whose pins read the same values under two waves, and which drive nets of the same values, allow
/// these waves alike.
pub fn alike_allowed_alike()
    ensures { AlikeAllowedAlike }
{}

/// A cell that touches none of some nets allows a wave that is patched there.
pub fn patched_is_allowed()
    ensures { PatchedIsAllowed }
{}

/// A module with its nets renamed allows a wave exactly where the module allows the renamed wave.
pub fn renaming_keeps_runs()
    ensures { RenamingKeepsRuns }
{}

/// A module with its nets renamed has the same traces.
pub fn renaming_keeps_traces()
    ensures { RenamingKeepsTraces }
{}

/// The nodes of a valid module have numbers of 32 bits, and their nets are the module's.
pub fn valid_nodes()
    ensures { ValidNodes }
{}

/// A module with its nets renamed and the module refine each other.
pub fn renaming_refines()
    ensures { RenamingRefines }
{}

/// A module with its nets renamed has a combinational order exactly where the module has one.
pub fn renaming_keeps_order()
    ensures { RenamingKeepsOrder }
{}

/// A valid module with a combinational order has a run over every list of happenings.
pub fn ordered_valid_is_live()
    ensures { OrderedValidIsLive }
{}
