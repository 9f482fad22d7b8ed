//! What follows for modules and designs that are the same, each the contract of a function that does nothing.
ghost use Rattle.net_same.specs.Laws.{SameRefines, SameIsOrdered, SameIsLive, SameHasPorts, SameDesignsRefine, SameDesignsLive, SameNames};

/// Modules that are the same refine each other.
pub fn same_refines()
    ensures { SameRefines }
{}

/// A module that is the same has a combinational order where the other has one.
pub fn same_is_ordered()
    ensures { SameIsOrdered }
{}

/// A module that is the same has a run over every list of happenings where the other has.
pub fn same_is_live()
    ensures { SameIsLive }
{}

/// Modules that are the same have one name and the same ports.
pub fn same_has_ports()
    ensures { SameHasPorts }
{}

/// Designs that are the same refine each other.
pub fn same_designs_refine()
    ensures { SameDesignsRefine }
{}

/// Where all modules of a design have runs, those of one that is the same have.
pub fn same_designs_live()
    ensures { SameDesignsLive }
{}

/// Designs that are the same have the same names of modules.
pub fn same_names()
    ensures { SameNames }
{}
