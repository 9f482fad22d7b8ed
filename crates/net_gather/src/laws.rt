//! Laws of what is gathered, each the contract of a function that does nothing.
ghost use Rattle.net_gather.specs.Faces.{ShownDrive};
ghost use Rattle.net_gather.specs.Laws.{BitsSettled, PairsAreWithin, PinsShort, PlacesFew, PlacesInOrder, PlacesWithin, RamsFit, TablesFit};

/// What is kept of the modules of a file tells which pins their interfaces drive.
pub fn shown_drive()
    ensures { ShownDrive }
{}

/// Each open bit of a pin has a place.
pub fn bits_settled()
    ensures { BitsSettled }
{}

/// Pins name places of the module alone.
pub fn places_within()
    ensures { PlacesWithin }
{}

/// Each place behind those of the wires stands in one pin, once, in the order of the pins.
pub fn places_in_order()
    ensures { PlacesInOrder }
{}

/// Where nothing is wrong with the cells, those that are not kept as they are have the pins of their
/// tables, with their widths.
pub fn tables_fit()
    ensures { TablesFit }
{}

/// Where nothing is wrong there are no more places than a module may have nets.
pub fn places_few()
    ensures { PlacesFew }
{}

/// And no pin has more bits than the pins of a module may have together.
pub fn pins_short()
    ensures { PinsShort }
{}

/// Connects join bits of wires and constants.
pub fn pairs_within()
    ensures { PairsAreWithin }
{}

/// Where nothing is wrong, each cell of a RAM has the shape of its variant, whichever bits and clocks are
/// found that agree with the connects.
pub fn rams_fit()
    ensures { RamsFit }
{}
