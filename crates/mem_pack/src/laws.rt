//! Laws of packing, each the contract of a function that does nothing.
ghost use Rattle.mem_pack.specs.Laws.{PackedHasPins, PackedHasRow, PackedIsWithin, UnpackOfPack, UnpackedIsThere};

/// The parameters of the cell say the memory's sizes.
pub fn packed_has_row()
    ensures { PackedHasRow }
{}

/// The cell passes no limit of a reader.
pub fn packed_is_within()
    ensures { PackedIsWithin }
{}

/// The cell has each pin of its table, in its width.
pub fn packed_has_pins()
    ensures { PackedHasPins }
{}

/// The cell holds the memory of which it was made.
pub fn unpacked_is_there()
    ensures { UnpackedIsThere }
{}

/// What unpacks cells gives back each memory that was packed.
pub fn unpack_of_pack()
    ensures { UnpackOfPack }
{}
