//! Laws about modules that get a cell or a read with other nets, each the contract of a function that
//! does nothing.
ghost use Rattle.emu_read.specs.Joining.{AddedNetsIsValid, AddedCombIsValid, AddedRegIsValid, OtherReadIsValid};
ghost use Rattle.emu_read.specs.Emulating.{EmulationIsRewriting};
ghost use Rattle.emu_read.specs.Enable.{EnableIsEmulated};

/// A module with more nets is valid where the module is.
pub fn added_nets_is_valid()
    ensures { AddedNetsIsValid }
{}

/// A module with a logic cell that joins it is valid where the module is.
pub fn added_comb_is_valid()
    ensures { AddedCombIsValid }
{}

/// A module with a register that joins it is valid where the module is.
pub fn added_reg_is_valid()
    ensures { AddedRegIsValid }
{}

/// A module with another read in the place of one is valid where the module is.
pub fn other_read_is_valid()
    ensures { OtherReadIsValid }
{}

/// A read with what stands outside it, which does what another read does, in that one's place is a
/// rewriting of its memory.
pub fn emulation_is_rewriting()
    ensures { EmulationIsRewriting }
{}

/// The enable of a read may stand outside it, with what was shown last.
pub fn enable_is_emulated()
    ensures { EnableIsEmulated }
{}
