//! Laws about edits, each the contract of a function that does nothing.
ghost use Rattle.net_edit.specs.Aliases.{RedirectedSimulates, RedirectedIsOrdered, RedirectedHasOneDriver, RedirectedIsWithin, AliasIsRedirection};
ghost use Rattle.net_edit.specs.Drops.{DroppedCombIsOrdered, DroppedRegIsOrdered, SplicedIsOrdered, StretchedIsOrdered};
ghost use Rattle.net_edit.specs.Laws.{CutHasRanks, AddedCombIsOrdered, AddedRegIsOrdered, AddedNetsSimulate, AddedCombSimulates, AddedRegSimulates, AddedCombHasOneDriver, AddedRegHasOneDriver, AddedCombIsWithin, AddedRegIsWithin};

/// A node that does not reach what it needs has ranks along which it rises.
pub fn cut_has_ranks()
    ensures { CutHasRanks }
{}

/// A logic cell along which the ranks of an order rise keeps this order.
pub fn added_comb_is_ordered()
    ensures { AddedCombIsOrdered }
{}

/// A register along which the ranks of an order rise keeps this order.
pub fn added_reg_is_ordered()
    ensures { AddedRegIsOrdered }
{}

/// Each run of a module with more nets is one of the module, with the same wave.
pub fn added_nets_simulate()
    ensures { AddedNetsSimulate }
{}

/// Each run of a module with a logic cell more is one of the module, with the same wave.
pub fn added_comb_simulates()
    ensures { AddedCombSimulates }
{}

/// Each run of a module with a register more, whose clock it knows, is one of the module, with the
/// same wave.
pub fn added_reg_simulates()
    ensures { AddedRegSimulates }
{}

/// With a logic cell over undriven nets each net still has at most one driver.
pub fn added_comb_has_one_driver()
    ensures { AddedCombHasOneDriver }
{}

/// With a register over undriven nets each net still has at most one driver.
pub fn added_reg_has_one_driver()
    ensures { AddedRegHasOneDriver }
{}

/// A logic cell over nets of the module keeps all nets of nodes within it.
pub fn added_comb_is_within()
    ensures { AddedCombIsWithin }
{}

/// A register over nets of the module keeps all nets of nodes within it.
pub fn added_reg_is_within()
    ensures { AddedRegIsWithin }
{}

/// Each run of a module whose readers read other bits is one of the module, but at the nets in
/// whose place they are read.
pub fn redirected_simulates()
    ensures { RedirectedSimulates }
{}

/// An order in which no bit is higher than the net in whose place it is read is one of the module
/// whose readers read these bits.
pub fn redirected_is_ordered()
    ensures { RedirectedIsOrdered }
{}

/// Where readers read other bits each net still has at most one driver.
pub fn redirected_has_one_driver()
    ensures { RedirectedHasOneDriver }
{}

/// Where readers read other bits of the module all nets of nodes are still within it.
pub fn redirected_is_within()
    ensures { RedirectedIsWithin }
{}

/// One more alias keeps every driven net and every inout bit read as itself.
pub fn alias_is_redirection()
    ensures { AliasIsRedirection }
{}

/// An order is one of the module without a logic cell.
pub fn dropped_comb_is_ordered()
    ensures { DroppedCombIsOrdered }
{}

/// An order is one of the module without a register.
pub fn dropped_reg_is_ordered()
    ensures { DroppedRegIsOrdered }
{}

/// An order along whose ranks the reads of memories rise is one of the module with these in the
/// place of a memory.
pub fn spliced_is_ordered()
    ensures { SplicedIsOrdered }
{}

/// The ranks of an order may be stretched.
pub fn stretched_is_ordered()
    ensures { StretchedIsOrdered }
{}
