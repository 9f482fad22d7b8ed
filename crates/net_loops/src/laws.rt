//! Laws about loops and orders, each the contract of a function that does nothing.
ghost use Rattle.net_loops.specs.Loops.{RanksAgree, LoopHasNoOrder};

/// An order of nodes as a list exists exactly where ranks of their nets do.
pub fn ranks_agree()
    ensures { RanksAgree }
{}

/// Where nodes have a loop no order exists.
pub fn loop_has_no_order()
    ensures { LoopHasNoOrder }
{}
