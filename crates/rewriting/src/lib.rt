//! What a rewriting of a memory keeps, in one record that composes: the contract of every call that leads
//! from a collected design to a netlist.
#![tactic(auto)]

pub mod laws;
