//! Tests of edits and of the gates that are added by them, each call with ample memory. They stand apart,
//! so that the crates below are proved once; this library has nothing else.
#![tactic(auto)]

#[cfg(test)]
mod gates;
