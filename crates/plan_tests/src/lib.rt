//! Tests of what no command shows of geometry and plans: where bits lie, pairs of ports that are quiet,
//! two jobs at once. They stand apart, so that the crates below are proved once; this library has nothing
//! else.
#![tactic(auto)]

#[cfg(test)]
mod geometry;
#[cfg(test)]
mod pairs;
#[cfg(test)]
mod parallel;
#[cfg(test)]
mod samples;
