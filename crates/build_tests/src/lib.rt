//! Tests of what no command shows: copies, variants of libraries, rows of cells, counts of limits, documents
//! without a text. They stand apart, so that those crates are proved once; this library has nothing else.
#![tactic(auto)]

#[cfg(test)]
mod breaches;
#[cfg(test)]
mod fixtures;
#[cfg(test)]
mod kinds;
#[cfg(test)]
mod libraries;
#[cfg(test)]
mod values;
#[cfg(test)]
mod writing;
