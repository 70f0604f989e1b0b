//! Tests of what no clause says and no row can show: a crate that has tests is proved twice, and this one has nothing else.
#![tactic(auto)]

#[cfg(test)]
mod clocks;
#[cfg(test)]
mod commits;
#[cfg(test)]
mod files;
#[cfg(test)]
mod gates;
#[cfg(test)]
mod held;
#[cfg(test)]
mod streams;
