//! Edges and captures in tables: what sources, sinks, shelves and pages do, real files, and whole captures.
//!
//! Rows say what no clause says, or show what a definition means: their values come from the formats and from the bytes.
//! These tests stand in a crate of their own because a crate is proved twice where it has tests, once with them and once
//! without. They call public functions alone. What is called often goes through a function that is generic in the
//! trait: the trait's clauses are short, and those of the objects in memory are long.
#![tactic(auto)]

#[cfg(test)]
mod captures;
#[cfg(test)]
mod edges;
#[cfg(test)]
mod pages;
#[cfg(test)]
mod real_files;
#[cfg(test)]
mod shelves;
#[cfg(test)]
mod written_captures;
