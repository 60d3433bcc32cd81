//! Histories: generated frames of all kinds of headers through an adapter and back, counters beside a plain fold, and the
//! lines of transcripts in tables.
//!
//! An adapter keeps a frame in a small form where it can, so the frames here have every kind of tags, network and transport
//! header, with VXLAN and without, and go by 0 to 16 rules to a queue or to nowhere. It keeps running numbers for its counters,
//! so what it answers to queries is compared with a fold of all entries, over generated calls and frames. The lines are those of
//! entries made here, since of many replies no script makes one yet. These tests stand in a crate of their own because a crate is
//! proved twice where it has tests. They call public functions alone.
#![tactic(auto)]

#[cfg(test)]
mod counting;
#[cfg(test)]
mod frames;
#[cfg(test)]
mod lines;
