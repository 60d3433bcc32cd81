//! The actions of a rule, and what becomes of a frame.
//!
//! A rule has a list of actions, which are performed in order on each frame that it takes. An action of one of the kinds
//! `Queue`, `Rss`, `Drop` and `Jump` is a fate: it says where the frame goes. `Queue` delivers it to an Rx queue, `Rss` to one
//! that a hash chooses, `Drop` ends it, and `Jump` goes on with the rules of a later group. `Mark` gives the frame a number,
//! `Count` counts it, and `Set` edits a field of its headers. `Indirect` stands for an action that several rules share, by its
//! id. `Void` does nothing, and stands where a list has a gap.
//!
//! So the actions `void / jump group 3 / end` are
//!
//! ```text
//! [Void, Jump(3)]
//! ```
//!
//! and the verdict on a frame that went by the rules 4 and 9 to queue 2 is
//!
//! ```text
//! Verdict { fate: Queue(2), mark: None, hash: None, path: [4, 9] }
//! ```
//!
//! **The hash** is Toeplitz's, as in Microsoft's RSS: the exclusive or, over the bits of the input that are set, of the 32 bits of
//! a key from that bit on (`specs/Hash`). The naive way goes bit by bit, 96 steps for the addresses and ports of IPv4. Here a
//! table has the hash of each half byte at each place, and [`toeplitz`] takes the exclusive or of 24 of its words: the hash of
//! an input is the exclusive or of those of its parts. What of a frame is hashed, and which queue the hash chooses, stands in
//! `specs/Spread`; [`rss_queue`] takes it from the key, without writing the input down.
//!
//! The model: an action is plain data, and a list of actions is a list. `specs/Kinds` has the kind of an action and which
//! kinds are fates. Which values an action may have depends on the port and on the rule: that is the part of the crates
//! above, as is what actions do to a frame.
#![tactic(auto)]

mod action;
mod halves;
mod hash;
mod rss;
mod spread;
mod verdict;

pub use action::{Action, ActionKind, Actions, MAX_ACTIONS};
pub use hash::toeplitz;
pub use rss::{ALL_RSS_TYPES, MAX_RSS_QUEUES, Rss};
pub use spread::rss_queue;
pub use verdict::{Fate, MAX_PATH, Verdict};
