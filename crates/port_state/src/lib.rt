//! The state of a port: rules in effect, the actions that they share, templates and tables, and what each call does to them.
//!
//! Its model in one sentence: a state is plain lists, each call has one reply that the state gives, and one state behind it.
//!
//! The problem. A port is asked to create and destroy rules, to share actions, to make templates. Each call is refused for its first
//! reason, or carried out, and whoever keeps a history of all this wants to know that each reply was the one that was due.
//!
//! The naive answer folds the whole history anew at each call. Here the same state is kept with running values: the rules in effect and
//! the shared actions, each with what it has counted. A frame's counters rise by the rules on its path (`raising`).
//!
//! A call is judged first (`judge`: its reply, and what it does), and then carried out; whoever keeps a history makes its entry in between,
//! so that want of memory leaves all as it was. A later command adds a case to `State`, `Changes` and `Reply`; nothing above these words
//! looks inside.
//!
//! The definitions stand in `specs/`: `State` (what calls do), `Changes` (what packets see of that), `Tables` (templates and tables),
//! `Standing` (what a reply depends on), `Reply` (what calls answer) and `Counters`; why calls on shared actions are refused stands in
//! `indirect_counters`, and why those on templates and tables are in `template_tables`: a table's taken slots are those of its rules in
//! effect; what rules do to frames stands in `flow_rules`.
//!
//! Not done here: keeping a history, reading, printing, threads.
#![tactic(auto)]

mod bound;
mod carrying;
mod change_list;
mod count;
mod effect;
mod held;
mod laws;
mod listing;
mod outcome;
mod performing;
mod queue_calls;
mod queues;
mod raising;
mod standing;
mod state;
mod template_calls;
mod templates;

pub use change_list::ChangeList;
pub use effect::{Effect, QueueEffect, RuleEffect, TemplateEffect};
pub use held::{Held, HeldRule};
pub use laws::{
    changes_are_lawful, changes_are_what_packets_see, changes_begin_with_those_of_a_front,
    equal_changes_give_equal_flows, frames_change_nothing,
};
pub use outcome::{Judged, judge};
pub use standing::Standing;
pub use state::State;
