//! Rules: when one is refused, and where rules send a frame.
//!
//! A user asks for a rule by its attributes (group, priority, direction), a pattern and a list of actions. [`validate`]
//! answers the first fault, or the [`Rule`] that was asked for, ready to be matched. So of
//!
//! ```text
//! group 16 ingress pattern eth / udp / end actions drop / queue index 0 / end
//! ```
//!
//! the first fault is the group, which is out of range; with group 1 it is item 1, which doesn't follow the item before
//! it; and with the pattern `udp / end` it is action 1, the second fate.
//!
//! The plain way to find the first fault is to write all faults in one list and take its head, and that is the definition
//! (`specs/Faults`). The faults of the attributes come first, then those of the pattern, item by item from the left,
//! then those of the actions, action by action. The code stops at the first one and makes no list.
//!
//! An action is judged in this order: it stands for a shared action that isn't in effect; its value is out of its range; it
//! edits a header that no item in front of VXLAN names; it is a second fate, where a shared action counts as its kind; it names a
//! counter, or a shared action, a second time.
//!
//! `specs/Best` and `specs/Walk` have what rules do to frames. A frame begins in group 0. Of the rules of a group that
//! match it, that with the lowest priority number takes it, and among equals the one that took effect earlier. Its actions
//! are performed in order, each on one record of what the walk carries, and its fate ends the walk or sends the frame on to
//! a later group. So a walk meets at most 16 groups ([`more_visits_change_nothing`]). [`classify`] is the walk in code, for
//! all who keep the rules in effect in their own ways and find the best of a group ([`FlowsInEffect`]).
//!
//! A COUNT names the counter of its rule. Rules can share an action by an id (`specs/Shared`): it is performed with the value
//! that it has then, and a COUNT there names the counter of the id. Counters are kept by the crates above; what a frame names
//! is `counters_of`.
//!
//! A mark stays until another takes its place. An edit changes the layers for all that comes behind it: a hash, and the match
//! in a later group. No header is found anew. The code walks over the key as it came, and makes a copy of its own only where an
//! edit stands.
//!
//! What packets see changes in steps (`specs/Changes`): a rule takes effect, or goes, and so on. **Lawful changes** (`specs/Lawful`)
//! are those that a port makes: behind each of them all rules and shared values are valid on the port, and each rule names only
//! shared actions that are in effect, with one fate at most. A rule that takes effect has an id that none has. A rule is large,
//! so a change shares it with all who keep it.
//!
//! The model: a rule is plain data, with the test that its pattern makes. Nothing here takes memory.
#![tactic(auto)]

mod change;
mod counter;
mod fault;
mod known;
mod laws;
mod limits;
mod rule;
mod spec;
mod validation;
mod walk;

pub use change::Change;
pub use counter::{Count, Counter};
pub use fault::{Cause, ErrorType, Fault, TplFault};
pub use known::Known;
pub use laws::{
    changes_keep_what_may_be_in_effect, counters_are_few, counters_are_named_by_the_path,
    lawful_changes_come_in_parts, more_visits_change_nothing,
};
pub use limits::Limits;
pub use rule::Rule;
pub use spec::{Attr, RuleSpec};
pub use validation::{
    action_fault, attr_fault, direction_fault, has_count, has_shared, is_bad_value, is_count,
    validate,
};
pub use walk::{FlowsInEffect, classify};
