//! The actions that rules share by an id, and counters.
//!
//! A rule can name a shared action in the place of one of its own. Its value is kept once, so an update changes what every rule
//! that names it does. Queue, RSS, mark and COUNT can be shared. So after
//!
//! ```text
//! flow indirect_action 0 create action_id 5 ingress action queue index 1 / end
//! flow create 0 ingress pattern eth / end actions indirect 5 / end
//! flow indirect_action 0 update 5 action queue index 2 / end
//! ```
//!
//! the rule sends its frames to queue 2, and a destroy of 5 is refused until the rule is gone.
//!
//! The model: [`Indirects`] is a list of ids with what stands there ([`SharedAction`]), no id twice. A new action goes
//! behind the others. One that is created in an operation queue is held: its id is in use and it has one of the 1,024 places, but
//! rules and all calls but `activate` and `remove` see nothing there. Once it takes effect it goes behind the others, so
//! those in effect stand in the order in which they took effect, and what rules see is just their values, in order
//! (`values_in_effect`, and [`rules_see_the_values_in_effect`]).
//!
//! The plain way to find the first refusal of a call is to write all of them in one list and take its head, and that is the
//! definition (`specs/Refusals`); the code stops at the first. A call can be judged without being made (`create_fault`,
//! `update_fault`, `destroy_fault`): who has to write down a reply before anything changes judges first, and what it carries
//! out then can't fail. An update that an operation queue shall take is judged by its value alone ([`queued_update_fault`]). Only
//! a creation takes memory, and `reserve` takes it in advance, for `add`: each call tells what room it leaves.
//!
//! How many rules use an action is what the caller says by `adopt` and `release`, and what it counted is what the caller
//! says by `raise`. No counter can wrap in its bytes: each frame adds one hit and at most 2^32 - 1 bytes, which the
//! types keep, so a caller sees to the hits alone.
//!
//! The list is kept as an `IndexMap`, so a look-up takes the same time whatever the number of actions. `remove`, `destroy` and
//! `activate` shift what stands behind.
//!
//! [`CounterBank`] has counters by their numbers, as a list of counts.
//!
//! The definitions: `specs/Entries` (the list, and what is seen of it), `specs/Effects` (what the calls do), `specs/Refusals`,
//! `specs/Sound` (what holds between calls), `specs/Counts`. Who puts calls into a history, and which rules name which
//! ids, is the business of the crates above. `proofs/Alike` tells, for callers to cite, which lists refuse the same calls.
#![tactic(auto)]

mod bank;
mod indirects;
mod laws;
mod shared_action;

pub use bank::CounterBank;
pub use indirects::{Indirects, queued_update_fault};
pub use laws::{
    each_call_changes_its_own_id, new_values_keep_the_kinds, rules_see_the_values_in_effect,
    values_are_on_the_port,
};
pub use shared_action::SharedAction;
