//! A copy of what packets see, which catches up with changes, classifies frames and edits their bytes.
//!
//! Rules change while frames pass. Whoever classifies frames beside the one who changes rules needs rules of its own that stay
//! as they are until it looks again. So each change of what packets see is kept in a list, and a replica is at a number of
//! them, its version:
//!
//! ```text
//! let mut replica = Replica::new(alloc, limits)?;    // at version 0, without rules
//! replica.catch_up(&changes[..])?;                   // [a rule that edits the source, isolated mode on]
//! replica.version()                                  // 2
//! let key = parse(&frame);
//! let verdict = replica.classify(&key);              // by the rules of version 2
//! replica.rewrite(&key, &mut frame);                 // the frame as it goes out
//! ```
//!
//! **Model.** Contracts see the port's limits, the version, and what packets see at it (`Flows`): the rules in effect in their
//! order, the values that they share, and whether a frame that no rule takes is dropped. The plain way to say what a replica
//! is after changes is to fold them (`specs/Caught`), and the code does just that, one change after the other. So two replicas
//! that had the same changes answer the same, in however many calls they had them (`changes_come_in_parts`).
//!
//! Changes come as a port makes them (`flow_rules/specs/Lawful`). So no change is refused here, and only want of memory keeps a
//! replica back: it then stands behind the changes that were applied, and may go on from there. A rule lies in memory once, and
//! a replica shares it with whoever made the change.
//!
//! **Bytes.** `specs/Rewritten` has the bytes of a frame behind its walk: each edit of the walk is done on the layers and on
//! the bytes, one behind the other; the layers then are those with which the walk ended
//! (`bytes_are_edited_as_the_layers_were`). The edits of a walk are those of the rules on its path, in order, since no action that
//! rules share is an edit (`edits_are_those_of_the_path`). So who knows a frame's verdict has it edited by `rewrite_by`, which
//! looks each rule of the path up and does its edits: no rule is matched again, and no header is found anew.
//!
//! Rules are kept behind `rule_list`, which knows how the best of a group is found. `classify` and `rewrite` take no memory.
//!
//! Not here: which changes a call makes, and who hands them out.
#![tactic(auto)]

mod current_flows;
mod laws;
mod replica;
mod rewriting;
mod rule_list;
mod shared_actions;

pub use laws::{
    bytes_are_edited_as_the_layers_were, changes_come_in_parts, edits_are_those_of_the_path,
};
pub use replica::Replica;
