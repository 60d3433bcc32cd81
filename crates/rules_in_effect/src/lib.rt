//! The rules in effect, in the order in which they took effect, each with its table and what its own COUNT has counted.
//!
//! **Model.** Contracts see a list of entries, no two of which have one id, and for how many more there is memory.
//!
//! A rule takes effect behind all others (`push`) and goes by its id (`remove`) or as the earliest (`pop_first`). Frames ask for
//! the best rule of a group and raise its count. Memory is taken ahead, by `reserve`, for so many
//! rules: one that was accepted takes effect without any, so the same call can't fail half done. A `push` takes room for one
//! rule, and nothing else takes any.
//!
//! The order of effect is kept, since among rules of one priority the earlier takes a frame (`best`), and a list of all rules
//! shows it. It isn't the order of ids: a rule may get its id long before it takes effect.
//!
//! The naive answer is a vector of rules: whatever asks for a rule by its id scans it, and a rule that goes moves all behind it.
//! Here each rule lies in a place of a pool (`order`) and stays there; a chain through the places has the order of effect, and a
//! vector by id tells the handle (`index`). So only `best`, `is_used` and `rows` go over all rules. Ids past the end of
//! that vector wait in a list beside it until the next `reserve`, since `push` takes no memory.
//!
//! `specs/Entries` has the words of the contracts, `specs/RulesView` what they see of all rules. `proofs/Distinct` tells what
//! ids do to lists of entries, for callers to cite.
#![tactic(auto)]

mod in_effect;
mod index;
mod order;
mod rules;
mod scan;

pub use in_effect::InEffect;
pub use rules::RulesInEffect;
