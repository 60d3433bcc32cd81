//! What callers ask of a port, what it answers, and the entries of its history.
//!
//! Its model in one sentence: all of it is plain data, which contracts see as it is.
//!
//! Scripts are read into calls, a port answers them, a history lists them with the frames that passed, and texts are made of
//! them. So those who read or print stand on these words alone, and needn't know how a port decides.
//!
//! A call of a large kind (a rule, a list, a value) is shared by the program and the history that both keep it, and contracts see
//! it as what is shared. A reply is small too: what is long in it lies in a box that is shared.
//!
//! The definitions in `specs/` tell what a list of entries says of its callers and frames (`Entries`), what its totals are (`Totals`),
//! and what a row of a list of rules is (`Rows`). What replies are due is said by `port_state`.
#![tactic(auto)]

mod call;
mod caller;
mod entry;
mod parcel;
mod reply;
mod rows;

pub use call::{ActionLists, At, BadKind, Call, Op, RuleLists, TableTemplates};
pub use caller::Caller;
pub use entry::{Entry, EntryView};
pub use parcel::Parcel;
pub use reply::{OpKind, Reply, Totals};
pub use rows::{ListRow, RuleList};
