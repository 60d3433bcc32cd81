//! The ids of objects that users make: indirect actions, templates and tables.
//!
//! A user gives an object an id, or leaves the choice, and then it gets the least id that isn't in use. So behind the objects
//! 0, 1 and 3 the next one without an id is 2, and the one after it 4. An id in use is refused, and so is one more object
//! than there may be of its kind.
//!
//! The model: objects by id are the list of their ids and values, in the order in which they were made, as an `IndexMap` keeps
//! it; [`least_unused`] and [`id_fault`] are functions of that list (`specs/Ids`). The plain way looks an id up in the list for
//! each number from 0 on; here it is looked up in the map. As n objects can't use the n + 1 ids from 0 to n, there are at
//! most n + 1 look-ups. Nothing but [`insert`] takes memory.
//!
//! `proofs/Alike` tells, for callers to cite, that lists which use the same ids give a new object the same id and the same faults.
#![tactic(auto)]

mod ids;

pub use ids::{id_fault, id_for, insert, least_unused};
