//! Pattern templates, actions templates, template tables and the slots of tables.
//!
//! A user makes templates once, and tables that name them. A rule that is enqueued for a table names two of the table's templates
//! by their indexes there, and fills them in; [`Templates::bind`] makes it a whole rule. A table is made for a number of rules,
//! and takes all memory for their slots when it is made:
//!
//! ```text
//! create_table(Some(1), group 1, 64, &[1], &[1])      a table of 64 free slots
//! reserve_slot(1, 7)                                  63: the rule 7 was enqueued
//! settle(1, rule 7)                                   63: it took effect
//! free_slot(1, 7)                                     64: it was destroyed, and comes back
//! ```
//!
//! A template that a table names, and a table with a taken slot, can't be destroyed. An object without a given id gets the
//! least one that isn't in use. So between calls each template that a table names is there.
//!
//! The model: templates and tables are plain lists by id, in the order in which they were made (`specs/TemplatesView`). A table has
//! the attributes of its rules, the ids of its templates, its number of rules, its slots as a list of rule ids, each reserved or
//! settled with its rule, and the greatest id for which it ever reserved a slot (`specs/TableView`, `specs/Slots`). `specs/Refusals`
//! has the faults of each call as one list whose head counts, and `specs/Bound` the rule that is bound.
//!
//! The plain way to keep slots is a list, and so they are kept, each settled rule shared with its caller. As ids rise, the list
//! is in the order of the reservations. Only the three calls that make something take memory. Each call that makes or ends
//! something has a judgement beside it, so that a caller can tell the answer before it acts.
#![tactic(auto)]

mod end;
mod making;
mod naming;
mod slots;
mod table;
mod tables;
mod templates;

pub use table::MAX_TEMPLATES;
pub use templates::Templates;
