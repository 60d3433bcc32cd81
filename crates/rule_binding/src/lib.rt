//! Templates, and the rules that are bound to them.
//!
//! A template fixes what many rules have in common, so that each of them need only be filled in. A pattern template has the
//! kinds of the items in order and which bits of their fields count; an actions template has the kinds of the actions in order
//! and the values that all rules share. A rule is bound to one of each: from its own items it gives the numbers to match, and
//! from its own actions the values that the template leaves open. So with the templates
//!
//! ```text
//! eth / ipv4 dst mask 255.255.255.255 / udp          count / queue index 3 / mark, of which the queue is fixed
//! ```
//!
//! the rule `eth / ipv4 dst spec 10.0.0.7 / udp` with `count / queue / mark id 7` matches the destination 10.0.0.7, and goes to
//! queue 3 with the mark 7, whatever masks and whatever queue it was written with.
//!
//! Items and actions `Void` are ignored in templates and in rules, but places count them, as a list was written.
//!
//! The plain way to bind is to write all faults in one list and take its head, or else to make the bound rule item by item; that
//! is the definition (`specs/Binding`). The code stops at the first fault and makes no list of faults. `specs/Templates` has what
//! a template keeps of the lists that it is made of, and when it is refused; `specs/Difference` says where the kinds of a list first
//! differ from those that are wanted. That one definition serves for items, for actions and for the mask list of an actions template.
//!
//! The model: templates are plain data, and nothing here takes memory. Which templates there are, and the tables that name them, is
//! the part of the crate above.
#![tactic(auto)]

mod binding;
mod difference;
mod masks;
mod template;
mod template_actions;
mod template_items;

pub use binding::bind;
pub use template::{ActionsTemplate, Masks, PatternTemplate, TemplateAction, TemplateItem};
pub use template_actions::{actions_fault, actions_template};
pub use template_items::{pattern_fault, pattern_template};
