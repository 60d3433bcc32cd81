//! The words of a rule.
//!
//! A rule is written as a list of words: attributes, the items of a pattern, and actions, as in
//!
//! ```text
//! group 1 ingress pattern eth / ipv4 src is 10.1.2.3 / end actions queue index 1 / end
//! ```
//!
//! Each reader takes one of these lists from the front of some words and gives what it says, with the words behind it:
//! [`read_attributes`] up to a word that the caller names, and [`read_directions`] where no group and no priority may stand,
//! [`read_items`] and [`read_actions`] up to their `end`, [`read_action`] one action up to its `/`, and [`read_ids`] ids that
//! stand behind one word each; [`read_masks`] reads the mask list of an actions template up to its `end`. Where the words don't fit, or a value is wider than its field, there
//! is none. [`first_number`] reads one number, [`flag_and_rest`] one word that switches something on or off, and
//! [`meaning`] looks a word up in a table.
//!
//! - A number is `0`, decimal digits without a leading zero, or `0x` and hexadecimal digits in either case.
//! - A value of an item is a number of its field's width, or an address as RFC 4291 and the field's kind have them. The
//!   words of fields and their widths are those of the field table in `packet_headers`.
//! - A later word on one thing replaces an earlier one, and what isn't named is 0. `indirect` alone needs its id, right
//!   behind it.
//!
//! The model: words are lists of bytes. A list is read turn by turn up to its ending word, and a turn is a definition by
//! cases on words: what the first of them say, and what is left. `specs/Turns` says how turns make a list, and it is the
//! same for attributes, items, the fields of an item, actions and the values of an action; a list inside a list, up to an
//! `end` of its own, is a turn that reads up to that, as the lists of RSS are. So a word more is a row of a table and a
//! case that says what its value does. `specs/Attributes`, `Items`, `Actions`, `RssLists`, `Masks` and `Ids` have the turns,
//! `specs/FieldWords`, `Relations`, `Value`, `Number` and `Address` what stands in one, and `specs/Vocabulary` the look-up.
//!
//! `specs/Written` has the grammar in its own order, and the four laws of `written.rt` say that what is written by it is
//! read as what it says; for items and actions also that what is read was written so.
//!
//! The code is one loop, in `turns.rt`, over a trait whose turn each type says; it counts words and copies none. Nothing
//! here takes memory or is kept between calls. Whether a rule has a fault isn't asked here.
#![tactic(auto)]

mod actions;
mod address;
mod attributes;
mod field_words;
mod flags;
mod ids;
mod items;
mod masks;
mod number;
mod relations;
mod rss_lists;
mod turns;
mod value;
mod vocabulary;
mod written;

pub use actions::{read_action, read_actions};
pub use attributes::{read_attributes, read_directions};
pub use flags::flag_and_rest;
pub use ids::{IdList, MAX_IDS, read_ids};
pub use items::read_items;
pub use masks::read_masks;
pub use number::{first_number, number_of_bits};
pub use vocabulary::meaning;
pub use written::{
    written_actions_are_read, written_attributes_are_read, written_ids_are_read,
    written_items_are_read,
};
