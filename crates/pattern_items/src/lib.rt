//! Patterns: which frames a flow rule speaks of.
//!
//! A pattern is a list of items, as an application writes it for rte_flow: `eth / ipv4 dst is
//! 10.1.2.4 / udp`. An item names a kind of header and may say of each field which numbers fit:
//! `spec`, up to `last`, and compared by `mask`. `compile` refuses a pattern that says nothing
//! sensible, and tells its first fault. Any other pattern it makes ready once, as a `Test`, which
//! is then asked of many frames.
//!
//! ```text
//! let test = compile(&pattern)?;      // eth / ipv4 dst is 10.1.2.4
//! test.matches(&parse(frame));        // true of a frame to 10.1.2.4, with VLAN tags or without
//! test.masked();                      // Some: kinds Eth, Ipv4; masks and values of their fields
//! ```
//!
//! **The plain way** goes over items and layers together, and compares each field as the guide
//! words it: by the mask the layer's number is `spec`, or, where `last` is greater, from `spec` to
//! `last`. A VLAN layer is skipped where the item is of another kind, any other layer there is no
//! match, and so is the end of the layers. The match begins at the first layer of the first item's
//! kind, in the outer headers or at the VXLAN header. `Void` items are ignored. That is what the
//! definitions say (`specs/Guide.antt` of a field, `specs/Matches.antt` of the layers), and what
//! the tests' plain program does.
//!
//! **Why the compiled test answers the same.** All that an item asks of a field is that the number,
//! by a mask, lies from a least to a greatest one, and a mask of 0 asks nothing. So a `Test` holds
//! just these conditions (`specs/Conditions.antt`), and `conditions_are_spec_last_and_mask` states
//! that they are the guide's words. `matches` makes no layer: it walks a key's own headers, and
//! keeps from one to the next how many items have met theirs, which is all that the rest of the
//! match depends on (`specs/Walk.antt`). It reads no field but those of the conditions, stops where
//! no match can come any more, and takes no memory. The walk says nothing of what is done at a
//! header: `walk_key` goes over a key for any `Walker`, so an index makes its digest by it too.
//!
//! **Model.** A pattern is plain data. A test is the list of what its items ask, `Void` left out:
//! that of a pattern is `test_of pattern`, it matches a key exactly where `accepts` says so of the
//! key's layers, and `compile` answers `first_fault pattern` exactly where there is one.
//!
//! **Shapes.** A test in which no field makes a range of numbers asks for one value: `masked` tells
//! the kinds, masks and values, so that an index can hold many such tests of one shape and look a
//! frame up. Which layers a test asks follows from the kinds alone, and it accepts a frame exactly
//! where these layers, by the masks, have the values (`specs/Shape.antt`).
//!
//! **Faults** (`specs/Faults.antt`, `specs/Order.antt`) are judged item by item from the left, and
//! at one item in this order: it may not stand behind the item before it, it has `last` or `mask`
//! without `spec`, or a field's `last`, by the mask, is neither 0 nor as great as its `spec`.
//! Places are counted as written, `Void` included. A pattern with more than 16 items is refused
//! before that.
//!
//! **Between calls** a test's conditions stand in the order of the field table, at most one for
//! each field (`specs/Rising.antt`). What the fields are, and which headers a frame has, is said in
//! `packet_headers`. What a rule does with a frame that matches, and which of several rules is
//! taken, isn't said here.

#![tactic(auto)]

mod compiling;
mod conditions;
mod fault;
mod faults;
mod header;
mod kinds;
mod matching;
mod order;
mod pattern;
mod shape;
mod test;
mod walk;

pub use compiling::compile;
pub use conditions::{conditions_are_spec_last_and_mask, default_mask};
pub use fault::ItemFault;
pub use header::Header;
pub use matching::{is_of_kind, passes};
pub use pattern::{Fields, Item, MAX_ITEMS, Pattern};
pub use shape::Shape;
pub use test::Test;
pub use walk::{Walker, walk_key};
