//! The headers of a frame.
//!
//! A frame is the captured bytes of an Ethernet frame, of any length and content. `parse` finds its
//! headers, in the order of the bytes: Ethernet, up to two VLAN tags, IPv4 or IPv6, TCP or UDP, and
//! behind UDP to port 4789 VXLAN with the headers of one more frame. The first header that doesn't
//! fit ends the list, so there is no refusal: a frame that is cut, damaged or of another protocol
//! just has fewer layers. For 42 bytes of UDP over IPv4 a key tells
//!
//! ```text
//! Eth at 0, Ipv4 at 14, Udp at 34
//! ```
//!
//! and each of these layers has the numbers of its fields.
//!
//! **Model.** A key is a list of layers, each with the offset of its first byte in the frame
//! (`LayerAt`); `parse(frame)` is the list `layers frame`.
//!
//! **The plain way** is the definition itself, in `specs/Layers.antt`: a recursion on the bytes that
//! remain and the type that announces what they are, as the standards have it, which makes a list
//! of layers of six numbers each. A key of this form would take 2,000 bytes and be slow to match. So
//! a `Key` has a place for each header that a frame may have, with its fields in their own widths
//! and its offset in a byte, and needs 240 bytes. `specs/Headers.antt`, `Stack.antt` and `Key.antt`
//! say which layers such a key is, and no two keys are the same layers (`specs/KeyBack.antt`), so
//! nothing is lost. Each reading function is proved to give the layers that the definition gives for
//! the same bytes.
//!
//! **The field table** (`fields_of`, in `fields.rt`, and for proofs in `specs/Fields.antt`) says for
//! each kind of item which fields there are, in which order, with which words, widths, default masks
//! and places. The places are named once, in `places.rt`, from which the readers and the edits take them. The definition
//! of layers reads the table's places, so a header that is read from other
//! bytes than the table says isn't proved.
//!
//! **What holds.** The headers of `parse` lie in the frame, in rising order and without overlap
//! (`LieWithin`): code that edits a frame rests on it. Length fields of IP and UDP, and checksums,
//! aren't looked at. Nothing here takes memory.

#![tactic(auto)]

mod edits;
mod fields;
mod headers;
mod items;
mod keys;
mod numbers;
pub mod places;
mod reading;
mod stacks;

pub use edits::Edit;
pub use fields::{Field, FieldPlace, fields_of};
pub use headers::{Eth, Ipv4, Ipv6, Ipv6Address, Tag, Tcp, Udp, Vxlan};
pub use items::{ItemKind, Layer, LayerAt};
pub use keys::Key;
pub use reading::parse;
pub use stacks::{Network, Stack, Tags, Transport, Tunnel};
