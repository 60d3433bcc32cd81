//! Edits of a frame's headers: an address, a port, a TTL or a VLAN id is set, or a TTL falls by one.
//!
//! A rule may change the headers of the frames that it matches. A later rule then matches the changed
//! fields, and the frame goes out with changed bytes. So there are two edits, of the key that is
//! matched (`apply_key`) and of the bytes (`apply_frame`). For a frame of UDP from 10.1.2.3 with
//! TTL 64
//!
//! ```text
//! apply_key(&mut key, Edit::DecTtl)             // the IPv4 layer of the key has TTL 63
//! apply_frame(&mut frame, &key, Edit::DecTtl)   // byte 22 is 63, and bytes 24 and 25 are 63b7
//! ```
//!
//! Both change the first header of the needed kind in front of VXLAN, or nothing where there is none.
//! They agree (`edits_agree`): where the layers of a key show a frame's bytes, as those of `parse` do,
//! the edited layers show the edited bytes. So nobody has to parse an edited frame again.
//!
//! **Checksums.** The naive way to keep the checksums of IPv4, TCP and UDP right is to write the field
//! and to sum up the whole header or packet again. It reads bytes that didn't change, it needs the
//! whole packet, of which a frame may hold a part, and it makes a wrong checksum right, which hides
//! the damage from the receiver. Here a checksum is mended for each 16-bit word that changed from m
//! to m', in wire order, to `~(~checksum + ~m + m')` in one's complement addition (RFC 1624). That
//! leaves the sum over the header, or over pseudo-header and packet, as it was: right stays right,
//! and wrong stays wrong by as much (`ipv4_sum_is_kept`, `transport_sum_is_kept`). The tests sum up
//! afresh by a plain loop beside it.
//!
//! The IPv4 checksum covers the TTL and the addresses, the checksum of TCP and UDP the addresses of
//! IPv4 and IPv6 and the ports. A UDP checksum of 0 says that none was made, and stays; one that
//! comes out as 0 is written as ffff. A word that keeps its value changes no checksum.
//!
//! **Between calls** a key's headers lie in the frame, in rising order and without overlap
//! (`LieWithin` of packet_headers): `parse` makes them so, and no edit moves a header. Nothing here
//! takes memory or copies a frame. Length fields aren't looked at, and no header is found anew: a port
//! that is set to VXLAN's makes no layer.
//!
//! **Definitions.** `specs/Field.antt` has the table of fields, `specs/Layers.antt` the edit of layers,
//! `specs/Checksum.antt` and `specs/Frame.antt` the edit of bytes, and `specs/Shown.antt` and
//! `specs/Right.antt` what the laws speak of.
#![tactic(auto)]

mod bytes;
mod frames;
mod keys;
mod laws;
mod sums;

pub use frames::apply_frame;
pub use keys::apply_key;
pub use laws::{edits_agree, ipv4_sum_is_kept, transport_sum_is_kept};
pub use sums::sum16;
