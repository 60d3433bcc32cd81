//! Frames to IPv4 addresses, and the items that ask for them.
//!
//! A test of many rules needs frames that they tell apart. The simplest is the address that a frame goes to: a rule asks for one
//! (`asks_for`), and the headers of a frame to any address are one call away (`key_to`).
//!
//! An address is a number, as `u32::from_be_bytes` makes it of its four bytes. Only tests and benchmarks use this crate. It has none
//! itself, so it is proved once.
#![tactic(auto)]

ghost use Rattle.std.specs.Prelude.{◌≡◌, ◌≤◌, ◌++◌, length, take, drop};
ghost use Rattle.packet_headers.specs.Layers.{layers};
ghost use Rattle.byteorder.specs.Endian.{big_bytes};
ghost use Rattle.test_addresses.specs.Items.{for_address};

use packet_headers::{ItemKind, Key, parse};
use pattern_items::{Fields, Item};

/// Writes where an IPv4 frame without a tag goes.
fn send_to(frame: &mut [u8], address: u32)
    requires { 34 ≤ length frame.old }
    ensures { frame.new ≡ take 30 frame.old ++ (big_bytes 4 address ++ drop 34 frame.old) }
{
    frame[30..34].copy_from_slice(&address.to_be_bytes());
}

/// The headers of an IPv4 frame without a tag that goes to this address.
pub fn key_to(frame: &[u8; 60], address: u32) -> Key
    ensures { result ≡ layers (take 30 frame.now ++ (big_bytes 4 address ++ drop 34 frame.now)) }
{
    let mut frame = *frame;
    send_to(&mut frame, address);
    parse(&frame)
}

/// `ipv4 dst is` an address.
pub fn asks_for(address: u32) -> Item
    ensures { result ≡ for_address address }
{
    Item {
        kind: ItemKind::Ipv4,
        given: Some(Fields {
            v: [0, 0, 0, 0, u128::from(address), 0],
        }),
        last: None,
        mask: Some(Fields {
            v: [0, 0, 0, 0, 0xffff_ffff, 0],
        }),
    }
}
