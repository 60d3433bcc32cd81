//! Numbers in network order, at places of a frame.
ghost use Rattle.std.specs.Prelude.{◌≡◌, ◌+◌, ◌≤◌, length, drop};
ghost use Rattle.packet_headers.specs.Fields.{number_at};

use byteorder::{BigEndian, ByteOrder};

/// The bytes behind the first `count`.
#[inline]
pub fn behind(bytes: &[u8], count: usize) -> &[u8]
    requires { count ≤ length bytes.now }
    ensures { result.now ≡ drop count bytes.now }
{
    &bytes[count..]
}

/// The number in the byte at `from`.
#[inline]
#[tactic(auto, unfolding(crate::specs::Fields::number_at))]
pub fn u8_at(bytes: &[u8], from: usize) -> u8
    requires { from + 1 ≤ length bytes.now }
    ensures { result ≡ number_at from 1 bytes.now }
{
    behind(bytes, from)[0]
}

/// The number in the two bytes from `from` on.
#[inline]
#[tactic(auto, unfolding(crate::specs::Fields::number_at))]
pub fn u16_at(bytes: &[u8], from: usize) -> u16
    requires { from + 2 ≤ length bytes.now }
    ensures { result ≡ number_at from 2 bytes.now }
{
    BigEndian::read_u16(behind(bytes, from))
}

/// The number in the three bytes from `from` on.
#[inline]
#[tactic(auto, unfolding(crate::specs::Fields::number_at))]
pub fn u24_at(bytes: &[u8], from: usize) -> u32
    requires { from + 3 ≤ length bytes.now }
    ensures { result ≡ number_at from 3 bytes.now }
{
    BigEndian::read_u24(behind(bytes, from))
}

/// The number in the four bytes from `from` on.
#[inline]
#[tactic(auto, unfolding(crate::specs::Fields::number_at))]
pub fn u32_at(bytes: &[u8], from: usize) -> u32
    requires { from + 4 ≤ length bytes.now }
    ensures { result ≡ number_at from 4 bytes.now }
{
    BigEndian::read_u32(behind(bytes, from))
}

/// The number in the six bytes from `from` on.
#[inline]
#[tactic(auto, unfolding(crate::specs::Fields::number_at))]
pub fn u48_at(bytes: &[u8], from: usize) -> u64
    requires { from + 6 ≤ length bytes.now }
    ensures { result ≡ number_at from 6 bytes.now }
{
    BigEndian::read_u48(behind(bytes, from))
}

/// The number in the sixteen bytes from `from` on.
#[inline]
#[tactic(auto, unfolding(crate::specs::Fields::number_at))]
pub fn u128_at(bytes: &[u8], from: usize) -> u128
    requires { from + 16 ≤ length bytes.now }
    ensures { result ≡ number_at from 16 bytes.now }
{
    BigEndian::read_u128(behind(bytes, from))
}
