//! Addresses as they are written: groups of digits between separators.
ghost use Rattle.std.specs.Prelude.{◌≡◌, ◌+◌, ◌*◌, ◌-◌, ◌<◌, ◌≤◌, ◌^◌, [], IfSome, length, option_map};
ghost use Rattle.rule_words.specs.Address as spec;
ghost use Rattle.rule_words.specs.Address.{pieces, groups_read, side_groups, sides_from, factor_of, most_groups};

use crate::number::{decimal_number, number_of_digits};

/// The kinds of address.
#[derive(Clone, Copy)]
pub(crate) enum Address {
    /// A MAC address of 48 bits.
    Mac,
    /// An IPv4 address of 32 bits.
    Ip4,
    /// An IPv6 address of 128 bits.
    Ip6,
}

impl Address {
    /// What stands between two groups.
    fn separator(self) -> u8
        ensures { result ≡ spec.separator_of self }
    {
        match self {
            Address::Mac => b':',
            Address::Ip4 => b'.',
            Address::Ip6 => b':',
        }
    }

    /// How many groups a whole address has.
    fn most_groups(self) -> usize
        ensures { result ≡ spec.most_groups self }
    {
        match self {
            Address::Mac => 6,
            Address::Ip4 => 4,
            Address::Ip6 => 8,
        }
    }

    /// One more than the greatest number of a group.
    fn factor(self) -> u128
        ensures { result ≡ factor_of self }
    {
        match self {
            Address::Mac => 256,
            Address::Ip4 => 256,
            Address::Ip6 => 65_536,
        }
    }

    /// The number of a group.
    fn group(self, text: &[u8]) -> Option<u128>
        ensures value { result ≡ spec.group_of self text.now }
        ensures small { IfSome result (λ n. n < factor_of self) }
    {
        match self {
            Address::Mac => hexadecimal(2, text),
            Address::Ip4 => byte(text),
            Address::Ip6 => hexadecimal(4, text),
        }
    }
}

/// One to so many hexadecimal digits.
fn hexadecimal(most: usize, text: &[u8]) -> Option<u128>
    requires { most ≤ 4 }
    ensures value { result ≡ spec.hexadecimal most text.now }
    ensures small { IfSome result (λ n. n < 16 ^ most) }
{
    if text.len() > most {
        return None;
    }
    number_of_digits(16, text)
}

/// A decimal number of 8 bits.
fn byte(text: &[u8]) -> Option<u128>
    ensures value { result ≡ spec.group_of Address.Ip4 text.now }
    ensures small { IfSome result (λ n. n < 256) }
{
    let value = decimal_number(text)?;
    if value > 255 {
        return None;
    }
    Some(value)
}

/// Groups read: how many, and the number that they make.
#[derive(Clone, Copy)]
struct Groups {
    count: usize,
    value: u128,
}

/// The groups of a text, where they are no more than a whole address has.
fn read_groups(address: Address, text: &[u8]) -> Option<Groups>
    ensures value { result ≡ groups_read address (pieces address text.now) }
    ensures small { IfSome result (λ groups. groups.value < factor_of address ^ groups.count) }
    ensures few { IfSome result (λ groups. groups.count ≤ most_groups address) }
{
    let separator = address.separator();
    let most = address.most_groups();
    let factor = address.factor();
    let mut count: usize = 0;
    let mut value: u128 = 0;
    for group in text.split(|byte| *byte == separator) {
        if count == most {
            return None;
        }
        let number = address.group(group)?;
        count += 1;
        value = value * factor + number;
    }
    Some(Groups { count, value })
}

/// The number of an address.
pub(crate) fn read_address(address: Address, text: &[u8]) -> Option<u128>
    ensures value { result ≡ spec.address_of address text.now }
    ensures small { IfSome result (λ n. n < 2 ^ spec.width_of address) }
{
    if let Address::Ip6 = address {
        if let Some((front, back)) = sides(text) {
            return read_filled(front, back);
        }
    }
    read_whole(address, text)
}

/// The number of an address that has all its groups.
fn read_whole(address: Address, text: &[u8]) -> Option<u128>
    ensures value { result ≡ spec.whole_address address (pieces address text.now) }
    ensures small { IfSome result (λ n. n < 2 ^ spec.width_of address) }
{
    let groups = read_groups(address, text)?;
    if groups.count != address.most_groups() {
        return None;
    }
    Some(groups.value)
}

/// What stands before the first `::`, and what behind it.
fn sides(text: &[u8]) -> Option<(&[u8], &[u8])>
    ensures { option_map (λ sides. (sides.0.now, sides.1.now)) result ≡ sides_from [] text.entry.now }
{
    for i in 0..text.len() {
        if text[i..].starts_with(b"::") {
            return Some((&text[..i], &text[i + 2..]));
        }
    }
    None
}

/// The number of an IPv6 address with these sides of `::`.
fn read_filled(front: &[u8], back: &[u8]) -> Option<u128>
    ensures { result ≡ spec.filled_address (side_groups front.now) (side_groups back.now) }
{
    let high = read_side(front)?;
    let low = read_side(back)?;
    if high.count + low.count >= 8 {
        return None;
    }
    Some(moved_up(high.value, 8 - high.count) + low.value)
}

/// The groups on one side of `::`.
fn read_side(text: &[u8]) -> Option<Groups>
    ensures value { result ≡ groups_read Address.Ip6 (side_groups text.now) }
    ensures small { IfSome result (λ groups. groups.value < 65536 ^ groups.count) }
    ensures few { IfSome result (λ groups. groups.count ≤ 8) }
{
    if text.is_empty() {
        return Some(Groups { count: 0, value: 0 });
    }
    read_groups(Address::Ip6, text)
}

/// The number with so many groups of 0 behind it.
fn moved_up(value: u128, groups: usize) -> u128
    requires few { groups ≤ 8 }
    requires small { value < 65536 ^ (8 - groups) }
    ensures { result ≡ value * 65536 ^ groups }
{
    let mut moved = value;
    for _ in 0..groups {
        moved *= 65_536;
    }
    moved
}
