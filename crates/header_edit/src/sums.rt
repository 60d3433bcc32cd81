//! One's complement sums, and a checksum behind a changed word (RFC 1624).
ghost use Rattle.std.specs.Prelude.{◌≡◌, ◌%◌, length};
ghost use Rattle.header_edit.specs.Checksum.{ones_add, words_of, ones_sum, mended_word, mended, mended_udp, mended_as};

/// One's complement addition of two words.
#[inline]
#[tactic(auto, unfolding(crate::specs::Checksum::ones_add))]
fn ones_add(a: u16, b: u16) -> u16
    ensures { result ≡ ones_add a b }
{
    let (sum, carry) = a.overflowing_add(b);
    sum + carry as u16
}

/// The one's complement sum of the 16-bit words of these bytes in network order, an odd last byte
/// with 0 behind it (RFC 1071).
pub fn sum16(bytes: &[u8]) -> u16
    ensures { result ≡ ones_sum bytes.now }
{
    let mut sum = 0;
    let mut rest = bytes;
    while let [high, low, behind @ ..] = rest {
        sum = ones_add(sum, u16::from_be_bytes([*high, *low]));
        rest = behind;
    }
    if let [last] = rest {
        return ones_add(sum, u16::from_be_bytes([*last, 0]));
    }
    sum
}

/// A checksum after one word that it covers changed (RFC 1624).
#[inline]
#[tactic(auto, unfolding(crate::specs::Checksum::mended_word))]
fn mended_word(checksum: u16, old: u16, new: u16) -> u16
    ensures { result ≡ mended_word checksum old new }
{
    if old == new {
        return checksum;
    }
    !ones_add(ones_add(!checksum, !old), new)
}

/// What a checksum of 0 says.
#[derive(Clone, Copy)]
pub enum Zero {
    /// The words of what it covers come to 0, as in IPv4 and TCP.
    IsASum,
    /// None was made, as in UDP.
    SaysNone,
}

/// A checksum after the words of bytes that it covers changed.
pub fn mended_as(zero: Zero, checksum: u16, old: &[u8], new: &[u8]) -> u16
    requires even { length old.now % 2 ≡ 0 }
    requires same { length new.now ≡ length old.now }
    ensures { result ≡ mended_as zero checksum (words_of old.now) (words_of new.now) }
{
    match zero {
        Zero::IsASum => mended(checksum, old, new),
        Zero::SaysNone => mended_udp(checksum, old, new),
    }
}

/// A checksum after the words of bytes that it covers changed, word after word.
fn mended(checksum: u16, old: &[u8], new: &[u8]) -> u16
    requires even { length old.now % 2 ≡ 0 }
    requires same { length new.now ≡ length old.now }
    ensures { result ≡ mended checksum (words_of old.now) (words_of new.now) }
{
    let mut after = checksum;
    for i in 0..old.len() / 2 {
        let place = 2 * i;
        after = mended_word(
            after,
            u16::from_be_bytes([old[place], old[place + 1]]),
            u16::from_be_bytes([new[place], new[place + 1]]),
        );
    }
    after
}

/// The same of a UDP checksum, where 0 says that none was made.
#[tactic(auto, unfolding(crate::specs::Checksum::mended_udp))]
fn mended_udp(checksum: u16, old: &[u8], new: &[u8]) -> u16
    requires even { length old.now % 2 ≡ 0 }
    requires same { length new.now ≡ length old.now }
    ensures { result ≡ mended_udp checksum (words_of old.now) (words_of new.now) }
{
    if checksum == 0 {
        return 0;
    }
    let mended = mended(checksum, old, new);
    if mended == 0 {
        return u16::MAX;
    }
    mended
}
