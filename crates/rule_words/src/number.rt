//! The numbers of the grammar.
ghost use Rattle.std.specs.Prelude.{◌≡◌, ◌+◌, ◌-◌, ◌*◌, ◌<◌, ◌≤◌, ◌^◌, IfSome, drop, length, map, option_map};
ghost use Rattle.rule_words.specs.Number as spec;
ghost use Rattle.rule_words.specs.Number.{number_of, number_in, decimal_number, below};

/// The number that a word is, where it is one and has at most so many bits.
pub fn number_of_bits(bits: u8, word: &[u8]) -> Option<u128>
    requires { bits ≤ 128 }
    ensures value { result ≡ spec.number_of_bits bits word.now }
    ensures small { IfSome result (λ number. number < 2 ^ bits) }
{
    let value = number_of_128_bits(word)?;
    if value > ones(bits) {
        return None;
    }
    Some(value)
}

/// The number of so many ones in binary.
pub(crate) fn ones(bits: u8) -> u128
    requires { bits ≤ 128 }
    ensures { result ≡ 2 ^ bits - 1 }
{
    if bits == 0 {
        return 0;
    }
    u128::MAX >> (128 - bits)
}

fn number_of_128_bits(word: &[u8]) -> Option<u128>
    ensures { result ≡ below (2 ^ 128) (number_of word.now) }
{
    match word.strip_prefix(b"0x") {
        Some(digits) => number_of_digits(16, digits),
        None => decimal_number(word),
    }
}

/// The number of decimal digits without a leading zero.
pub(crate) fn decimal_number(word: &[u8]) -> Option<u128>
    ensures { result ≡ below (2 ^ 128) (decimal_number word.now) }
{
    if word.len() > 1 && word[0] == b'0' {
        return None;
    }
    number_of_digits(10, word)
}

/// The number of one or more digits of a base.
pub(crate) fn number_of_digits(base: u32, digits: &[u8]) -> Option<u128>
    requires low { 2 ≤ base }
    requires high { base ≤ 16 }
    ensures { result ≡ below (2 ^ 128) (number_in base digits.now) }
{
    if digits.is_empty() {
        return None;
    }
    let mut value: u128 = 0;
    for digit in digits {
        let next = char::from(*digit).to_digit(base)?;
        value = with_digit(value, base, next)?;
    }
    Some(value)
}

/// The number with one more digit behind it, where it has at most 128 bits.
fn with_digit(value: u128, base: u32, digit: u32) -> Option<u128>
    ensures { result ≡ below (2 ^ 128) (Some (value * base + digit)) }
{
    let moved = value.checked_mul(base as u128)?;
    moved.checked_add(digit as u128)
}

/// The number of so many bits that the first word is, and the words behind it.
pub fn first_number<'w, 'a>(bits: u8, words: &'w [&'a [u8]]) -> Option<(u128, &'w [&'a [u8]])>
    requires { bits ≤ 128 }
    ensures value { option_map (λ read. (read.0, map (λ word. word.now) read.1.now)) result
        ≡ spec.first_number bits (map (λ word. word.now) words.entry.now) }
    ensures small { IfSome result (λ read. read.0 < 2 ^ bits) }
{
    let (word, rest) = words.split_first()?;
    let number = number_of_bits(bits, word)?;
    Some((number, rest))
}

/// The number of so many bits that the first word is.
pub(crate) fn number_in_front(bits: u8, words: &[&[u8]]) -> Option<u128>
    requires { bits ≤ 128 }
    ensures value { option_map (λ number. (number, drop 1 (map (λ word. word.now) words.now))) result
        ≡ spec.first_number bits (map (λ word. word.now) words.now) }
    ensures small { IfSome result (λ number. number < 2 ^ bits) }
    ensures there { IfSome result (λ _. 1 ≤ length words.now) }
{
    let word = words.first()?;
    number_of_bits(bits, word)
}
