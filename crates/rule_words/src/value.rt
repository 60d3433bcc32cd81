//! Values behind a word.
ghost use Rattle.std.specs.Prelude.{◌≡◌, ◌≤◌, ◌<◌, ◌^◌, IfSome};
ghost use Rattle.rule_words.specs.Value.{width_of, value_of};

use crate::address::{Address, read_address};
use crate::number::number_of_bits;

/// How a value is written.
#[derive(Clone, Copy)]
pub(crate) enum Form {
    /// As a number of so many bits.
    Number(u8),
    Address(Address),
}

/// The value that a word is.
pub(crate) fn read_value(form: Form, word: &[u8]) -> Option<u128>
    requires { width_of form ≤ 128 }
    ensures value { result ≡ value_of form word.now }
    ensures small { IfSome result (λ value. value < 2 ^ width_of form) }
{
    match form {
        Form::Number(bits) => number_of_bits(bits, word),
        Form::Address(address) => read_address(address, word),
    }
}
