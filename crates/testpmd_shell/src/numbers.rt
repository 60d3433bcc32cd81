//! The numbers that the program's words give.
ghost use Rattle.std.specs.Prelude.{◌≡◌, ◌≤◌, ◌<◌, ◌^◌, min, option_copied, IfSome};
ghost use Rattle.std.specs.List.{list_all};
ghost use Rattle.testpmd_shell.specs.Numbers.{is_digit, digits_value, is_number, number_or, queues_of, cores_of, rules_of};

/// The most Rx queues.
const MAX_QUEUES: u32 = 16;

/// The most workers.
const MAX_CORES: u32 = 16;

/// The most rules that may be in effect, and how many may be where the words don't say.
const MAX_RULES: u32 = 65_536;

const USUAL_RULES: u32 = 4_096;

/// The value of decimal digits, or the limit where it is above.
fn capped_value(digits: &[u8], limit: u32) -> u32
    requires { limit < 2 ^ 24 }
    ensures { result ≡ min (digits_value digits.now) limit }
{
    let mut number: u32 = 0;
    for digit in digits {
        number = (number * 10 + u32::from(digit.saturating_sub(b'0'))).min(limit);
    }
    number
}

/// Whether a text is a number: one to six decimal digits.
fn is_number(text: &[u8]) -> bool
    ensures { result ≡ is_number text.now }
{
    if text.is_empty() {
        return false;
    }
    if text.len() > 6 {
        return false;
    }
    all_digits(text)
}

fn all_digits(text: &[u8]) -> bool
    ensures { result ≡ list_all is_digit text.now }
{
    for byte in text {
        if *byte < b'0' {
            return false;
        }
        if *byte > b'9' {
            return false;
        }
    }
    true
}

/// The number from `least` to `most` that is given, or another where none is.
fn number_or(other: u32, least: u32, most: u32, text: Option<&str>) -> Option<u32>
    requires other { (least ≤ other) × (other ≤ most) }
    requires most { most < 2 ^ 20 }
    ensures number { result ≡ number_or other least most (option_copied text.entry) }
    ensures range { IfSome result (λ n. (least ≤ n) × (n ≤ most)) }
{
    let Some(text) = text else {
        return Some(other);
    };
    if !is_number(text.as_bytes()) {
        return None;
    }
    let number = capped_value(text.as_bytes(), most + 1);
    if number < least {
        return None;
    }
    if number > most {
        return None;
    }
    Some(number)
}

/// The number of Rx queues.
pub(crate) fn queues(text: Option<&str>) -> Option<u8>
    ensures number { result ≡ queues_of (option_copied text.entry) }
    ensures range { IfSome result (λ rxq. (1 ≤ rxq) × (rxq ≤ 16)) }
{
    let number = number_or(1, 1, MAX_QUEUES, text)?;
    Some(number as u8)
}

/// The number of workers.
pub(crate) fn cores(text: Option<&str>) -> Option<u8>
    ensures number { result ≡ cores_of (option_copied text.entry) }
    ensures range { IfSome result (λ cores. cores ≤ 16) }
{
    let number = number_or(1, 0, MAX_CORES, text)?;
    Some(number as u8)
}

/// How many rules may be in effect.
pub(crate) fn rules(text: Option<&str>) -> Option<u32>
    ensures number { result ≡ rules_of (option_copied text.entry) }
    ensures range { IfSome result (λ n. (1 ≤ n) × (n ≤ 65536)) }
{
    number_or(USUAL_RULES, 1, MAX_RULES, text)
}
