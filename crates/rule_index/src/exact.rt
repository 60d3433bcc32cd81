//! When a digest tells all numbers that are in it.
ghost use Rattle.std.specs.Prelude.{◌≡◌, ◌≤◌, ◌<◌, ◌^◌, length, IfSome, IsTrue};
ghost use Rattle.rule_index.specs.Exact.{raised, most_fields, AreExact, IsWithin, AreWithin};

use pattern_items::Fields;

/// The greatest digest with one more number, where it is below 2^128.
#[tactic(auto, unfolding(crate::specs::Exact::raised))]
fn raised(most: u128, mask: u128) -> Option<u128>
    ensures { IfSome result (λ more. more ≡ raised most mask) }
{
    let Some(product) = most.checked_mul(mask) else {
        return None;
    };
    let Some(sum) = product.checked_add(most) else {
        return None;
    };
    sum.checked_add(mask)
}

/// The greatest digest with the numbers of one more item, where it is below 2^128.
fn most_fields(masks: &Fields, most: u128) -> Option<u128>
    ensures { IfSome result (λ more. more ≡ most_fields masks.now most) }
{
    let Some(most) = raised(most, masks.v[0]) else {
        return None;
    };
    let Some(most) = raised(most, masks.v[1]) else {
        return None;
    };
    let Some(most) = raised(most, masks.v[2]) else {
        return None;
    };
    let Some(most) = raised(most, masks.v[3]) else {
        return None;
    };
    let Some(most) = raised(most, masks.v[4]) else {
        return None;
    };
    raised(most, masks.v[5])
}

/// Whether digests by these masks are exact.
pub(crate) fn are_exact(masks: &[Fields]) -> bool
    ensures { IsTrue result → AreExact masks.now }
{
    let mut most: u128 = 0;
    for fields in masks {
        let Some(more) = most_fields(fields, most) else {
            return false;
        };
        most = more;
    }
    true
}

/// Whether each number is at most its mask.
fn is_within(masks: &Fields, numbers: &Fields) -> bool
    ensures { IsTrue result → IsWithin masks.now numbers.now }
{
    for field in 0..6 {
        if numbers.v[field] > masks.v[field] {
            return false;
        }
    }
    true
}

/// The same of several items.
#[tactic(auto, using(crate::proofs::Lists::within_more, crate::proofs::Lists::within_end))]
pub(crate) fn are_within(masks: &[Fields], numbers: &[Fields]) -> bool
    requires { length masks.now ≡ length numbers.now }
    ensures { IsTrue result → AreWithin masks.now numbers.now }
{
    for place in 0..masks.len() {
        if !is_within(&masks[place], &numbers[place]) {
            return false;
        }
    }
    true
}
