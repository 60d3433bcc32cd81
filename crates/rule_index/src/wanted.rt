//! What the table of a rule must be.
ghost use Rattle.std.specs.Prelude.{◌≡◌, true, IsTrue, IfSome};
ghost use Rattle.rule_index.specs.Tables.{IsShapeOf, IsExact, IsEven, own_digest, IsWantedBy};

use crate::digest::mix_all;
use crate::exact::{are_exact, are_within};
use flow_rules::Rule;
use pattern_items::{Shape, Test};

/// What the table of a rule must be, and the digest of the rule's own values there. A rule without a shape is in a list.
#[derive(Drop)]
pub(crate) struct Wanted {
    pub(crate) group: u32,
    pub(crate) priority: u32,
    pub(crate) exact: bool,
    pub(crate) digest: u128,
    pub(crate) shape: Option<Shape>,
}

/// The shape of a test, where its values may be numbers by its masks.
fn shape_within(test: &Test) -> Option<Shape>
    ensures { IfSome result (IsShapeOf test.now) }
{
    let Some(shape) = test.masked() else {
        return None;
    };
    if !are_within(shape.masks.as_slice(), shape.values.as_slice()) {
        return None;
    }
    Some(shape)
}

/// Whether the digests by a shape are exact.
fn is_exact(shape: &Option<Shape>) -> bool
    ensures { IsTrue result → IsExact shape.now }
{
    match shape {
        None => false,
        Some(shape) => are_exact(shape.masks.as_slice()),
    }
}

/// The digest of a shape's own values.
fn own_digest(exact: bool, shape: &Option<Shape>) -> u128
    requires { IsEven shape.now }
    ensures { result ≡ own_digest exact shape.now }
{
    match shape {
        None => 0,
        Some(shape) => mix_all(exact, shape.masks.as_slice(), shape.values.as_slice()),
    }
}

impl Wanted {
    /// What the table of this rule must be.
    pub(crate) fn by(rule: &Rule) -> Wanted
        ensures { IsWantedBy result rule.now }
    {
        let shape = shape_within(rule.test());
        let exact = is_exact(&shape);
        let digest = own_digest(exact, &shape);
        Wanted {
            group: rule.group(),
            priority: rule.priority(),
            exact,
            digest,
            shape,
        }
    }
}
