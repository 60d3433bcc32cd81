//! Pattern templates: what they keep of their items, and when they are refused.
ghost use Rattle.std.specs.Prelude.{◌≡◌, ◌≤◌, length, map};
ghost use Rattle.flow_rules.specs.Faults.{first};
ghost use Rattle.rule_binding.specs.Bare.{bare, template_fault};
ghost use Rattle.rule_binding.specs.Templates.{item_faults, template_items, template_of, pattern_faults};

use crate::masks::template_mask;
use crate::template::{PatternTemplate, TemplateItem};
use arrayvec::ArrayVec;
use flow_rules::{Attr, Cause, Fault, direction_fault};
use packet_headers::ItemKind;
use pattern_items::{Item, ItemFault, MAX_ITEMS, Pattern, compile};

/// The template that a pattern is.
pub fn pattern_template(pattern: &Pattern) -> PatternTemplate
    ensures { result ≡ template_of pattern.now }
{
    PatternTemplate {
        items: template_items(pattern.items.as_slice()),
    }
}

/// What a template keeps of items.
fn template_items(items: &[Item]) -> ArrayVec<TemplateItem, MAX_ITEMS>
    requires { length items.now ≤ 16 }
    ensures { result.items ≡ template_items items.now }
{
    let mut kept = ArrayVec::new();
    for item in items {
        if item.kind == ItemKind::Void {
            continue;
        }
        kept.push(TemplateItem {
            kind: item.kind,
            mask: template_mask(item),
        });
    }
    kept
}

/// The first fault of a pattern template, but those of its id.
pub fn pattern_fault(attr: &Attr, pattern: &Pattern) -> Option<Fault>
    ensures { result ≡ first (pattern_faults attr.now pattern.now) }
{
    if let Some(fault) = direction_fault(attr) {
        return Some(fault);
    }
    order_fault(pattern)
}

/// The first fault of a template's items.
fn order_fault(pattern: &Pattern) -> Option<Fault>
    ensures { result ≡ first (item_faults pattern.now) }
{
    let bare = Pattern {
        items: bare_items(pattern.items.as_slice()),
        more: pattern.more,
    };
    match compile(&bare) {
        Ok(_) => None,
        Err(fault) => Some(template_fault(fault)),
    }
}

/// The items with just their kinds and `last`: then those with `last` are those that lack `spec`, and no other has a fault but of
/// its place.
fn bare_items(items: &[Item]) -> ArrayVec<Item, MAX_ITEMS>
    requires { length items.now ≤ 16 }
    ensures { result.items ≡ map bare items.now }
{
    let mut bare = ArrayVec::new();
    for item in items {
        bare.push(Item {
            kind: item.kind,
            given: None,
            last: item.last,
            mask: None,
        });
    }
    bare
}

/// A bare pattern's fault as a template's.
fn template_fault(fault: ItemFault) -> Fault
    ensures { result ≡ template_fault fault }
{
    match fault {
        ItemFault::TooMany => Fault {
            cause: Cause::TooManyItems,
            at: 0,
        },
        ItemFault::Order(at) => Fault {
            cause: Cause::ItemOrder,
            at,
        },
        ItemFault::SpecMissing(at) | ItemFault::LastBelow(at) => Fault {
            cause: Cause::LastInTemplate,
            at,
        },
    }
}
