//! The guide's wording as a plain program: on the items as they were written, and on a list of layers.

use super::ALLOWED;
use packet_headers::{ItemKind, Layer, fields_of};
use pattern_items::{Item, ItemFault};

/// Whether a field's numbers fit: by the mask, the layer's is `spec`, or from `spec` to a greater `last`.
fn field_fits(spec: u128, last: u128, mask: u128, number: u128) -> bool {
    let (s, l, v) = (spec & mask, last & mask, number & mask);
    if l > s { s <= v && v <= l } else { v == s }
}

fn fits(item: &Item, layer: &Layer) -> bool {
    let Some(given) = item.given else {
        return true;
    };
    for (place, field) in fields_of(item.kind).iter().enumerate() {
        if place >= 6 {
            return false;
        }
        let last = item.last.map_or(0, |last| last.v[place]);
        let mask = item.mask.map_or(field.default_mask, |mask| mask.v[place]);
        if !field_fits(given.v[place], last, mask, layer.v[place]) {
            return false;
        }
    }
    true
}

/// Items and layers go together.
fn goes_on(items: &[Item], layers: &[Layer]) -> bool {
    let Some((item, more_items)) = items.split_first() else {
        return true;
    };
    if item.kind == ItemKind::Void {
        return goes_on(more_items, layers);
    }
    let Some((layer, more_layers)) = layers.split_first() else {
        return false;
    };
    if layer.kind == item.kind {
        return fits(item, layer) && goes_on(more_items, more_layers);
    }
    layer.kind == ItemKind::Vlan && goes_on(items, more_layers)
}

/// Whether a pattern matches a frame with these layers.
pub fn is_match(items: &[Item], layers: &[Layer]) -> bool {
    let Some(first) = items.iter().find(|item| item.kind != ItemKind::Void) else {
        return true;
    };
    for (place, layer) in layers.iter().enumerate() {
        if layer.kind == first.kind {
            return goes_on(items, &layers[place..]);
        }
        if layer.kind == ItemKind::Vxlan {
            return false;
        }
    }
    false
}

/// Whether the table lets an item of the second kind stand behind one of the first.
fn is_allowed(first: ItemKind, second: ItemKind) -> bool {
    let Some(row) = ALLOWED.get(first as usize) else {
        return false;
    };
    row.get(second as usize).copied() == Some(1)
}

/// Whether the last of these kinds may stand there.
fn stands(kinds: &[ItemKind]) -> bool {
    let tunnels = kinds
        .iter()
        .filter(|kind| **kind == ItemKind::Vxlan)
        .count();
    match kinds {
        [.., ItemKind::Vlan, ItemKind::Vlan, ItemKind::Vlan] => false,
        [.., first, second] if !is_allowed(*first, *second) => false,
        [.., ItemKind::Vxlan] => tunnels < 2,
        _ => true,
    }
}

fn ends_below(item: &Item) -> bool {
    let (Some(given), Some(last)) = (item.given, item.last) else {
        return false;
    };
    for (place, field) in fields_of(item.kind).iter().enumerate() {
        if place >= 6 {
            return false;
        }
        let mask = item.mask.map_or(field.default_mask, |mask| mask.v[place]);
        let (s, l) = (given.v[place] & mask, last.v[place] & mask);
        if l != 0 && l < s {
            return true;
        }
    }
    false
}

/// The first fault of an item, of which the kinds so far, its own the last, are these.
fn fault_of_item(place: u16, kinds: &[ItemKind], item: &Item) -> Option<ItemFault> {
    if !stands(kinds) {
        return Some(ItemFault::Order(place));
    }
    if item.given.is_none() && (item.last.is_some() || item.mask.is_some()) {
        return Some(ItemFault::SpecMissing(place));
    }
    if ends_below(item) {
        return Some(ItemFault::LastBelow(place));
    }
    None
}

/// The first fault of a pattern of at most 16 items.
pub fn fault_of(items: &[Item]) -> Option<ItemFault> {
    let mut kinds = [ItemKind::Void; 16];
    let mut count = 0;
    for (place, item) in items.iter().enumerate() {
        if item.kind == ItemKind::Void || count >= 16 {
            continue;
        }
        kinds[count] = item.kind;
        count += 1;
        let fault = fault_of_item(place.min(16) as u16, &kinds[..count], item);
        if fault.is_some() {
            return fault;
        }
    }
    None
}
