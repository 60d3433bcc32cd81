//! Which item may stand behind which.
ghost use Rattle.std.specs.Prelude.{◌≡◌, ◌<◌, true};
ghost use Rattle.pattern_items.specs.Faults.{is_void};
ghost use Rattle.pattern_items.specs.Order.{is_vlan, is_vxlan, follows, may_stand, nothing_before, before_next};

use packet_headers::ItemKind;

/// The most VLAN items in a row.
const MAX_TAGS: u8 = 2;

/// What stands before an item, `Void` left out.
#[derive(Clone, Copy)]
pub struct Before {
    /// The kind of the item just before.
    last: Option<ItemKind>,
    /// How many VLAN items in a row end there.
    tags: u8,
    /// Whether a VXLAN item stands there.
    tunnel: bool,
}

/// Whether an item of this kind is ignored.
pub fn is_void(kind: ItemKind) -> bool
    ensures { result ≡ is_void kind }
{
    match kind {
        ItemKind::Void => true,
        _ => false,
    }
}

fn is_vlan(kind: ItemKind) -> bool
    ensures { result ≡ is_vlan kind }
{
    match kind {
        ItemKind::Vlan => true,
        _ => false,
    }
}

fn is_vxlan(kind: ItemKind) -> bool
    ensures { result ≡ is_vxlan kind }
{
    match kind {
        ItemKind::Vxlan => true,
        _ => false,
    }
}

/// Whether an item of the second kind may stand behind one of the first.
fn follows(last: ItemKind, kind: ItemKind) -> bool
    ensures { result ≡ follows last kind }
{
    match last {
        ItemKind::Void | ItemKind::Tcp => false,
        ItemKind::Eth | ItemKind::Vlan => {
            matches!(kind, ItemKind::Vlan | ItemKind::Ipv4 | ItemKind::Ipv6)
        }
        ItemKind::Ipv4 | ItemKind::Ipv6 => matches!(kind, ItemKind::Tcp | ItemKind::Udp),
        ItemKind::Udp => matches!(kind, ItemKind::Vxlan),
        ItemKind::Vxlan => matches!(kind, ItemKind::Eth),
    }
}

impl Before {
    /// What stands before the first item.
    pub fn nothing() -> Self
        ensures { result ≡ nothing_before }
    {
        Before {
            last: None,
            tags: 0,
            tunnel: false,
        }
    }

    /// What stands before the item behind one of this kind.
    pub fn next(&self, kind: ItemKind) -> Self
        requires { self.now.tags < 255 }
        ensures { result ≡ before_next self.now kind }
    {
        Before {
            last: Some(kind),
            tags: if is_vlan(kind) { self.tags + 1 } else { 0 },
            tunnel: if is_vxlan(kind) { true } else { self.tunnel },
        }
    }

    /// Whether an item of this kind may stand here.
    pub fn may_stand(&self, kind: ItemKind) -> bool
        ensures { result ≡ may_stand self.now kind }
    {
        if let Some(last) = self.last {
            if !follows(last, kind) {
                return false;
            }
        }
        if is_vlan(kind) {
            return self.tags < MAX_TAGS;
        }
        if is_vxlan(kind) {
            return !self.tunnel;
        }
        true
    }
}
