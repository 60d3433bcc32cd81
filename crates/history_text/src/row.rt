//! The rows of a list of rules. The names of items and actions stand here and nowhere else.
ghost use Rattle.std.specs.Prelude.{◌≡◌};
ghost use Rattle.std.specs.List.{flat_map};
ghost use Rattle.io_edges.specs.Gather.{gather_of};
ghost use Rattle.io_edges.specs.Prints.{Prints};
ghost use Rattle.history_text.specs.Rows.{item_text, action_text, row_text};

use crate::form::print_form;
use flow_actions::ActionKind;
use flow_calls::{ListRow, RuleList};
use io_edges::{Page, Sink, print};
use packet_headers::ItemKind;

/// An item's name and a space.
fn item_name(item: ItemKind) -> &'static [u8]
    ensures { result.now ≡ item_text item }
{
    match item {
        ItemKind::Void => b"VOID ",
        ItemKind::Eth => b"ETH ",
        ItemKind::Vlan => b"VLAN ",
        ItemKind::Ipv4 => b"IPV4 ",
        ItemKind::Ipv6 => b"IPV6 ",
        ItemKind::Tcp => b"TCP ",
        ItemKind::Udp => b"UDP ",
        ItemKind::Vxlan => b"VXLAN ",
    }
}

/// A space and an action's name.
fn action_name(action: ActionKind) -> &'static [u8]
    ensures { result.now ≡ action_text action }
{
    match action {
        ActionKind::Void => b" VOID",
        ActionKind::Queue => b" QUEUE",
        ActionKind::Rss => b" RSS",
        ActionKind::Drop => b" DROP",
        ActionKind::Jump => b" JUMP",
        ActionKind::Mark => b" MARK",
        ActionKind::Count => b" COUNT",
        ActionKind::Indirect => b" INDIRECT",
        ActionKind::MacSrc => b" SET_MAC_SRC",
        ActionKind::MacDst => b" SET_MAC_DST",
        ActionKind::Ipv4Src => b" SET_IPV4_SRC",
        ActionKind::Ipv4Dst => b" SET_IPV4_DST",
        ActionKind::Ipv6Src => b" SET_IPV6_SRC",
        ActionKind::Ipv6Dst => b" SET_IPV6_DST",
        ActionKind::PortSrc => b" SET_TP_SRC",
        ActionKind::PortDst => b" SET_TP_DST",
        ActionKind::DecTtl => b" DEC_TTL",
        ActionKind::SetTtl => b" SET_TTL",
        ActionKind::SetVid => b" OF_SET_VLAN_VID",
    }
}

fn print_items<K: Sink>(sink: &mut K, page: &mut Page, items: &[ItemKind])
    ensures { Prints (gather_of K.taken K.faults sink.old page.old)
        (gather_of K.taken K.faults sink.new page.new) (flat_map item_text items.now) }
{
    for place in 0..items.len() {
        print(sink, page, item_name(items[place]));
    }
}

fn print_actions<K: Sink>(sink: &mut K, page: &mut Page, actions: &[ActionKind])
    ensures { Prints (gather_of K.taken K.faults sink.old page.old)
        (gather_of K.taken K.faults sink.new page.new) (flat_map action_text actions.now) }
{
    for place in 0..actions.len() {
        print(sink, page, action_name(actions[place]));
    }
}

/// A line end, and the rule's line.
fn print_row<K: Sink>(sink: &mut K, page: &mut Page, row: &ListRow)
    ensures { Prints (gather_of K.taken K.faults sink.old page.old)
        (gather_of K.taken K.faults sink.new page.new) (row_text row.now) }
{
    let numbers = [row.id as u128, row.group as u128, row.priority as u128];
    print_form(sink, page, &[b"\n0\t0\t0\ti--\t"], &numbers);
    print_items(sink, page, row.items.as_slice());
    print(sink, page, b"=>");
    print_actions(sink, page, row.actions.as_slice());
}

/// Prints a line for each rule, each behind the end of the line before it.
pub(crate) fn print_rows<K: Sink>(sink: &mut K, page: &mut Page, rows: &RuleList)
    ensures { Prints (gather_of K.taken K.faults sink.old page.old)
        (gather_of K.taken K.faults sink.new page.new) (flat_map row_text rows.now) }
{
    for place in 0..rows.len() {
        print_row(sink, page, rows.get(place));
    }
}
