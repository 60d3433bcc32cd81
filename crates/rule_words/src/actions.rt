//! The actions of a rule.
ghost use Rattle.std.specs.Prelude.{◌≡◌, ◌≤◌, IfSome, length, drop, map, option_map};
ghost use Rattle.flow_actions.specs.Kinds.{kind_of};
ghost use Rattle.rule_words.specs.Actions as spec;
ghost use Rattle.rule_words.specs.Actions.{FitsIn};
ghost use Rattle.rule_words.specs.Value.{width_of};
ghost use Rattle.rule_words.specs.Vocabulary.{meaning_of};

use crate::address::Address;
use crate::number::number_in_front;
use crate::rss_lists::unlisted;
use crate::turns::{TurnReader, behind, read_up_to};
use crate::value::{Form, read_value};
use crate::vocabulary::meaning;
use arrayvec::ArrayVec;
use flow_actions::{ALL_RSS_TYPES, Action, ActionKind, Actions};
use packet_headers::Edit;

static WORDS: [(&str, ActionKind); 19] = [
    ("void", ActionKind::Void),
    ("queue", ActionKind::Queue),
    ("rss", ActionKind::Rss),
    ("drop", ActionKind::Drop),
    ("jump", ActionKind::Jump),
    ("mark", ActionKind::Mark),
    ("count", ActionKind::Count),
    ("indirect", ActionKind::Indirect),
    ("set_mac_src", ActionKind::MacSrc),
    ("set_mac_dst", ActionKind::MacDst),
    ("set_ipv4_src", ActionKind::Ipv4Src),
    ("set_ipv4_dst", ActionKind::Ipv4Dst),
    ("set_ipv6_src", ActionKind::Ipv6Src),
    ("set_ipv6_dst", ActionKind::Ipv6Dst),
    ("set_tp_src", ActionKind::PortSrc),
    ("set_tp_dst", ActionKind::PortDst),
    ("dec_ttl", ActionKind::DecTtl),
    ("set_ttl", ActionKind::SetTtl),
    ("of_set_vlan_vid", ActionKind::SetVid),
];

/// The kind of action that a word begins.
fn begun_by(word: &[u8]) -> Option<ActionKind>
    ensures { result ≡ meaning_of spec.words word.now }
{
    meaning(&WORDS, word)
}

/// The word in front of the value of an action of a kind, and how the value is written.
fn value_row(kind: ActionKind) -> Option<(&'static [u8], Form)>
    ensures value { option_map (λ row. (row.0.now, row.1)) result ≡ spec.value_row kind }
    ensures narrow { IfSome result (λ row. width_of row.1 ≤ 128) }
{
    match kind {
        ActionKind::Void => None,
        ActionKind::Queue => Some((b"index", Form::Number(16))),
        ActionKind::Rss => None,
        ActionKind::Drop => None,
        ActionKind::Jump => Some((b"group", Form::Number(32))),
        ActionKind::Mark => Some((b"id", Form::Number(32))),
        ActionKind::Count => None,
        ActionKind::Indirect => None,
        ActionKind::MacSrc => Some((b"mac_addr", Form::Address(Address::Mac))),
        ActionKind::MacDst => Some((b"mac_addr", Form::Address(Address::Mac))),
        ActionKind::Ipv4Src => Some((b"ipv4_addr", Form::Address(Address::Ip4))),
        ActionKind::Ipv4Dst => Some((b"ipv4_addr", Form::Address(Address::Ip4))),
        ActionKind::Ipv6Src => Some((b"ipv6_addr", Form::Address(Address::Ip6))),
        ActionKind::Ipv6Dst => Some((b"ipv6_addr", Form::Address(Address::Ip6))),
        ActionKind::PortSrc => Some((b"port", Form::Number(16))),
        ActionKind::PortDst => Some((b"port", Form::Number(16))),
        ActionKind::DecTtl => None,
        ActionKind::SetTtl => Some((b"ttl_value", Form::Number(8))),
        ActionKind::SetVid => Some((b"vlan_vid", Form::Number(16))),
    }
}

/// The action of a kind with a value. RSS is the one without a list, of all types.
fn with_value(kind: ActionKind, value: u128) -> Action
    requires { FitsIn kind value }
    ensures { result ≡ spec.with_value kind value }
{
    match kind {
        ActionKind::Void => Action::Void,
        ActionKind::Queue => Action::Queue(value as u16),
        ActionKind::Rss => Action::Rss(unlisted(ALL_RSS_TYPES)),
        ActionKind::Drop => Action::Drop,
        ActionKind::Jump => Action::Jump(value as u32),
        ActionKind::Mark => Action::Mark(value as u32),
        ActionKind::Count => Action::Count,
        ActionKind::Indirect => Action::Indirect(value as u32),
        ActionKind::MacSrc => Action::Set(Edit::MacSrc(value as u64)),
        ActionKind::MacDst => Action::Set(Edit::MacDst(value as u64)),
        ActionKind::Ipv4Src => Action::Set(Edit::Ipv4Src(value as u32)),
        ActionKind::Ipv4Dst => Action::Set(Edit::Ipv4Dst(value as u32)),
        ActionKind::Ipv6Src => Action::Set(Edit::Ipv6Src(value)),
        ActionKind::Ipv6Dst => Action::Set(Edit::Ipv6Dst(value)),
        ActionKind::PortSrc => Action::Set(Edit::PortSrc(value as u16)),
        ActionKind::PortDst => Action::Set(Edit::PortDst(value as u16)),
        ActionKind::DecTtl => Action::Set(Edit::DecTtl),
        ActionKind::SetTtl => Action::Set(Edit::SetTtl(value as u8)),
        ActionKind::SetVid => Action::Set(Edit::SetVid(value as u16)),
    }
}

/// The action of a kind with the value that a word is, behind the word in front of it.
fn with_word(kind: ActionKind, name: &[u8], word: &[u8]) -> Option<Action>
    ensures { result ≡ spec.with_word kind name.now word.now }
{
    let (value_name, form) = value_row(kind)?;
    if name != value_name {
        return None;
    }
    let value = read_value(form, word)?;
    Some(with_value(kind, value))
}

/// Takes in a word and the value behind it.
fn take_value(action: &mut Action, words: &[&[u8]]) -> Option<usize>
    ensures value { option_map (λ taken. (action.new, drop taken (map (λ word. word.now) words.now))) result
        ≡ spec.value_setting (kind_of action.old) (map (λ word. word.now) words.now) }
    ensures few { IfSome result (λ taken. taken ≤ length words.now) }
{
    let [name, word, ..] = words else {
        return None;
    };
    let Some(after) = with_word(action.kind(), name, word) else {
        return None;
    };
    *action = after;
    Some(2)
}

impl TurnReader for Action {
    ghost turn = { spec.setting };

    /// What stands inside an action: lists in RSS, a word and its value in the others.
    fn take_turn(&mut self, words: &[&[u8]]) -> Option<usize> {
        if let Action::Rss(rss) = self {
            return rss.take_turn(words);
        }
        take_value(self, words)
    }
}

impl TurnReader for Actions {
    ghost turn = { spec.action_behind };

    /// An action and its `/`.
    fn take_turn(&mut self, words: &[&[u8]]) -> Option<usize> {
        let Some((action, taken)) = take_action(ALL_RSS_TYPES, words) else {
            return None;
        };
        add_action(self, action);
        Some(taken)
    }
}

/// The action of a kind before anything inside it is read, and how many words it has behind its own: one that rules
/// share has its id there. RSS has these types.
fn begin(types: u8, kind: ActionKind, words: &[&[u8]]) -> Option<(Action, usize)>
    ensures value { option_map (λ begun. (begun.0, drop begun.1 (map (λ word. word.now) words.now))) result
        ≡ spec.begun types kind (map (λ word. word.now) words.now) }
    ensures few { IfSome result (λ begun. begun.1 ≤ length words.now) }
{
    if let ActionKind::Indirect = kind {
        let id = number_in_front(16, words)?;
        return Some((with_value(kind, id), 1));
    }
    if let ActionKind::Rss = kind {
        return Some((Action::Rss(unlisted(types)), 0));
    }
    Some((with_value(kind, 0), 0))
}

/// An action up to its `/`, and how many words that is. RSS begins with these types.
pub(crate) fn take_action(types: u8, words: &[&[u8]]) -> Option<(Action, usize)>
    ensures value { option_map (λ taken. (taken.0, drop taken.1 (map (λ word. word.now) words.now))) result
        ≡ spec.action_from types (map (λ word. word.now) words.now) }
    ensures few { IfSome result (λ taken. taken.1 ≤ length words.now) }
{
    let (word, rest) = words.split_first()?;
    let kind = begun_by(word)?;
    let (action, taken) = take_behind_word(types, kind, rest)?;
    Some((action, 1 + taken))
}

/// What stands behind the word of an action of a kind, up to its `/`, and how many words that is.
fn take_behind_word(types: u8, kind: ActionKind, words: &[&[u8]]) -> Option<(Action, usize)>
    ensures value { option_map (λ taken. (taken.0, drop taken.1 (map (λ word. word.now) words.now))) result
        ≡ spec.behind_word types kind (map (λ word. word.now) words.now) }
    ensures few { IfSome result (λ taken. taken.1 ≤ length words.now) }
{
    let (mut action, at) = begin(types, kind, words)?;
    let taken = read_up_to(b"/", &mut action, behind(at, words))?;
    Some((action, at + taken))
}

/// Reads one action up to its `/`, and gives the words behind it.
pub fn read_action<'w, 'a>(words: &'w [&'a [u8]]) -> Option<(Action, &'w [&'a [u8]])>
    ensures { option_map (λ read. (read.0, map (λ word. word.now) read.1.now)) result
        ≡ spec.action_of (map (λ word. word.now) words.entry.now) }
{
    let (action, taken) = take_action(ALL_RSS_TYPES, words)?;
    Some((action, behind(taken, words)))
}

/// Reads actions up to `end`, and gives the words behind it.
pub fn read_actions<'w, 'a>(words: &'w [&'a [u8]]) -> Option<(Actions, &'w [&'a [u8]])>
    ensures { option_map (λ read. (read.0, map (λ word. word.now) read.1.now)) result
        ≡ spec.actions_of (map (λ word. word.now) words.entry.now) }
{
    let mut actions = Actions {
        list: ArrayVec::new(),
        more: 0,
    };
    let Some(taken) = read_up_to(b"end", &mut actions, words) else {
        return None;
    };
    Some((actions, behind(taken, words)))
}

/// Puts an action behind the others, or counts it where there are 16 already.
fn add_action(actions: &mut Actions, action: Action)
    ensures { actions.new ≡ spec.with_action actions.old action }
{
    if actions.list.is_full() {
        actions.more = actions.more.saturating_add(1);
        return;
    }
    actions.list.push(action);
}
