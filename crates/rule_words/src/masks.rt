//! The mask list of an actions template.
ghost use Rattle.std.specs.Prelude.{◌≡◌, map, option_map};
ghost use Rattle.rule_words.specs.Masks as spec;

use crate::actions::take_action;
use crate::turns::{TurnReader, behind, read_up_to};
use arrayvec::ArrayVec;
use flow_actions::{Action, MAX_ACTIONS, Rss};
use packet_headers::Edit;
use rule_binding::Masks;

/// The types of RSS of which no list is read yet: more than any list says.
const NO_TYPES_SAID: u8 = 64;

/// Whether a list was read that stands inside `rss`.
fn is_said(rss: &Rss) -> bool
    ensures { result ≡ spec.is_said rss.now }
{
    if !rss.queues.is_empty() {
        return true;
    }
    rss.types != NO_TYPES_SAID
}

/// The value of an edit, which is 0 where it has none.
fn value_of(edit: &Edit) -> u128
    ensures { result ≡ spec.edit_value edit.now }
{
    match edit {
        Edit::MacSrc(value) => *value as u128,
        Edit::MacDst(value) => *value as u128,
        Edit::Ipv4Src(value) => *value as u128,
        Edit::Ipv4Dst(value) => *value as u128,
        Edit::Ipv6Src(value) => *value,
        Edit::Ipv6Dst(value) => *value,
        Edit::PortSrc(value) => *value as u128,
        Edit::PortDst(value) => *value as u128,
        Edit::DecTtl => 0,
        Edit::SetTtl(value) => *value as u128,
        Edit::SetVid(value) => *value as u128,
    }
}

/// Whether an action of a mask list is set.
fn is_set(action: &Action) -> bool
    ensures { result ≡ spec.is_set action.now }
{
    match action {
        Action::Void => false,
        Action::Queue(queue) => *queue != 0,
        Action::Rss(rss) => is_said(rss),
        Action::Drop => false,
        Action::Jump(group) => *group != 0,
        Action::Mark(mark) => *mark != 0,
        Action::Count => false,
        Action::Indirect(id) => *id != 0,
        Action::Set(edit) => value_of(edit) != 0,
    }
}

impl TurnReader for Masks {
    ghost turn = { spec.mask_turn };

    /// An action and its `/`.
    fn take_turn(&mut self, words: &[&[u8]]) -> Option<usize> {
        let Some((action, taken)) = take_action(NO_TYPES_SAID, words) else {
            return None;
        };
        add_mask(self, &action);
        Some(taken)
    }
}

/// Puts the kind of an action behind the others, or counts it where there are 16 already. `Void` isn't kept.
fn add_mask(masks: &mut Masks, action: &Action)
    ensures { masks.new ≡ spec.with_mask masks.old action.now }
{
    if action.is_void() {
        return;
    }
    if masks.kinds.is_full() {
        masks.more = masks.more.saturating_add(1);
        return;
    }
    let place = masks.kinds.len();
    masks.set[place] = is_set(action);
    masks.kinds.push(action.kind());
}

/// Reads a mask list up to `end`, and gives the words behind it.
pub fn read_masks<'w, 'a>(words: &'w [&'a [u8]]) -> Option<(Masks, &'w [&'a [u8]])>
    ensures { option_map (λ read. (read.0, map (λ word. word.now) read.1.now)) result
        ≡ spec.masks_of (map (λ word. word.now) words.entry.now) }
{
    let mut masks = Masks {
        kinds: ArrayVec::new(),
        set: [false; MAX_ACTIONS],
        more: 0,
    };
    let Some(taken) = read_up_to(b"end", &mut masks, words) else {
        return None;
    };
    Some((masks, behind(taken, words)))
}
