//! Edits of a frame's bytes, as its walk does them on its layers.
ghost use Rattle.std.specs.Prelude.{◌≡◌, length, fold, flat_map};
ghost use Rattle.packet_headers.specs.Layers.{LieWithin};
ghost use Rattle.flow_rules.specs.Valid.{IsFit};
ghost use Rattle.flow_rules.specs.Walk.{verdict_of};
ghost use Rattle.replica.specs.Path.{edits_by, edits_of, edits_at};
ghost use Rattle.replica.specs.Rewritten.{frame_at, edited, rewritten};

use crate::current_flows::CurrentFlows;
use crate::rule_list::RuleList;
use flow_actions::{Action, Verdict};
use flow_rules::Rule;
use header_edit::{apply_frame, apply_key};
use packet_headers::Key;

/// Performs the edits of the walk that ends with this verdict on a frame's bytes, in order.
pub(crate) fn rewrite(flows: &CurrentFlows, key: &Key, verdict: &Verdict, frame: &mut [u8])
    requires walked { verdict.now ≡ verdict_of flows.now key.now }
    requires within { LieWithin 0 (length frame.old) key.now }
    ensures { frame.new ≡ rewritten flows.now key.now frame.old }
{
    let mut edited = *key;
    edit_by_path(flows.rules(), verdict.path.as_slice(), &mut edited, frame);
}

/// Performs the edits of the rules of these ids, in order.
fn edit_by_path(rules: &RuleList, path: &[u32], key: &mut Key, frame: &mut [u8])
    requires { LieWithin 0 (length frame.old) key.old }
    ensures { frame_at key.new frame.new ≡ fold edited (frame_at key.old frame.old) (flat_map (edits_at rules.now) path.now) }
{
    for id in path {
        if let Some(rule) = rules.rule(*id) {
            edit_by_rule(rule, key, frame);
        }
    }
}

/// Performs the edits of a rule, in order.
fn edit_by_rule(rule: &Rule, key: &mut Key, frame: &mut [u8])
    requires { LieWithin 0 (length frame.old) key.old }
    ensures edited { frame_at key.new frame.new ≡ fold edited (frame_at key.old frame.old) (edits_of rule.now) }
    ensures within { LieWithin 0 (length frame.new) key.new }
{
    for action in rule.actions().list.as_slice() {
        edit_by(action, key, frame);
    }
}

/// Performs an action's edit, if it is one.
fn edit_by(action: &Action, key: &mut Key, frame: &mut [u8])
    requires fit { IsFit action.now }
    requires within { LieWithin 0 (length frame.old) key.old }
    ensures edited { frame_at key.new frame.new ≡ fold edited (frame_at key.old frame.old) (edits_by action.now) }
    ensures within { LieWithin 0 (length frame.new) key.new }
{
    if let Action::Set(edit) = action {
        apply_frame(frame, key, *edit);
        apply_key(key, *edit);
    }
}
