//! The walk of a frame over the groups of rules, for whoever keeps the rules in effect.
ghost use Rattle.std.specs.Prelude.{◌≡◌, ◌+◌, ◌≤◌, ◌<◌, fold, All, Some, IfSome};
ghost use Rattle.std.specs.Option.{option_map};
ghost use Rattle.arrayvec.specs.ArrayVec.{array_vec_len};
ghost use Rattle.flow_rules.specs.Best as spec;
ghost use Rattle.flow_rules.specs.declared.counter.Counter.{Counter};
ghost use Rattle.flow_rules.specs.Shared.{IsSharedOn, shared_at};
ghost use Rattle.flow_rules.specs.Walk.{Walked, acted, missed, fate_of, performed, visited, walked_by, verdict_of};
ghost use Rattle.flow_rules.specs.Way.{IsAt, layers_now};
ghost use Rattle.flow_rules.specs.Valid.{IsFit, IsGood};
ghost use Rattle.flow_rules.specs.declared.walk.Course.TheVariants as courses;
ghost use Rattle.flow_actions.specs.declared.verdict.Fate.TheVariants as fates;
ghost use Rattle.flow_actions.specs.Spread.{hash_in, queue_in};
ghost use Rattle.header_edit.specs.Field.{IsLawful};
ghost use Rattle.header_edit.specs.Layers.{edit_layers};

use crate::rule::Rule;
use arrayvec::ArrayVec;
use flow_actions::{Action, Fate, MAX_PATH, Rss, Verdict, rss_queue};
use header_edit::apply_key;
use packet_headers::{Edit, Key};

/// The number of groups, so the most rules on a frame's path.
const MAX_VISITS: u32 = MAX_PATH as u32;

/// What packets see: the rules in effect, kept so that the best of a group is found, the actions that they share, what becomes
/// of a frame that no rule takes, and among how many Rx queues frames are spread.
pub trait FlowsInEffect {
    ghost use Rattle.flow_rules.specs.Walk.{Flows};

    /// The rules in effect, in the order in which they took effect, the actions that they share, whether a miss drops, and how
    /// many Rx queues there are.
    ghost flows: { Self → Flows };

    /// The rule of a group that takes a frame of these layers.
    fn best(&self, group: u32, key: &Key) -> Option<&Rule>
        ensures { option_map (λ rule. rule.now) result ≡ spec.best (flows self.entry.now).rules group key.now };

    /// The value of the action that rules share by this id, if it is in effect.
    fn shared(&self, id: u32) -> Option<&Action>
        ensures value { option_map (λ action. action.now) result ≡ shared_at id (flows self.entry.now).shared }
        ensures lawful { IfSome result (λ action. IsSharedOn (flows self.entry.now).rxq action.now) };

    /// Whether a frame that no rule takes is dropped.
    fn is_isolated(&self) -> bool
        ensures { result ≡ (flows self.now).isolated };

    /// How many Rx queues there are.
    fn rxq(&self) -> u8
        ensures { result ≡ (flows self.now).rxq };
}

/// Where a walk goes on.
#[derive(Clone, Copy)]
pub(crate) enum Course {
    /// It has ended so.
    End(Fate),
    /// In this group.
    Group(u32),
}

/// How far a walk is: what its verdict tells, where it goes on, and the headers of the frame where they were edited.
#[derive(Drop)]
pub(crate) struct Way {
    mark: Option<u32>,
    hash: Option<u32>,
    path: ArrayVec<u32, MAX_PATH>,
    next: Course,
    edited: Option<Key>,
}

/// The verdict on a frame of these layers.
pub fn classify<F: FlowsInEffect>(flows: &F, key: &Key) -> Verdict
    ensures { result ≡ verdict_of (F.flows flows.now) key.now }
{
    let mut way = Way {
        mark: None,
        hash: None,
        path: ArrayVec::new(),
        next: Course::Group(0),
        edited: None,
    };
    go_on(flows, key, MAX_VISITS, &mut way);
    let Way {
        mark,
        hash,
        path,
        next,
        edited: _,
    } = way;
    Verdict {
        fate: fate(flows.is_isolated(), next),
        mark,
        hash,
        path,
    }
}

/// Visits groups until the walk ends, so many at most.
fn go_on<F: FlowsInEffect>(flows: &F, key: &Key, more: u32, way: &mut Way)
    requires { array_vec_len way.old.path + more ≤ 16 }
    ensures { (walked : Walked) → IsAt key.now way.old walked → IsAt key.now way.new (walked_by more (F.flows flows.now) walked) }
{
    if more == 0 {
        return;
    }
    let Course::Group(group) = way.next else {
        return;
    };
    visit(flows, key, group, way);
    go_on(flows, key, more - 1, way)
}

/// Visits a group: the rule that takes the frame joins the path, and its actions are performed.
fn visit<F: FlowsInEffect>(flows: &F, key: &Key, group: u32, way: &mut Way)
    requires { array_vec_len way.old.path < 16 }
    ensures visited { (walked : Walked) → IsAt key.now way.old walked
        → IsAt key.now way.new (visited (F.flows flows.now) walked (spec.best (F.flows flows.now).rules group walked.layers)) }
    ensures longer { array_vec_len way.new.path ≤ array_vec_len way.old.path + 1 }
{
    let best = match &way.edited {
        None => flows.best(group, key),
        Some(edited) => best_behind_edits(flows, group, edited),
    };
    let Some(rule) = best else {
        way.next = Course::End(miss(flows.is_isolated()));
        return;
    };
    way.path.push(rule.id());
    way.next = Course::End(Fate::Queue(0));
    perform(flows, rule, key, way);
}

/// The rule of a group that takes a frame whose headers were edited. It is apart from the usual case, in which the headers are
/// read where they lie.
#[inline(never)]
fn best_behind_edits<'a, F: FlowsInEffect>(
    flows: &'a F,
    group: u32,
    edited: &Key,
) -> Option<&'a Rule>
    ensures { option_map (λ rule. rule.now) result ≡ spec.best (F.flows flows.entry.now).rules group edited.now }
{
    flows.best(group, edited)
}

/// The headers of the frame as they are now.
#[inline]
fn current<'a>(way: &'a Way, key: &'a Key) -> &'a Key
    ensures { result.now ≡ layers_now key.now way.now.edited }
{
    match &way.edited {
        Some(edited) => edited,
        None => key,
    }
}

/// Performs the actions of a rule, in order.
fn perform<F: FlowsInEffect>(flows: &F, rule: &Rule, key: &Key, way: &mut Way)
    ensures performed { (walked : Walked) → IsAt key.now way.old walked
        → IsAt key.now way.new (fold (performed (F.flows flows.now) rule.now) walked rule.now.actions) }
    ensures path { way.new.path ≡ way.old.path }
{
    for action in rule.actions().list.as_slice() {
        perform_one(flows, rule, key, action, way);
    }
}

/// Performs an action of a rule: one of its own, or a shared one with the value that it has.
#[inline]
fn perform_one<F: FlowsInEffect>(flows: &F, rule: &Rule, key: &Key, action: &Action, way: &mut Way)
    requires { IsGood rule.now.group action.now }
    ensures performed { (walked : Walked) → IsAt key.now way.old walked
        → IsAt key.now way.new (performed (F.flows flows.now) rule.now walked action.now) }
    ensures path { way.new.path ≡ way.old.path }
{
    let Action::Indirect(id) = action else {
        act(flows.rxq(), key, action, way);
        return;
    };
    if let Some(value) = flows.shared(*id) {
        act(flows.rxq(), key, value, way);
    }
}

/// Performs an action that isn't shared. Counters are raised elsewhere.
#[inline]
fn act(rxq: u8, key: &Key, action: &Action, way: &mut Way)
    requires { IsFit action.now }
    ensures acted { (walked : Walked) (counter : Counter) → IsAt key.now way.old walked
        → IsAt key.now way.new (acted rxq counter walked action.now) }
    ensures path { way.new.path ≡ way.old.path }
{
    match action {
        Action::Void => {}
        Action::Queue(queue) => way.next = Course::End(Fate::Queue(*queue as u8)),
        Action::Rss(rss) => spread(rxq, rss, key, way),
        Action::Drop => way.next = Course::End(Fate::Drop),
        Action::Jump(to) => way.next = Course::Group(*to),
        Action::Mark(mark) => way.mark = Some(*mark),
        Action::Count => {}
        Action::Indirect(_) => {}
        Action::Set(edit) => change(*edit, key, way),
    }
}

/// Ends the walk in the queue that the frame's hash chooses.
fn spread(rxq: u8, rss: &Rss, key: &Key, way: &mut Way)
    requires { All (λ queue. queue < 256) rss.now.queues.items }
    ensures { way.new ≡ record way.old {
      hash = Some (hash_in rss.now.types (layers_now key.now way.old.edited));
      next = courses.End (fates.Queue (queue_in rss.now rxq (layers_now key.now way.old.edited)));
    } }
{
    let (hash, queue) = rss_queue(rss, rxq, current(way, key));
    way.hash = Some(hash);
    way.next = Course::End(Fate::Queue(queue));
}

/// Edits the frame's headers, in a copy of them.
fn change(edit: Edit, key: &Key, way: &mut Way)
    requires { IsLawful edit }
    ensures { way.new ≡ record way.old { edited = Some (edit_layers edit (layers_now key.now way.old.edited)) } }
{
    let mut edited = *current(way, key);
    apply_key(&mut edited, edit);
    way.edited = Some(edited);
}

/// What becomes of a frame that no rule takes.
fn miss(isolated: bool) -> Fate
    ensures { result ≡ missed isolated }
{
    if isolated {
        return Fate::Drop;
    }
    Fate::Queue(0)
}

/// Where a walk ended.
fn fate(isolated: bool, next: Course) -> Fate
    ensures { result ≡ fate_of isolated next }
{
    match next {
        Course::End(fate) => fate,
        Course::Group(_) => miss(isolated),
    }
}
