//! The actions that rules share, by id.
ghost use Rattle.std.specs.Prelude.{◌≡◌, ℕ, ◌+◌, ◌-◌, ◌<◌, ◌≤◌, ◌^◌, [], length, IsSome, IfSome, IfOk, OnOk, OnErr, None, MatchResult, true};
ghost use Rattle.std.specs.Option.{option_copied};
ghost use Rattle.std.specs.Result.{result_err};
ghost use Rattle.flow_rules.specs.Shared.{IsSharedOn};
ghost use Rattle.flow_rules.specs.Faults.{first};
ghost use Rattle.object_ids.specs.Ids.{id_for, id_faults};
ghost use Rattle.indirect_counters.specs.Entries.{entry_at, in_effect_at, value_at, count_at};
ghost use Rattle.indirect_counters.specs.Effects.{added, without, activated, updated, adopted, released, raised};
ghost use Rattle.indirect_counters.specs.Refusals.{create_fault, is_same_kind, update_fault, queued_update_fault, destroy_fault, IsDue};
ghost use Rattle.indirect_counters.specs.Sound.{Sound, AreOn, CanAdd};

use crate::shared_action::{SharedAction, created};
use flow_actions::{Action, ActionKind};
use flow_rules::{
    Attr, Cause, Count, Fault, Known, Limits, TplFault, direction_fault, is_bad_value,
};
use indexmap::IndexMap;
use object_ids::{id_fault, id_for};
use std::alloc::{AllocError, Global};
use std::marker::Model;

/// The most shared actions, held ones too.
const MAX_INDIRECTS: usize = 1_024;

/// The actions that rules share.
#[derive(Drop)]
pub struct Indirects {
    map: IndexMap<u16, SharedAction>,
}

impl Model for Indirects {
    ghost use Rattle.indirect_counters.specs.Room.{IndirectsView};

    ghost Value = { IndirectsView };

    ghost use Rattle.indexmap.specs.IndexMap.{spare};
    ghost use Rattle.indirect_counters.specs.Sound.{Sound};

    ghost view = { λ s. record { entries = s.map.entries; room = spare s.map } };

    ghost invariant = { λ s. Sound s.map.entries };
}

impl Known for Indirects {
    ghost use Rattle.indirect_counters.specs.Room.{IndirectsView};
    ghost use Rattle.indirect_counters.specs.Entries.{kind_at};

    ghost kinds = { λ (s : IndirectsView) id. kind_at id s.entries };

    fn kind_of(&self, id: u32) -> Option<ActionKind> {
        let _map = &self.map;
        if id > u16::MAX as u32 {
            return None;
        }
        let value = self.value(id as u16)?;
        Some(value.kind())
    }
}

impl Indirects {
    /// No actions.
    pub fn new(alloc: Global) -> Indirects
        ensures { result.entries ≡ [] }
    {
        Indirects {
            map: IndexMap::new(alloc),
        }
    }

    /// How many there are, held ones too.
    pub fn len(&self) -> usize
        ensures len { result ≡ length self.now.entries }
        ensures sound { Sound self.now.entries }
    {
        let _map = &self.map;
        self.map.len()
    }

    /// The action of an id, where it is in effect.
    fn in_effect(&self, id: u16) -> Option<&SharedAction>
        ensures { option_copied result ≡ in_effect_at id self.now.entries }
    {
        let entry = self.map.get(&id)?;
        if entry.held {
            return None;
        }
        Some(entry)
    }

    /// The value of the action of an id, where it is in effect.
    pub fn value(&self, id: u16) -> Option<&Action>
        ensures value { option_copied result ≡ value_at id self.now.entries }
        ensures lawful { (rxq : ℕ) → AreOn rxq self.now.entries → IfSome result (λ action. IsSharedOn rxq action.now) }
    {
        let Some(entry) = self.in_effect(id) else {
            return None;
        };
        Some(&entry.value)
    }

    /// What the action of an id has counted since it took effect, where it is in effect.
    pub fn count(&self, id: u16) -> Option<Count>
        ensures { result ≡ count_at id self.now.entries }
    {
        let entry = self.in_effect(id)?;
        Some(entry.count)
    }

    /// The id that a new action gets: the given one, or else the least one that is not in use.
    pub fn id_for(&self, id: Option<u16>) -> u16
        ensures { result ≡ id_for id self.now.entries }
    {
        id_for(&self.map, id)
    }

    /// Why an action can't be created, if it can't.
    pub fn create_fault(
        &self,
        id: Option<u16>,
        attr: &Attr,
        action: &Action,
        limits: &Limits,
    ) -> Option<Fault>
        ensures first { result ≡ create_fault limits.now.rxq self.now.entries id attr.now action.now }
        ensures clear { result ≡ None → CanAdd (id_for id self.now.entries) action.now self.now.entries }
    {
        if let Some(fault) = direction_fault(attr) {
            return Some(fault);
        }
        if !action.kind().is_shareable() {
            return Some(fault(Cause::KindNotIndirect));
        }
        if is_bad_value(limits.rxq, 0, action) {
            return Some(fault(Cause::ActionConf));
        }
        self.place_fault(id)
    }

    /// Why there is no place for one more, if there is none: its id is in use, or all places are taken.
    fn place_fault(&self, id: Option<u16>) -> Option<Fault>
        ensures { result ≡ first (id_faults 1024 id self.now.entries) }
    {
        id_fault(&self.map, id, MAX_INDIRECTS)
    }

    /// Takes memory for one more action.
    pub fn reserve(&mut self) -> Result<(), AllocError>
        ensures same { self.new.entries ≡ self.old.entries }
        ensures room { OnOk result (1 ≤ self.new.room) }
        ensures kept { self.old.room ≤ self.new.room }
    {
        self.map.reserve(1)
    }

    /// Adds an action that can be created, where memory was taken for it.
    pub fn add(&mut self, id: u16, action: &Action, held: bool)
        requires fine { CanAdd id action.now self.old.entries }
        requires room { 1 ≤ self.old.room }
        ensures entries { self.new.entries ≡ added id action.now held self.old.entries }
        ensures left { self.old.room ≤ self.new.room + 1 }
    {
        self.map.insert(id, created(action, held)).unwrap();
    }

    /// Creates an action, which takes effect at once or is held.
    pub fn create(
        &mut self,
        id: Option<u16>,
        attr: &Attr,
        action: &Action,
        limits: &Limits,
        held: bool,
    ) -> Result<u16, TplFault>
        ensures id { IfOk result (λ new. new ≡ id_for id self.old.entries) }
        ensures added { IfOk result (λ new. self.new.entries ≡ added new action.now held self.old.entries) }
        ensures same { OnErr result (self.new.entries ≡ self.old.entries) }
        ensures left { self.old.room ≤ self.new.room + 1 }
        ensures due { MatchResult result
            (λ _. create_fault limits.now.rxq self.old.entries id attr.now action.now ≡ None)
            (λ answer. IsDue answer (create_fault limits.now.rxq self.old.entries id attr.now action.now)) }
    {
        if let Some(fault) = self.create_fault(id, attr, action, limits) {
            return Err(TplFault::Fault(fault));
        }
        let new = self.id_for(id);
        match self.reserve() {
            Ok(()) => {
                self.add(new, action, held);
                Ok(new)
            }
            Err(_) => Err(TplFault::NoMemory),
        }
    }

    /// Brings a held action into effect.
    pub fn activate(&mut self, id: u16)
        requires there { IsSome (entry_at id self.old.entries) }
        requires held { IfSome (entry_at id self.old.entries) (λ entry. entry.held ≡ true) }
        ensures entries { self.new.entries ≡ activated id self.old.entries }
        ensures room { self.old.room ≤ self.new.room }
    {
        let Some(entry) = self.map.get_mut(&id) else {
            return;
        };
        entry.held = false;
        entry.count = Count { hits: 0, bytes: 0 };
        let Some(place) = self.map.get_index_of(&id) else {
            return;
        };
        let last = self.map.len() - 1;
        self.map.move_index(place, last);
    }

    /// Why an action can't get this value, if it can't.
    pub fn update_fault(&self, id: u16, action: &Action, limits: &Limits) -> Option<Fault>
        ensures { result ≡ update_fault limits.now.rxq self.now.entries id action.now }
    {
        let Some(entry) = self.in_effect(id) else {
            return Some(fault(Cause::NoObject));
        };
        let kind = action.kind();
        if !is_same_kind(entry.value.kind(), kind) {
            return Some(fault(Cause::KindDiffers));
        }
        if kind == ActionKind::Count {
            return Some(fault(Cause::CannotUpdate));
        }
        if is_bad_value(limits.rxq, 0, action) {
            return Some(fault(Cause::ActionConf));
        }
        None
    }

    /// Replaces the value of an action, for every rule that uses it.
    pub fn update(&mut self, id: u16, action: &Action, limits: &Limits) -> Result<(), Fault>
        ensures fault { result_err result ≡ update_fault limits.now.rxq self.old.entries id action.now }
        ensures updated { OnOk result (self.new.entries ≡ updated id action.now self.old.entries) }
        ensures room { self.old.room ≤ self.new.room }
        ensures same { OnErr result (self.new ≡ self.old) }
    {
        if let Some(fault) = self.update_fault(id, action, limits) {
            return Err(fault);
        }
        let Some(entry) = self.map.get_mut(&id) else {
            return Err(fault(Cause::NoObject));
        };
        entry.value = action.copied();
        Ok(())
    }

    /// Why an action can't be destroyed, if it can't.
    pub fn destroy_fault(&self, id: u16) -> Option<Fault>
        ensures { result ≡ destroy_fault self.now.entries id }
    {
        let Some(entry) = self.in_effect(id) else {
            return Some(fault(Cause::NoObject));
        };
        if entry.users > 0 {
            return Some(fault(Cause::Busy));
        }
        None
    }

    /// Takes an action that no rule uses out of effect.
    pub fn destroy(&mut self, id: u16) -> Result<(), Fault>
        ensures fault { result_err result ≡ destroy_fault self.old.entries id }
        ensures gone { OnOk result (self.new.entries ≡ without id self.old.entries) }
        ensures room { self.old.room ≤ self.new.room }
        ensures same { OnErr result (self.new ≡ self.old) }
    {
        if let Some(fault) = self.destroy_fault(id) {
            return Err(fault);
        }
        self.remove(id);
        Ok(())
    }

    /// Takes out what stands at an id, held or in effect. The others keep their order.
    pub fn remove(&mut self, id: u16)
        ensures entries { self.new.entries ≡ without id self.old.entries }
        ensures room { self.old.room ≤ self.new.room }
    {
        let _gone = self.map.shift_remove(&id);
    }

    /// One more rule uses an action.
    pub fn adopt(&mut self, id: u16)
        requires there { IsSome (in_effect_at id self.old.entries) }
        requires room { IfSome (in_effect_at id self.old.entries) (λ entry. entry.users < 2 ^ 32 - 1) }
        ensures entries { self.new.entries ≡ adopted id self.old.entries }
        ensures room { self.old.room ≤ self.new.room }
    {
        let Some(entry) = self.map.get_mut(&id) else {
            return;
        };
        entry.users += 1;
    }

    /// A rule that used an action is gone.
    pub fn release(&mut self, id: u16)
        requires there { IsSome (entry_at id self.old.entries) }
        requires used { IfSome (entry_at id self.old.entries) (λ entry. 1 ≤ entry.users) }
        ensures entries { self.new.entries ≡ released id self.old.entries }
        ensures room { self.old.room ≤ self.new.room }
    {
        let Some(entry) = self.map.get_mut(&id) else {
            return;
        };
        entry.users -= 1;
    }

    /// An action counts a frame of so many bytes.
    pub fn raise(&mut self, id: u16, bytes: u32)
        requires there { IsSome (in_effect_at id self.old.entries) }
        requires room { IfSome (in_effect_at id self.old.entries) (λ entry. entry.count.hits < 2 ^ 64 - 1) }
        ensures entries { self.new.entries ≡ raised id bytes self.old.entries }
        ensures room { self.old.room ≤ self.new.room }
    {
        let Some(entry) = self.map.get_mut(&id) else {
            return;
        };
        entry.count.hits += 1;
        entry.count.bytes += bytes as u128;
    }
}

/// Why an operation queue can't take an update to this value, if it can't. What stands at the id then is seen when it is carried out.
pub fn queued_update_fault(action: &Action, limits: &Limits) -> Option<Fault>
    ensures { result ≡ queued_update_fault limits.now.rxq action.now }
{
    if !action.kind().is_shareable() {
        return Some(fault(Cause::KindNotIndirect));
    }
    if action.kind() == ActionKind::Count {
        return Some(fault(Cause::CannotUpdate));
    }
    if is_bad_value(limits.rxq, 0, action) {
        return Some(fault(Cause::ActionConf));
    }
    None
}

/// Whether two of the kinds that rules can share are the same.
fn is_same_kind(kind: ActionKind, other: ActionKind) -> bool
    ensures { result ≡ is_same_kind kind other }
{
    kind.is_shareable() && kind == other
}

/// A refusal, which names no place.
fn fault(cause: Cause) -> Fault
    ensures { result ≡ record { cause = cause; at = 0 } }
{
    Fault { cause, at: 0 }
}
