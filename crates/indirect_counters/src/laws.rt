//! Laws of the definitions.
ghost use Rattle.std.specs.Prelude.{◌≡◌, ℕ, true, false, Some, None, IsSome, Option, Bool, nat_eq, if◌then◌else◌};
ghost use Rattle.std.specs.Option.{option_map};
ghost use Rattle.flow_actions.specs.declared.action.Action.{Action};
ghost use Rattle.flow_rules.specs.declared.spec.Attr.{Attr};
ghost use Rattle.flow_rules.specs.Shared.{shared_at, with_shared, without_shared, AreSharedOn};
ghost use Rattle.indirect_counters.specs.declared.shared_action.SharedAction.{SharedAction};
ghost use Rattle.indirect_counters.specs.Counts.{no_count};
ghost use Rattle.indirect_counters.specs.Entries.{Entries, entry_at, in_effect_at, value_at, kind_at, values_in_effect, created};
ghost use Rattle.indirect_counters.specs.Effects.{added, without, activated, changed_at, updated, adopted, released, raised};
ghost use Rattle.indirect_counters.specs.Refusals.{create_fault, update_fault};
ghost use Rattle.indirect_counters.specs.Sound.{Sound, AreOn};

/// What rules see of the shared actions is a list of the values in effect, and each call does to it what it should: a new value
/// is put at the id, or the id is gone.
pub fn rules_see_the_values_in_effect()
    ensures at { (id : ℕ) (entries : Entries) → Sound entries → shared_at id (values_in_effect entries) ≡ value_at id entries }
    ensures created { (id : ℕ) (value : Action) (entries : Entries) → entry_at id entries ≡ None
        → values_in_effect (added id value false entries) ≡ with_shared id value (values_in_effect entries) }
    ensures held { (id : ℕ) (value : Action) (entries : Entries) → values_in_effect (added id value true entries) ≡ values_in_effect entries }
    ensures activated { (id : ℕ) (entries : Entries) (entry : SharedAction) → Sound entries → entry_at id entries ≡ Some entry → entry.held ≡ true
        → values_in_effect (activated id entries) ≡ with_shared id entry.value (values_in_effect entries) }
    ensures updated { (id : ℕ) (value : Action) (entries : Entries) → IsSome (in_effect_at id entries)
        → values_in_effect (updated id value entries) ≡ with_shared id value (values_in_effect entries) }
    ensures gone { (id : ℕ) (entries : Entries) → IsSome (in_effect_at id entries)
        → values_in_effect (without id entries) ≡ without_shared id (values_in_effect entries) }
    ensures adopted { (id : ℕ) (entries : Entries) → values_in_effect (adopted id entries) ≡ values_in_effect entries }
    ensures released { (id : ℕ) (entries : Entries) → values_in_effect (released id entries) ≡ values_in_effect entries }
    ensures raised { (id bytes : ℕ) (entries : Entries) → values_in_effect (raised id bytes entries) ≡ values_in_effect entries }
{}

/// Each call changes what stands at its own id, and nothing else.
pub fn each_call_changes_its_own_id()
    ensures added { (id q : ℕ) (value : Action) (held : Bool) (entries : Entries) → entry_at id entries ≡ None
        → entry_at q (added id value held entries) ≡ (if nat_eq q id then Some (created value held) else entry_at q entries) }
    ensures gone { (id q : ℕ) (entries : Entries) → Sound entries → entry_at q (without id entries) ≡ (if nat_eq id q then None else entry_at q entries) }
    ensures activated { (id q : ℕ) (entries : Entries) (entry : SharedAction) → Sound entries → entry_at id entries ≡ Some entry
        → entry_at q (activated id entries) ≡ (if nat_eq q id then Some (record entry { held = false; count = no_count }) else entry_at q entries) }
    ensures changed { (id q : ℕ) (change : SharedAction → SharedAction) (entries : Entries)
        → entry_at q (changed_at id change entries) ≡ (if nat_eq q id then option_map change (entry_at q entries) else entry_at q entries) }
{}

/// A new value is of the kind of the one that it replaces.
pub fn new_values_keep_the_kinds()
    ensures { (rxq id q : ℕ) (entries : Entries) (value : Action) → update_fault rxq entries id value ≡ None → kind_at q (updated id value entries) ≡ kind_at q entries }
{}

/// Where all calls are judged for a port of so many Rx queues, all values are that port's.
pub fn values_are_on_the_port()
    ensures created { (rxq id : ℕ) (entries : Entries) (given : Option ℕ) (attr : Attr) (value : Action) (held : Bool) → create_fault rxq entries given attr value ≡ None
        → AreOn rxq entries → AreOn rxq (added id value held entries) }
    ensures activated { (rxq id : ℕ) (entries : Entries) → AreOn rxq entries → AreOn rxq (activated id entries) }
    ensures updated { (rxq id : ℕ) (entries : Entries) (value : Action) → update_fault rxq entries id value ≡ None → AreOn rxq entries → AreOn rxq (updated id value entries) }
    ensures gone { (rxq id : ℕ) (entries : Entries) → AreOn rxq entries → AreOn rxq (without id entries) }
    ensures adopted { (rxq id : ℕ) (entries : Entries) → AreOn rxq entries → AreOn rxq (adopted id entries) }
    ensures released { (rxq id : ℕ) (entries : Entries) → AreOn rxq entries → AreOn rxq (released id entries) }
    ensures raised { (rxq id bytes : ℕ) (entries : Entries) → AreOn rxq entries → AreOn rxq (raised id bytes entries) }
    ensures seen { (rxq : ℕ) (entries : Entries) → AreOn rxq entries → AreSharedOn rxq (values_in_effect entries) }
{}
