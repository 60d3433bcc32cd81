//! Laws of the definitions.
ghost use Rattle.std.specs.Prelude.{◌≡◌, ◌++◌, ◌∷◌, [], ℕ, List, All, fold, drop};
ghost use Rattle.flow_actions.specs.declared.verdict.Verdict.{Verdict};
ghost use Rattle.flow_rules.specs.declared.limits.Limits.{Limits};
ghost use Rattle.flow_rules.specs.Changes.{changed};
ghost use Rattle.flow_rules.specs.Lawful.{AreLawful};
ghost use Rattle.flow_rules.specs.Limits.{AreLimits};
ghost use Rattle.flow_calls.specs.declared.call.Op.{Op};
ghost use Rattle.flow_calls.specs.declared.caller.Caller.{Caller};
ghost use Rattle.flow_calls.specs.declared.entry.Entry.{Entry};
ghost use Rattle.flow_calls.specs.declared.entry.Entry.TheVariants.{Passed};
ghost use Rattle.flow_calls.specs.declared.parcel.Parcel.{Parcel};
ghost use Rattle.port_state.specs.State.{State, flows_of, opening, state_of};
ghost use Rattle.port_state.specs.Changes.{AreItsChanges, HasFewActions, changes_behind, changes_of, flows_at};

/// What packets see behind a call is what they saw before it, with the changes that the call makes, in order.
pub fn changes_are_what_packets_see()
    ensures { (limits : Limits) (s : State) (op : Op) → AreItsChanges limits s op }
{}

/// A longer history has the changes of its front, and then those of the entries behind it.
pub fn changes_begin_with_those_of_a_front()
    ensures { (limits : Limits) (front others : List Entry)
        → changes_of limits (front ++ others) ≡ changes_of limits front ++ changes_behind limits (state_of limits front) others }
{}

/// What packets see behind a history follows from its changes alone.
pub fn equal_changes_give_equal_flows()
    ensures follows { (limits : Limits) (history : List Entry) → flows_of (state_of limits history) ≡ fold changed (flows_of (opening limits)) (changes_of limits history) }
    ensures equal { (limits : Limits) (one other : List Entry) → changes_of limits one ≡ changes_of limits other → flows_of (state_of limits one) ≡ flows_of (state_of limits other) }
{}

/// A frame's entry changes nothing that calls did.
pub fn frames_change_nothing()
    ensures changes { (limits : Limits) (history : List Entry) (caller : Caller) (parcel : Parcel) (verdict : Verdict)
        → changes_of limits (history ++ Passed caller parcel verdict ∷ []) ≡ changes_of limits history }
    ensures state { (limits : Limits) (history : List Entry) (caller : Caller) (parcel : Parcel) (verdict : Verdict)
        → state_of limits (history ++ Passed caller parcel verdict ∷ []) ≡ state_of limits history }
{}

/// The changes of a history are lawful, from each version on: a replica that follows them is never asked for more than it can do.
/// Numbers and lists of contracts have no bounds, so that no rule has more than 16 actions is a premise.
pub fn changes_are_lawful()
    ensures { (limits : Limits) (history : List Entry) (version : ℕ) → AreLimits limits → All HasFewActions (changes_of limits history)
        → AreLawful limits (flows_at limits history version) (drop version (changes_of limits history)) }
{}
