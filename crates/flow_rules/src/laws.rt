//! Laws of the definitions.
ghost use Rattle.std.specs.Prelude.{ℕ, List, All, length, fold, ◌++◌, ◌≡◌, ◌≤◌, ◌↔◌};
ghost use Rattle.packet_headers.specs.declared.items.LayerAt.{LayerAt};
ghost use Rattle.flow_rules.specs.declared.change.Change.{Change};
ghost use Rattle.flow_rules.specs.declared.limits.Limits.{Limits};
ghost use Rattle.flow_rules.specs.Changes.{changed};
ghost use Rattle.flow_rules.specs.Lawful.{AreLawful, MayBeInEffect, MayCome};
ghost use Rattle.flow_rules.specs.Walk.{Flows, start, walk, walked_by, counters_of};
ghost use Rattle.flow_rules.specs.Valid.{IsValidRule};
ghost use Rattle.flow_rules.specs.Shared.{AreSharedOn};
ghost use Rattle.flow_rules.specs.Naming.{HaveOwnIds, AreNamedByPath};

/// A walk over valid rules and shared actions has ended when 16 groups were visited: more visits change nothing.
pub fn more_visits_change_nothing()
    ensures { (flows : Flows) (layers : List LayerAt) (n : ℕ) → All IsValidRule flows.rules → AreSharedOn flows.rxq flows.shared → 16 ≤ n
        → walked_by n flows (start layers) ≡ walk flows layers }
{}

/// The counters that a frame raises are those that the rules on its path name, in order: who knows its verdict needs no second
/// walk to count it.
pub fn counters_are_named_by_the_path()
    ensures { (flows : Flows) (layers : List LayerAt) → HaveOwnIds flows.rules → AreNamedByPath flows layers }
{}

/// A frame raises at most 256 counters: 16 rules of at most 16 actions.
pub fn counters_are_few()
    ensures { (flows : Flows) (layers : List LayerAt) → All IsValidRule flows.rules → length (counters_of flows layers) ≤ 256 }
{}

/// Changes are lawful just where their first part is, and the others are behind it.
pub fn lawful_changes_come_in_parts()
    ensures { (limits : Limits) (flows : Flows) (first others : List Change)
        → AreLawful limits flows (first ++ others) ↔ (AreLawful limits flows first × AreLawful limits (fold changed flows first) others) }
{}

/// What may be in effect stays so with each change that may come: so changes are lawful that are judged one by one.
pub fn changes_keep_what_may_be_in_effect()
    ensures { (rxq : ℕ) (flows : Flows) (change : Change) → MayBeInEffect rxq flows → MayCome rxq flows change → MayBeInEffect rxq (changed flows change) }
{}
