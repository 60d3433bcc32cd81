//! Laws of the definitions.
ghost use Rattle.std.specs.Prelude.{◌≡◌, ◌++◌, ℕ, List};
ghost use Rattle.packet_headers.specs.declared.items.LayerAt.{LayerAt};
ghost use Rattle.flow_rules.specs.declared.change.Change.{Change};
ghost use Rattle.flow_rules.specs.Naming.{HaveOwnIds};
ghost use Rattle.flow_rules.specs.Shared.{AreSharedOn};
ghost use Rattle.flow_rules.specs.Walk.{Flows};
ghost use Rattle.replica.specs.Caught.{ReplicaView, caught_up};
ghost use Rattle.replica.specs.Path.{AreOfPath};
ghost use Rattle.replica.specs.Rewritten.{AreWalked};

/// A replica that catches up with changes in two parts, one behind the other, is where one is that catches up with all at once.
pub fn changes_come_in_parts()
    ensures { (replica : ReplicaView) (first others : List Change) → caught_up replica (first ++ others) ≡ caught_up (caught_up replica first) others }
{}

/// The edits of a frame's walk are those of the rules on its path, in order: who knows its verdict needs no second walk to
/// edit it.
pub fn edits_are_those_of_the_path()
    ensures { (flows : Flows) (layers : List LayerAt) → HaveOwnIds flows.rules → AreSharedOn flows.rxq flows.shared → AreOfPath flows layers }
{}

/// The edits of a frame's bytes are done on the layers as they were in the walk: behind the last edit the layers are those with
/// which the walk ended.
pub fn bytes_are_edited_as_the_layers_were()
    ensures { (flows : Flows) (layers : List LayerAt) (bytes : List ℕ) → AreWalked flows layers bytes }
{}
