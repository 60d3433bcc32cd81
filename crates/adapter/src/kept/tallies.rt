//! What a kept frame adds to counters and totals.
ghost use Rattle.std.specs.Prelude.{◌≡◌};
ghost use Rattle.adapter.specs.Kept.{entry_kept, ids_of};
ghost use Rattle.adapter.specs.Tallies.{IsPassed, Tallies};

use super::shown::{copy_of, path_of};
use super::{Head, Kept};
use arrayvec::ArrayVec;
use flow_actions::{Fate, MAX_PATH};

/// The ids of the rules on a frame's way, its fate and its bytes.
#[derive(Drop)]
pub(crate) struct Tally {
    pub(crate) path: ArrayVec<u32, MAX_PATH>,
    pub(crate) fate: Fate,
    pub(crate) bytes: u32,
}

/// What a frame adds, from what is kept of it.
pub(crate) fn tally_of(kept: &Kept) -> Tally
    requires { IsPassed (entry_kept kept.now) }
    ensures { Tallies (entry_kept kept.now) result }
{
    match kept {
        Kept::Asked(_) => unreachable!(),
        Kept::Plain(plain) => tally_in(&plain.head),
        Kept::Stacked(head, _) => tally_in(head),
        Kept::Keyed(head, _) => tally_in(head),
        Kept::Long(long) => Tally {
            path: copy_of(&long.verdict.path),
            fate: long.verdict.fate,
            bytes: long.parcel.len,
        },
    }
}

fn tally_in(head: &Head) -> Tally
    ensures { result ≡ record { path = record { items = ids_of head.now.steps }; fate = head.now.fate; bytes = head.now.len } }
{
    Tally {
        path: path_of(head.steps),
        fate: head.fate,
        bytes: head.len,
    }
}
