//! The id of a new object, and why one is refused.
ghost use Rattle.std.specs.Prelude.{◌≡◌, ◌<◌, ◌^◌, [], ◌∷◌, ◌++◌, false, nat_eq, None, length, OnOk, OnErr};
ghost use Rattle.std.specs.Map.{lookup};
ghost use Rattle.flow_rules.specs.Faults.{first};
ghost use Rattle.object_ids.specs.Ids.{IsLeastUnused, id_faults, is_taken};
ghost use Rattle.object_ids.specs.Ids.{id_for, least_unused};

use flow_rules::{Cause, Fault};
use indexmap::IndexMap;
use std::alloc::AllocError;

/// The least id that isn't in use.
#[tactic(auto, using(crate::proofs::Unused::room_at, crate::proofs::Unused::least_is))]
pub fn least_unused<T>(objects: &IndexMap<u16, T>) -> u16
    requires { length objects.now.entries < 2 ^ 16 }
    ensures least { IsLeastUnused objects.now.entries result }
    ensures computed { result ≡ least_unused objects.now.entries }
{
    let mut id: u16 = 0;
    while objects.contains_key(&id) {
        id += 1;
    }
    id
}

/// The id of a new object: the given one, or the least that isn't in use.
pub fn id_for<T>(objects: &IndexMap<u16, T>, id: Option<u16>) -> u16
    requires { length objects.now.entries < 2 ^ 16 }
    ensures computed { result ≡ id_for id objects.now.entries }
    ensures free { is_taken id objects.now.entries ≡ false → lookup (nat_eq result) objects.now.entries ≡ None }
{
    match id {
        Some(id) => id,
        None => least_unused(objects),
    }
}

/// Why a new object is refused, where there may be so many: its id is in use, or there are as many.
pub fn id_fault<T>(objects: &IndexMap<u16, T>, id: Option<u16>, most: usize) -> Option<Fault>
    ensures first { result ≡ first (id_faults most id objects.now.entries) }
    ensures free { result ≡ None → is_taken id objects.now.entries ≡ false }
    ensures few { result ≡ None → length objects.now.entries < most }
{
    if let Some(id) = id {
        if objects.contains_key(&id) {
            return Some(Fault {
                cause: Cause::IdInUse,
                at: 0,
            });
        }
    }
    if objects.len() >= most {
        return Some(Fault {
            cause: Cause::TooMany,
            at: 0,
        });
    }
    None
}

/// Puts an object behind the others, at an id that isn't in use.
pub fn insert<T: Drop>(objects: &mut IndexMap<u16, T>, id: u16, value: T) -> Result<(), AllocError>
    requires { lookup (nat_eq id) objects.old.entries ≡ None }
    ensures added { OnOk result (objects.new.entries ≡ objects.old.entries ++ (id, value) ∷ []) }
    ensures stays { OnErr result (objects.new.entries ≡ objects.old.entries) }
{
    objects.insert(id, value)?;
    Ok(())
}
