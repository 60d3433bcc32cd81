//! What one line asks for.
ghost use Rattle.std.specs.Prelude.{◌≡◌, ◌<◌, ◌≤◌, List, [], ◌∷◌, ◌++◌, length, slice_get, option_map, IfOk, OnOk};

use flow_calls::Op;
use std::alloc::{AllocError, Global};
use std::marker::Model;

/// The ops that one line asks for, in order: one, or one of each id that it lists, which are at most 64.
#[derive(Drop)]
pub struct OpList {
    ops: Vec<Op>,
}

impl Model for OpList {
    ghost use Rattle.std.specs.Prelude.{◌≤◌, List, length};
    ghost use Rattle.flow_calls.specs.declared.call.Op.{Op};

    ghost Value = { List Op };

    ghost view = { λ list. list.ops.items };

    ghost invariant = { λ list. length list.ops.items ≤ 64 };
}

impl OpList {
    /// The list of no op.
    pub(crate) fn new(alloc: Global) -> OpList
        ensures { result ≡ [] }
    {
        OpList {
            ops: Vec::new(alloc),
        }
    }

    /// Puts an op behind the others.
    pub(crate) fn push(&mut self, op: Op) -> Result<(), AllocError>
        requires { length self.old < 64 }
        ensures { OnOk result (self.new ≡ self.old ++ op ∷ []) }
    {
        self.ops.push(op)?;
        Ok(())
    }

    /// How many ops there are.
    pub fn len(&self) -> usize
        ensures value { result ≡ length self.now }
        ensures few { result ≤ 64 }
    {
        self.ops.len()
    }

    /// The op at a place, counted from 0.
    pub fn get(&self, i: usize) -> &Op
        requires { i < length self.now }
        ensures { slice_get self.now i ≡ Some result.now }
    {
        &self.ops[i]
    }

    /// The ops themselves.
    pub(crate) fn into_ops(self) -> Vec<Op>
        ensures value { result.items ≡ self }
        ensures few { length result.items ≤ 64 }
    {
        let OpList { ops } = self;
        ops
    }

    /// All ops.
    pub fn as_slice(&self) -> &[Op]
        ensures value { result.now ≡ self.now }
        ensures few { length self.now ≤ 64 }
    {
        self.ops.as_slice()
    }
}

/// The list of one op, where there is one.
pub(crate) fn one_op(alloc: Global, op: Option<Op>) -> Result<Option<OpList>, AllocError>
    ensures { IfOk result (λ list. list ≡ option_map (λ op. op ∷ []) op) }
{
    let Some(op) = op else {
        return Ok(None);
    };
    let mut list = OpList::new(alloc);
    list.push(op)?;
    Ok(Some(list))
}
