//! Calls in order.
ghost use Rattle.std.specs.Prelude.{◌≡◌, ◌<◌, List, [], ◌∷◌, ◌++◌, length, slice_get, OnOk, OnErr, IsTrue, ◌↔◌};

use flow_calls::Call;
use std::alloc::{AllocError, Global};
use std::marker::Model;

/// Calls in the order of the script.
#[derive(Drop)]
pub struct CallList {
    calls: Vec<Call>,
}

impl Model for CallList {
    ghost use Rattle.std.specs.Prelude.{List};
    ghost use Rattle.flow_calls.specs.declared.call.Call.{Call};

    ghost Value = { List Call };

    ghost view = { λ list. list.calls.items };
}

impl CallList {
    /// With no call.
    pub(crate) fn new(alloc: Global) -> CallList
        ensures { result ≡ [] }
    {
        CallList {
            calls: Vec::new(alloc),
        }
    }

    /// Puts a call behind the others.
    pub(crate) fn push(&mut self, call: Call) -> Result<(), AllocError>
        ensures ok { OnOk result (self.new ≡ self.old ++ call ∷ []) }
        ensures err { OnErr result (self.new ≡ self.old) }
    {
        self.calls.push(call)?;
        Ok(())
    }

    /// How many calls there are.
    pub fn len(&self) -> usize
        ensures { result ≡ length self.now }
    {
        self.calls.len()
    }

    /// The calls themselves.
    pub(crate) fn into_calls(self) -> Vec<Call>
        ensures { result.items ≡ self }
    {
        let CallList { calls } = self;
        calls
    }

    pub(crate) fn is_empty(&self) -> bool
        ensures { IsTrue result ↔ (self.now ≡ []) }
    {
        self.calls.is_empty()
    }

    /// The call at a place, counted from 0.
    pub fn get(&self, i: usize) -> &Call
        requires { i < length self.now }
        ensures { slice_get self.now i ≡ Some result.now }
    {
        &self.calls[i]
    }

    /// All calls.
    pub fn as_slice(&self) -> &[Call]
        ensures { result.now ≡ self.now }
    {
        self.calls.as_slice()
    }
}
