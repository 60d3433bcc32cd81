//! The adapter that a port is made of.
ghost use Rattle.std.specs.Prelude.{◌≡◌, ℕ, [], IfOk};
ghost use Rattle.flow_rules.specs.Limits.{AreLimits};
ghost use Rattle.flow_calls.specs.Entries.{calls_by, numbers_by};

use adapter::Adapter;
use flow_calls::{Call, Caller};
use flow_rules::Limits;
use std::alloc::{AllocError, Global};

/// An adapter that the shell asked these calls.
pub fn open_adapter(alloc: Global, limits: Limits, calls: &[Call]) -> Result<Adapter, AllocError>
    requires { AreLimits limits }
    ensures limits { IfOk result (λ adapter. adapter.limits ≡ limits) }
    ensures calls { IfOk result (λ adapter. calls_by 0 adapter.history ≡ calls.now) }
    ensures frames { IfOk result (λ adapter. (who : ℕ) → numbers_by who adapter.history ≡ []) }
{
    let mut adapter = Adapter::new(alloc, limits)?;
    for call in calls {
        adapter.step(Caller::SHELL, call)?;
    }
    Ok(adapter)
}
