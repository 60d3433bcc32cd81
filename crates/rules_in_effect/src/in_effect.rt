//! Rules in effect.
ghost use Rattle.std.specs.Prelude.{◌≡◌, ◌+◌, ◌-◌, ◌<◌, ◌^◌};
ghost use Rattle.rules_in_effect.specs.Entries.{with_hit};

use flow_rules::{Count, Rule};
use shared_value::Shared;

/// A rule in effect, the table in which it stands, if it stands in one, and what its own COUNT has counted.
#[derive(Drop)]
pub struct InEffect {
    pub rule: Shared<Rule>,
    pub table: Option<u16>,
    pub count: Count,
}

/// Counts one frame more, of so many bytes.
pub(crate) fn hit(entry: &mut InEffect, bytes: u32)
    requires hits { entry.old.count.hits < 2 ^ 64 - 1 }
    requires bytes { entry.old.count.bytes + bytes < 2 ^ 128 }
    ensures { entry.new ≡ with_hit bytes entry.old }
{
    entry.count.hits += 1;
    entry.count.bytes += u128::from(bytes);
}
