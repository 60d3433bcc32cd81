//! Turns: the order in which tables are looked at.
ghost use Rattle.std.specs.Prelude.{◌≡◌, ◌<◌, ◌^◌, nat_lt};
ghost use Rattle.std.specs.List.Sorted.{IsNonDecreasingBy};
ghost use Rattle.rule_index.specs.Turns.{order_of, order_in, IsCut};

/// How many priorities a group has at most.
const PRIORITIES: u64 = 4_294_967_296;

/// The turn of a table: its group and priority as one number, and its own number.
#[derive(Clone, Copy)]
pub(crate) struct Turn {
    pub(crate) order: u64,
    pub(crate) number: usize,
}

/// A group and a priority as one number.
#[inline(always)]
pub(crate) fn order_of(group: u32, priority: u32) -> u64
    ensures { result ≡ order_of group priority }
{
    group as u64 * PRIORITIES + priority as u64
}

/// The turn of a table of this number.
pub(crate) fn turn_by(group: u32, priority: u32, number: usize) -> Turn
    ensures is { result ≡ record { order = order_of group priority; number = number } }
    ensures low { priority < 2 ^ 32 }
{
    Turn {
        order: order_of(group, priority),
        number,
    }
}

/// How many turns come before an order.
pub(crate) fn cut(turns: &[Turn], order: u64) -> usize
    requires { IsNonDecreasingBy order_in turns.now }
    ensures { IsCut turns.now order result }
{
    turns.partition_point(
        |turn: &Turn| -> bool
            ensures { result ≡ nat_lt turn.now.order order }
        { turn.order < order },
    )
}
