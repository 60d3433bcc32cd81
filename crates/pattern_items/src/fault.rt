//! Faults of a pattern.

/// Why a pattern is refused. A place counts the pattern's items from 0, `Void` included.
#[derive(Clone, Copy, PartialEq, Eq, Debug)]
pub enum ItemFault {
    /// More than 16 items.
    TooMany,
    /// The item at this place may not stand behind the one before it.
    Order(u16),
    /// The item at this place has `last` or `mask` without `spec`.
    SpecMissing(u16),
    /// In the item at this place a field's `last` isn't 0 and is below its `spec`, each by the mask.
    LastBelow(u16),
}
