//! What the adapter answers to a call.
use crate::call::BadKind;
use crate::rows::RuleList;
use flow_rules::Fault;
use op_queues::Outcomes;
use shared_value::Shared;

/// Frames counted since the session began.
#[derive(Clone, Copy, Debug, PartialEq, Eq)]
pub struct Totals {
    pub received: u64,
    pub dropped: u64,
    /// Delivered frames, by Rx queue.
    pub queues: [u64; 16],
}

/// What a flow queue is asked to do.
#[derive(Clone, Copy, Debug, PartialEq, Eq)]
pub enum OpKind {
    RuleCreate,
    RuleDestroy,
    IndirectCreate,
    IndirectUpdate,
    IndirectDestroy,
}

/// The answer to a call.
#[derive(Clone, Debug, Drop)]
pub enum Reply {
    /// The rule would be taken.
    Validated,
    /// The rule of this id took effect.
    Created(u32),
    /// The rule of this id is gone.
    Destroyed(u32),
    /// All rules are gone.
    Flushed,
    /// Frames, and their bytes.
    Counted(u64, u128),
    Listed(RuleList),
    /// Whether frames that no rule takes are dropped from now on.
    Isolated(bool),
    /// The shared action of this id took effect.
    IndirectCreated(u16),
    /// The shared action of this id has its new value.
    IndirectUpdated(u16),
    /// The shared action of this id is gone.
    IndirectDestroyed(u16),
    /// The pattern template of this id was made.
    PatternTemplateCreated(u16),
    /// The pattern template of this id is gone.
    PatternTemplateDestroyed(u16),
    /// The actions template of this id was made.
    ActionsTemplateCreated(u16),
    /// The actions template of this id is gone.
    ActionsTemplateDestroyed(u16),
    /// The table of this id was made.
    TableCreated(u16),
    /// The table of this id is gone.
    TableDestroyed(u16),
    /// So many flow queues are there, each for so many operations in flight.
    Configured(u32, u32),
    /// An operation on the rule, or on the shared action, of this id is held.
    Enqueued(OpKind, u32),
    /// All that this flow queue held took effect.
    Pushed(u16),
    /// The results that waited in this flow queue, in order: for each, whether the operation succeeded.
    Pulled(u16, Shared<Outcomes>),
    Started,
    Stopped(Shared<Totals>),
    /// The script ends.
    Bye,
    Bad(BadKind),
    Fault(Fault),
}
