//! Why a call was refused.
ghost use Rattle.std.specs.Prelude.{◌≡◌};
ghost use Rattle.flow_rules.specs.ErrorTypes.{error_type};

/// The causes of a refusal.
#[derive(Clone, Copy, PartialEq, Eq, Debug)]
pub enum Cause {
    /// A group over 15.
    GroupRange,
    /// A priority over 65,535.
    PriorityRange,
    /// A rule without `ingress`.
    NoIngress,
    /// A rule with `egress`.
    Egress,
    /// A rule with `transfer`.
    Transfer,
    /// The rules of a table outside 1 to 65,536, or more than that over all tables.
    RulesNumber,
    /// More than 16 items.
    TooManyItems,
    /// An item with `last` or `mask` and without `spec`.
    SpecMissing,
    /// An item without `spec` where its template has a mask.
    SpecNeeded,
    /// An item in which a field's `last` is below its `spec`.
    LastBelow,
    /// An item with `last` where a template stands.
    LastInTemplate,
    /// An item that may not stand behind the one before it.
    ItemOrder,
    /// Items that aren't those of the template.
    ItemDiffers,
    /// More than 16 actions.
    TooManyActions,
    /// An action's value out of its range.
    ActionConf,
    /// An indirect action that isn't in effect.
    NoIndirect,
    /// An edit of a header that the pattern doesn't name.
    ItemNeeded,
    /// A second action that says where a frame goes.
    SecondFate,
    /// A counter that is named twice.
    SecondCount,
    /// Actions that aren't those of the template.
    ActionDiffers,
    /// An action of a kind that can't be indirect.
    KindNotIndirect,
    /// A value of another kind than the indirect action has.
    KindDiffers,
    /// An indirect action that has no value to replace.
    CannotUpdate,
    /// A query where no counter is.
    NoCounter,
    /// An id of no rule in effect.
    NoRule,
    /// An id of no object.
    NoObject,
    /// A queue that isn't configured.
    NoQueue,
    /// An index past a table's templates.
    TemplateIndex,
    /// An id that is in use.
    IdInUse,
    /// As many rules are in effect as the store holds.
    StoreFull,
    /// All slots of the table are taken.
    TableFull,
    /// As many operations are in flight as the queue holds.
    QueueFull,
    /// A number of queues outside 1 to 8, or a size outside 1 to 1,024.
    QueueRange,
    /// As many objects of the kind as there may be.
    TooMany,
    /// An object that others use.
    Busy,
    /// The queues are configured.
    AlreadyConfigured,
}

/// What a fault is about (rte_flow guide: verbose error types). Numbers and names are this project's own.
#[derive(Clone, Copy, PartialEq, Eq, Debug)]
pub enum ErrorType {
    Unspecified,
    Handle,
    AttrGroup,
    AttrPriority,
    AttrIngress,
    AttrEgress,
    AttrTransfer,
    Attr,
    ItemNum,
    ItemSpec,
    ItemLast,
    ItemMask,
    Item,
    ActionNum,
    ActionConf,
    Action,
    State,
}

/// A refusal: its cause, and the place in the list of items or actions that it names, or 0.
#[derive(Clone, Copy, PartialEq, Eq, Debug)]
pub struct Fault {
    pub cause: Cause,
    pub at: u16,
}

impl Fault {
    /// What the fault is about.
    pub fn kind(&self) -> ErrorType
        ensures { result ≡ error_type self.now.cause }
    {
        match self.cause {
            Cause::GroupRange => ErrorType::AttrGroup,
            Cause::PriorityRange => ErrorType::AttrPriority,
            Cause::NoIngress => ErrorType::AttrIngress,
            Cause::Egress => ErrorType::AttrEgress,
            Cause::Transfer => ErrorType::AttrTransfer,
            Cause::RulesNumber => ErrorType::Attr,
            Cause::TooManyItems => ErrorType::ItemNum,
            Cause::SpecMissing | Cause::SpecNeeded => ErrorType::ItemSpec,
            Cause::LastBelow | Cause::LastInTemplate => ErrorType::ItemLast,
            Cause::ItemOrder | Cause::ItemDiffers => ErrorType::Item,
            Cause::TooManyActions => ErrorType::ActionNum,
            Cause::ActionConf | Cause::NoIndirect => ErrorType::ActionConf,
            Cause::ItemNeeded
            | Cause::SecondFate
            | Cause::SecondCount
            | Cause::ActionDiffers
            | Cause::KindNotIndirect
            | Cause::KindDiffers
            | Cause::CannotUpdate
            | Cause::NoCounter => ErrorType::Action,
            Cause::NoRule
            | Cause::NoObject
            | Cause::NoQueue
            | Cause::TemplateIndex
            | Cause::IdInUse => ErrorType::Handle,
            Cause::StoreFull
            | Cause::TableFull
            | Cause::QueueFull
            | Cause::QueueRange
            | Cause::TooMany => ErrorType::Unspecified,
            Cause::Busy | Cause::AlreadyConfigured => ErrorType::State,
        }
    }
}

/// Why an object wasn't made: it was refused, or there is no memory.
#[derive(Clone, Copy, PartialEq, Eq, Debug)]
pub enum TplFault {
    Fault(Fault),
    NoMemory,
}
