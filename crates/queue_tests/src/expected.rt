//! What the generated calls must meet: each kind of call accepted, and refused for these causes, and these outcomes of operations.
use crate::met::Asked;
use crate::performing::Outcome;
use flow_calls::OpKind;
use flow_rules::Cause;
use flow_rules::Cause::{
    ActionConf, ActionDiffers, AlreadyConfigured, Busy, CannotUpdate, Egress, IdInUse, ItemDiffers,
    KindDiffers, KindNotIndirect, NoCounter, NoIndirect, NoObject, NoQueue, NoRule, QueueFull,
    QueueRange, RulesNumber, SecondCount, SecondFate, StoreFull, TableFull, TemplateIndex,
};

pub(crate) const CALLS: [(Asked, &[Cause]); 31] = [
    (Asked::Validate, &[Egress, NoIndirect]),
    (Asked::Create, &[Egress, NoIndirect, ActionConf]),
    (Asked::Create, &[SecondFate, SecondCount, StoreFull]),
    (Asked::Destroy, &[NoRule]),
    (Asked::Flush, &[]),
    (Asked::Query, &[NoRule, NoCounter]),
    (Asked::List, &[]),
    (Asked::IndirectCreate, &[Egress, KindNotIndirect]),
    (Asked::IndirectCreate, &[ActionConf, IdInUse]),
    (Asked::IndirectUpdate, &[NoObject, KindDiffers]),
    (Asked::IndirectUpdate, &[CannotUpdate, ActionConf]),
    (Asked::IndirectDestroy, &[NoObject, Busy]),
    (Asked::IndirectQuery, &[NoObject, NoCounter]),
    (Asked::PatternTemplateCreate, &[Egress, IdInUse]),
    (Asked::PatternTemplateDestroy, &[NoObject, Busy]),
    (
        Asked::ActionsTemplateCreate,
        &[Egress, ActionDiffers, IdInUse],
    ),
    (Asked::ActionsTemplateDestroy, &[NoObject, Busy]),
    (
        Asked::TableCreate,
        &[Egress, RulesNumber, NoObject, IdInUse],
    ),
    (Asked::TableDestroy, &[NoObject, Busy]),
    (Asked::Configure, &[AlreadyConfigured, QueueRange]),
    (
        Asked::QueueCreate,
        &[NoQueue, QueueFull, NoObject, TableFull],
    ),
    (
        Asked::QueueCreate,
        &[TemplateIndex, ItemDiffers, ActionDiffers],
    ),
    (
        Asked::QueueCreate,
        &[NoIndirect, ActionConf, SecondFate, SecondCount],
    ),
    (Asked::QueueDestroy, &[NoQueue, QueueFull]),
    (
        Asked::QueueIndirectCreate,
        &[NoQueue, QueueFull, Egress, IdInUse],
    ),
    (
        Asked::QueueIndirectUpdate,
        &[NoQueue, QueueFull, CannotUpdate],
    ),
    (Asked::QueueIndirectCreate, &[KindNotIndirect, ActionConf]),
    (Asked::QueueIndirectUpdate, &[KindNotIndirect, ActionConf]),
    (Asked::QueueIndirectDestroy, &[NoQueue, QueueFull]),
    (Asked::Push, &[NoQueue]),
    (Asked::Pull, &[NoQueue]),
];

pub(crate) const OUTCOMES: [Outcome; 8] = [
    (OpKind::RuleCreate, true),
    (OpKind::RuleDestroy, false),
    (OpKind::RuleDestroy, true),
    (OpKind::IndirectCreate, true),
    (OpKind::IndirectUpdate, false),
    (OpKind::IndirectUpdate, true),
    (OpKind::IndirectDestroy, false),
    (OpKind::IndirectDestroy, true),
];
