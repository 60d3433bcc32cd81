//! What an accepted call does, told before it is done.
use crate::held::Held;
use flow_actions::Action;
use flow_calls::{ActionLists, TableTemplates};
use flow_rules::{Attr, Rule};
use pattern_items::Pattern;
use shared_value::Shared;

/// What a call does to the state.
#[derive(Drop)]
pub enum Effect {
    Nothing,
    Rules(RuleEffect),
    Templates(TemplateEffect),
    Queues(QueueEffect),
}

/// What a call does to rules and to the actions that they share. Packets see each of these.
#[derive(Drop)]
pub enum RuleEffect {
    /// The rule takes effect, with the id that it has; beside it the same rule for those who follow the changes.
    Created(Shared<Rule>, Shared<Rule>),
    /// The rule of this id goes.
    Destroyed(u32),
    /// All rules go.
    Flushed,
    /// A shared action takes effect at this id.
    SharedCreated(u16, Action),
    /// The shared action of this id has this value.
    SharedUpdated(u16, Action),
    /// The shared action of this id goes.
    SharedDestroyed(u16),
    /// Whether frames that no rule takes are dropped.
    Isolated(bool),
}

/// What a call does to templates and tables.
#[derive(Drop)]
pub enum TemplateEffect {
    /// A pattern template is made, at this id or at the least unused one.
    PatternMade {
        id: Option<u16>,
        attr: Attr,
        pattern: Shared<Pattern>,
    },
    /// The pattern template of this id goes.
    PatternGone(u16),
    /// An actions template is made, at this id or at the least unused one.
    ActionsMade {
        id: Option<u16>,
        attr: Attr,
        lists: Shared<ActionLists>,
    },
    /// The actions template of this id goes.
    ActionsGone(u16),
    /// A table is made, at this id or at the least unused one.
    TableMade {
        id: Option<u16>,
        attr: Attr,
        rules_number: u32,
        templates: Shared<TableTemplates>,
    },
    /// The table of this id goes.
    TableGone(u16),
}

/// What a call does to flow queues.
#[derive(Drop)]
pub enum QueueEffect {
    /// There are so many flow queues, each for so many operations in flight.
    Configured(u32, u32),
    /// A flow queue holds an operation, and where it isn't postponed all that the queue holds takes effect.
    Enqueued {
        queue: u16,
        postpone: bool,
        op: Held,
    },
    /// All that a flow queue holds takes effect.
    Pushed(u16),
    /// The results that wait in a flow queue are removed.
    Pulled(u16),
}
