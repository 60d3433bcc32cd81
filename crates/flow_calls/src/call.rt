//! The calls that a script makes.
ghost use Rattle.std.specs.Prelude.{◌≡◌};

use arrayvec::ArrayVec;
use flow_actions::{Action, Actions};
use flow_rules::{Attr, RuleSpec};
use pattern_items::Pattern;
use rule_binding::Masks;
use shared_value::Shared;
use std::alloc::AllocError;
use template_tables::MAX_TEMPLATES;

/// The lists that an actions template is made of.
#[derive(Debug, Drop)]
pub struct ActionLists {
    pub actions: Actions,
    /// Which of the actions have the value that stands there for all rules.
    pub masks: Masks,
}

/// The ids of the templates that a table names.
#[derive(Debug, Drop)]
pub struct TableTemplates {
    pub patterns: ArrayVec<u16, MAX_TEMPLATES>,
    pub actions: ArrayVec<u16, MAX_TEMPLATES>,
}

/// The pattern and the actions of a rule that is bound to two templates of a table.
#[derive(Debug, Drop)]
pub struct RuleLists {
    pub pattern: Pattern,
    pub actions: Actions,
}

/// Where a call stands in its script: the line, counted from 1, and the part of that line, counted from 1.
#[derive(Clone, Copy, Debug, PartialEq, Eq)]
pub struct At {
    pub line: u32,
    pub part: u16,
}

/// Why a line or a call isn't carried out.
#[derive(Clone, Copy, Debug, PartialEq, Eq)]
pub enum BadKind {
    /// The line fits no form.
    Arguments,
    /// A form with a port other than 0.
    Port,
    /// `stop` outside a phase.
    NotStarted,
    /// `start` inside a phase.
    AlreadyStarted,
}

/// What a call asks for.
#[derive(Clone, Debug, Drop)]
pub enum Op {
    /// `flow validate`: whether a rule would be taken.
    Validate(Shared<RuleSpec>),
    /// `flow create`: a rule takes effect.
    Create(Shared<RuleSpec>),
    /// `flow destroy`: the rule of this id goes.
    Destroy(u32),
    /// `flow flush`: all rules go.
    Flush,
    /// `flow query`: what the COUNT of the rule of this id has counted.
    Query(u32),
    /// `flow list`: the rules in effect.
    List,
    /// `flow isolate`: whether frames that no rule takes are dropped.
    Isolate(bool),
    /// `flow indirect_action create`: an action that rules can share takes effect, at this id or at the least unused one.
    IndirectCreate {
        id: Option<u16>,
        attr: Attr,
        action: Shared<Action>,
    },
    /// `flow indirect_action update`: the action of this id has this value for all rules that share it.
    IndirectUpdate {
        id: u16,
        action: Shared<Action>,
    },
    /// `flow indirect_action destroy`: the action of this id goes.
    IndirectDestroy(u16),
    /// `flow indirect_action query`: what the COUNT of this id has counted.
    IndirectQuery(u16),
    /// `flow pattern_template create`: a template of the items of rules is made, at this id or at the least unused one.
    PatternTemplateCreate {
        id: Option<u16>,
        attr: Attr,
        pattern: Shared<Pattern>,
    },
    /// `flow pattern_template destroy`: the pattern template of this id goes.
    PatternTemplateDestroy(u16),
    /// `flow actions_template create`: a template of the actions of rules is made, at this id or at the least unused one.
    ActionsTemplateCreate {
        id: Option<u16>,
        attr: Attr,
        lists: Shared<ActionLists>,
    },
    /// `flow actions_template destroy`: the actions template of this id goes.
    ActionsTemplateDestroy(u16),
    /// `flow template_table create`: a table for so many rules of these templates is made, at this id or at the least
    /// unused one.
    TableCreate {
        id: Option<u16>,
        attr: Attr,
        rules_number: u32,
        templates: Shared<TableTemplates>,
    },
    /// `flow template_table destroy`: the table of this id goes.
    TableDestroy(u16),
    /// `flow configure`: there are so many flow queues, each for so many operations in flight.
    Configure {
        queues: u32,
        size: u32,
    },
    /// `flow queue .. create`: a flow queue holds the creation of a rule of a table, bound to the templates at these indexes.
    /// Without `postpone` all that the queue holds takes effect.
    QueueCreate {
        queue: u16,
        postpone: bool,
        table: u16,
        pt: u16,
        act: u16,
        lists: Shared<RuleLists>,
    },
    /// `flow queue .. destroy`: a flow queue holds the end of the table rule of this id.
    QueueDestroy {
        queue: u16,
        postpone: bool,
        rule: u32,
    },
    /// `flow queue .. indirect_action .. create`: a flow queue holds the creation of an action that rules can share.
    QueueIndirectCreate {
        queue: u16,
        postpone: bool,
        id: Option<u16>,
        attr: Attr,
        action: Shared<Action>,
    },
    /// `flow queue .. indirect_action .. update`: a flow queue holds a new value of a shared action.
    QueueIndirectUpdate {
        queue: u16,
        postpone: bool,
        id: u16,
        action: Shared<Action>,
    },
    /// `flow queue .. indirect_action .. destroy`: a flow queue holds the end of a shared action.
    QueueIndirectDestroy {
        queue: u16,
        postpone: bool,
        id: u16,
    },
    /// `flow push`: all that a flow queue holds takes effect, in order.
    Push(u16),
    /// `flow pull`: the results that wait in a flow queue are answered and removed.
    Pull(u16),
    /// Opens a phase over so many of the remaining frames, or over all of them.
    Start(Option<u32>),
    /// Closes a phase.
    Stop,
    /// Ends the script.
    Quit,
    /// A line that isn't carried out.
    Bad(BadKind),
}

/// A call with its place in the script.
#[derive(Debug, Drop)]
pub struct Call {
    pub at: At,
    pub op: Op,
}

impl Clone for Call {
    ghost is_clone = { λ call copy. copy ≡ call };

    fn clone(&self) -> Result<Call, AllocError> {
        let op = self.op.clone()?;
        let at = self.at;
        Ok(Call { at, op })
    }
}
