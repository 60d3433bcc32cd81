//! What the generated calls met, so that a comparison of a few kinds of replies alone doesn't pass.
use crate::expected::{CALLS, OUTCOMES};
use crate::performing::Outcome;
use crate::replies::Due;
use flow_calls::{Op, Reply};
use flow_rules::Cause;
use std::alloc::{AllocError, Global};
use std::process::Abort;

/// What a call asks for, without its numbers.
#[derive(Clone, Copy, Debug, PartialEq, Eq)]
pub(crate) enum Asked {
    Validate,
    Create,
    Destroy,
    Flush,
    Query,
    List,
    IndirectCreate,
    IndirectUpdate,
    IndirectDestroy,
    IndirectQuery,
    PatternTemplateCreate,
    PatternTemplateDestroy,
    ActionsTemplateCreate,
    ActionsTemplateDestroy,
    TableCreate,
    TableDestroy,
    Configure,
    QueueCreate,
    QueueDestroy,
    QueueIndirectCreate,
    QueueIndirectUpdate,
    QueueIndirectDestroy,
    Push,
    Pull,
    /// No generated call.
    Other,
}

fn kind_on_queues(op: &Op) -> Asked {
    match op {
        Op::Configure { .. } => Asked::Configure,
        Op::QueueCreate { .. } => Asked::QueueCreate,
        Op::QueueDestroy { .. } => Asked::QueueDestroy,
        Op::QueueIndirectCreate { .. } => Asked::QueueIndirectCreate,
        Op::QueueIndirectUpdate { .. } => Asked::QueueIndirectUpdate,
        Op::QueueIndirectDestroy { .. } => Asked::QueueIndirectDestroy,
        Op::Push(_) => Asked::Push,
        Op::Pull(_) => Asked::Pull,
        _ => Asked::Other,
    }
}

fn kind_of(op: &Op) -> Asked {
    match op {
        Op::Validate(_) => Asked::Validate,
        Op::Create(_) => Asked::Create,
        Op::Destroy(_) => Asked::Destroy,
        Op::Flush => Asked::Flush,
        Op::Query(_) => Asked::Query,
        Op::List => Asked::List,
        Op::IndirectCreate { .. } => Asked::IndirectCreate,
        Op::IndirectUpdate { .. } => Asked::IndirectUpdate,
        Op::IndirectDestroy(_) => Asked::IndirectDestroy,
        Op::IndirectQuery(_) => Asked::IndirectQuery,
        Op::PatternTemplateCreate { .. } => Asked::PatternTemplateCreate,
        Op::PatternTemplateDestroy(_) => Asked::PatternTemplateDestroy,
        Op::ActionsTemplateCreate { .. } => Asked::ActionsTemplateCreate,
        Op::ActionsTemplateDestroy(_) => Asked::ActionsTemplateDestroy,
        Op::TableCreate { .. } => Asked::TableCreate,
        Op::TableDestroy(_) => Asked::TableDestroy,
        _ => kind_on_queues(op),
    }
}

/// What was met over all seeds.
#[derive(Drop)]
pub(crate) struct Met {
    /// Each kind of call that was accepted (no cause), and with each cause for which it was refused.
    calls: Vec<(Asked, Option<Cause>)>,
    outcomes: Vec<Outcome>,
    /// Results that one pull told, at most.
    most_pulled: usize,
}

fn cause_of(due: &Due) -> Option<Cause> {
    match due {
        Due::Reply(Reply::Fault(fault)) => Some(fault.cause),
        _ => None,
    }
}

impl Met {
    pub(crate) fn new(alloc: Global) -> Met {
        Met {
            calls: Vec::new(alloc),
            outcomes: Vec::new(alloc),
            most_pulled: 0,
        }
    }

    pub(crate) fn call(&mut self, op: &Op, due: &Due) -> Result<(), AllocError> {
        let call = (kind_of(op), cause_of(due));
        if !self.calls.as_slice().contains(&call) {
            self.calls.push(call)?;
        }
        if let Due::Pulled(_, results) = due {
            self.most_pulled = self.most_pulled.max(results.len());
        }
        Ok(())
    }

    pub(crate) fn outcomes(&mut self, outcomes: &[Outcome]) -> Result<(), AllocError> {
        for outcome in outcomes {
            if !self.outcomes.as_slice().contains(outcome) {
                self.outcomes.push(*outcome)?;
            }
        }
        Ok(())
    }

    fn expect_calls(&self, rt: &impl Abort, asked: Asked, causes: &[Cause]) {
        assert!(rt;
            self.calls.as_slice().contains(&(asked, None)),
            "{asked:?} is never accepted"
        );
        for cause in causes {
            assert!(rt;
                self.calls.as_slice().contains(&(asked, Some(*cause))),
                "{asked:?} is never refused for {cause:?}"
            );
        }
    }

    /// All that these calls can meet was met.
    pub(crate) fn expect_all(&self, rt: &impl Abort) {
        for (asked, causes) in &CALLS {
            self.expect_calls(rt, *asked, causes);
        }
        for outcome in &OUTCOMES {
            assert!(rt;
                self.outcomes.as_slice().contains(outcome),
                "no {outcome:?}"
            );
        }
        assert!(rt; self.most_pulled == 4, "no pull tells of a whole queue");
    }
}
