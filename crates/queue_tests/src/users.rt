//! What the plain model counts: slots that are taken, users of a shared action, and the ids of shared actions in use.
use crate::plain::{Held, PlainPort, PlainRule, ids_of};
use flow_actions::Action;
use std::alloc::AllocError;

/// What rules take up.
#[derive(Clone, Copy)]
pub(crate) enum Use {
    /// A slot of this table.
    Slot(u16),
    /// The shared action of this id.
    Object(u16),
}

impl Use {
    fn is_by(self, rule: &PlainRule) -> bool {
        match self {
            Use::Slot(table) => rule.table == Some(table),
            Use::Object(id) => {
                let list = rule.spec.actions.list.as_slice();
                list.contains(&Action::Indirect(id as u32))
            }
        }
    }

    fn count_held(self, ops: &[Held]) -> u32 {
        let mut users: u32 = 0;
        for op in ops {
            if let Held::RuleCreate(rule) = op {
                users = users.wrapping_add(self.is_by(rule) as u32);
            }
        }
        users
    }

    fn count_in_effect(self, rules: &[PlainRule]) -> u32 {
        let mut users: u32 = 0;
        for rule in rules {
            users = users.wrapping_add(self.is_by(rule) as u32);
        }
        users
    }

    /// By how many rules: those in effect, and those whose creation a queue holds.
    pub(crate) fn count(self, port: &PlainPort) -> u32 {
        let mut users = self.count_in_effect(port.rules.as_slice());
        for queue in port.queues.as_slice() {
            users = users.wrapping_add(self.count_held(queue.held.as_slice()));
        }
        users
    }
}

fn add_held_ids(ids: &mut Vec<u16>, ops: &[Held]) -> Result<(), AllocError> {
    for op in ops {
        if let Held::IndirectCreate(object) = op {
            ids.push(object.id)?;
        }
    }
    Ok(())
}

/// The ids of shared actions: those in effect, and those whose creation a queue holds.
pub(crate) fn object_ids(port: &PlainPort) -> Result<Vec<u16>, AllocError> {
    let mut ids = ids_of(port.alloc, port.objects.as_slice())?;
    for queue in port.queues.as_slice() {
        add_held_ids(&mut ids, queue.held.as_slice())?;
    }
    Ok(ids)
}
