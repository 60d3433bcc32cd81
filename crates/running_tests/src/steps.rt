//! Scripts as lists of steps, a step a line.
use std::alloc::{AllocError, Global};

/// What a rule of group 0 does with which frames.
#[derive(Clone, Copy)]
pub(crate) enum Aim {
    /// It counts the frames to 10.1.2.X, and delivers them to a queue.
    To(u8, u8),
    /// It counts the frames to 10.1.2.X, and drops them.
    DropTo(u8),
    /// It drops all frames, and counts none.
    DropAll,
}

impl Aim {
    /// Whether it takes the frames to that address.
    pub(crate) fn takes(&self, address: u8) -> bool {
        match self {
            Aim::To(to, _) | Aim::DropTo(to) => *to == address,
            Aim::DropAll => true,
        }
    }

    /// The queue that it delivers to, if it doesn't drop.
    pub(crate) fn queue(&self) -> Option<u8> {
        match self {
            Aim::To(_, queue) => Some(*queue),
            Aim::DropTo(_) | Aim::DropAll => None,
        }
    }
}

/// What a line of a script asks.
#[derive(Clone, Copy)]
pub(crate) enum Step {
    /// A line whose reply is always this, and which changes nothing that later steps meet.
    Fixed(&'static str, &'static str),
    /// Eight flow queues for 64 operations each.
    Configure,
    Create(Aim),
    Destroy(u32),
    Query(u32),
    List,
    Flush,
    /// A flow queue takes a rule of the table, and may hold it.
    Enqueue(u8, Aim, bool),
    /// A flow queue takes the end of a rule, and may hold it.
    EnqueueEnd(u8, u32, bool),
    Push(u8),
    Pull(u8),
    Start,
    Stop,
}

impl Step {
    /// Who asks it in a phase: the shell, which is 0, or the agent of a flow queue, counted from 1.
    pub(crate) fn caller(&self) -> usize {
        match self {
            Step::Enqueue(queue, _, _)
            | Step::EnqueueEnd(queue, _, _)
            | Step::Push(queue)
            | Step::Pull(queue) => usize::from(*queue) + 1,
            _ => 0,
        }
    }
}

/// The words of a rule behind its command.
fn rule_words(alloc: Global, aim: &Aim) -> Result<String, AllocError> {
    match aim {
        Aim::To(to, queue) => {
            format!(in alloc;
                "pattern eth / ipv4 dst is 10.1.2.{to} / end actions count / queue index {queue} / end"
            )
        }
        Aim::DropTo(to) => {
            format!(in alloc;
                "pattern eth / ipv4 dst is 10.1.2.{to} / end actions count / drop / end"
            )
        }
        Aim::DropAll => String::from_str(alloc, "pattern eth / end actions drop / end"),
    }
}

fn postponed(held: bool) -> &'static str {
    if held { "postpone yes " } else { "" }
}

/// A line of the script, without its end.
fn line_of(alloc: Global, step: &Step) -> Result<String, AllocError> {
    match step {
        Step::Fixed(line, _) => String::from_str(alloc, line),
        Step::Configure => String::from_str(
            alloc,
            "flow configure 0 queues_number 8 queues_size 64",
        ),
        Step::Create(aim) => {
            let words = rule_words(alloc, aim)?;
            format!(in alloc; "flow create 0 ingress {words}")
        }
        Step::Destroy(id) => format!(in alloc; "flow destroy 0 rule {id}"),
        Step::Query(id) => format!(in alloc; "flow query 0 {id} count"),
        Step::List => String::from_str(alloc, "flow list 0"),
        Step::Flush => String::from_str(alloc, "flow flush 0"),
        Step::Enqueue(queue, aim, held) => {
            let words = rule_words(alloc, aim)?;
            let held = postponed(*held);
            format!(in alloc;
                "flow queue 0 create {queue} {held}template_table 1 pattern_template 0 actions_template 0 {words}"
            )
        }
        Step::EnqueueEnd(queue, id, held) => {
            let held = postponed(*held);
            format!(in alloc; "flow queue 0 destroy {queue} {held}rule {id}")
        }
        Step::Push(queue) => format!(in alloc; "flow push 0 queue {queue}"),
        Step::Pull(queue) => format!(in alloc; "flow pull 0 queue {queue}"),
        Step::Start => String::from_str(alloc, "start"),
        Step::Stop => String::from_str(alloc, "stop"),
    }
}

/// The script of these steps.
pub(crate) fn script_of(alloc: Global, steps: &[Step]) -> Result<String, AllocError> {
    let mut script = String::new(alloc);
    for step in steps {
        let line = line_of(alloc, step)?;
        script.push_str(&line)?;
        script.push_str("\n")?;
    }
    Ok(script)
}
