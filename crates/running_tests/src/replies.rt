//! The texts that are due: the reply to a step, and the verdict on a frame.
use crate::port::{FRAME_LEN, Port, Rule};
use crate::steps::{Aim, Step};
use std::alloc::{AllocError, Global};

const NO_RULE: &str = "Caught error type 2 (HANDLE): no such rule";

const NO_QUEUE: &str = "Caught error type 2 (HANDLE): no such queue";

/// The totals of frames, as they stand behind the last entry and where a phase closes.
pub(crate) fn totals_text(alloc: Global, port: &Port) -> Result<String, AllocError> {
    let received = port.received;
    let dropped = port.dropped;
    let mut text = format!(in alloc; "received {received} dropped {dropped} queues ")?;
    let mut front = "";
    for delivered in port.delivered.as_slice() {
        text.push_str(&format!(in alloc; "{front}{delivered}")?)?;
        front = ",";
    }
    Ok(text)
}

/// A rule's line in the list.
fn row_text(alloc: Global, rule: &Rule) -> Result<String, AllocError> {
    let id = rule.id;
    let names = match rule.aim {
        Aim::To(_, _) => "ETH IPV4 => COUNT QUEUE",
        Aim::DropTo(_) => "ETH IPV4 => COUNT DROP",
        Aim::DropAll => "ETH => DROP",
    };
    format!(in alloc; "\n{id}\t0\t0\ti--\t{names}")
}

fn list_text(alloc: Global, port: &Port) -> Result<String, AllocError> {
    let mut text = String::from_str(alloc, "ID\tGroup\tPrio\tAttr\tRule")?;
    for rule in port.rules.as_slice() {
        text.push_str(&row_text(alloc, rule)?)?;
    }
    Ok(text)
}

fn counter_text(alloc: Global, port: &Port, id: u32) -> Result<String, AllocError> {
    let Some(rule) = port.rule(id) else {
        return String::from_str(alloc, NO_RULE);
    };
    let hits = rule.hits;
    let bytes = hits.wrapping_mul(FRAME_LEN);
    format!(in alloc; "COUNT: hits {hits} bytes {bytes}")
}

/// The results as letters, with how many are bad.
fn letters_of(alloc: Global, results: &[bool]) -> Result<(String, usize), AllocError> {
    let mut letters = String::new(alloc);
    let mut failed = 0usize;
    for succeeded in results {
        if *succeeded {
            letters.push_str("S")?;
        } else {
            letters.push_str("F")?;
            failed = failed.wrapping_add(1);
        }
    }
    Ok((letters, failed))
}

fn pulled_text(alloc: Global, queue: u8, results: &[bool]) -> Result<String, AllocError> {
    let (letters, failed) = letters_of(alloc, results)?;
    let count = results.len();
    let succeeded = count.wrapping_sub(failed);
    format!(in alloc;
        "Queue #{queue} pulled {count} operations ({failed} failed, {succeeded} succeeded) [{letters}]"
    )
}

fn destroy(alloc: Global, port: &mut Port, id: u32) -> Result<String, AllocError> {
    if port.destroy(id, false) {
        return format!(in alloc; "Flow rule #{id} destroyed");
    }
    String::from_str(alloc, NO_RULE)
}

fn enqueue(
    alloc: Global,
    port: &mut Port,
    queue: u8,
    aim: &Aim,
    held: bool,
) -> Result<String, AllocError> {
    let id = port.enqueue(queue, aim)?;
    if !held {
        port.push(queue)?;
    }
    format!(in alloc; "Flow rule #{id} creation enqueued")
}

fn enqueue_end(
    alloc: Global,
    port: &mut Port,
    queue: u8,
    id: u32,
    held: bool,
) -> Result<String, AllocError> {
    port.enqueue_end(queue, id)?;
    if !held {
        port.push(queue)?;
    }
    format!(in alloc; "Flow rule #{id} destruction enqueued")
}

/// What a flow queue that is there answers.
fn queued(alloc: Global, port: &mut Port, step: &Step) -> Result<String, AllocError> {
    match step {
        Step::Enqueue(queue, aim, held) => enqueue(alloc, port, *queue, aim, *held),
        Step::EnqueueEnd(queue, id, held) => enqueue_end(alloc, port, *queue, *id, *held),
        Step::Push(queue) => {
            port.push(*queue)?;
            format!(in alloc; "Queue #{queue} operations pushed")
        }
        Step::Pull(queue) => {
            let results = port.pull(*queue);
            pulled_text(alloc, *queue, &results)
        }
        _ => Ok(String::new(alloc)),
    }
}

/// Does what a step asks, and tells the reply that is due.
pub(crate) fn reply_to(alloc: Global, port: &mut Port, step: &Step) -> Result<String, AllocError> {
    match step {
        Step::Fixed(_, reply) => String::from_str(alloc, reply),
        Step::Configure => {
            port.configure()?;
            String::from_str(alloc, "Port 0 configured: 8 queues of 64 entries")
        }
        Step::Create(aim) => {
            let id = port.create(aim)?;
            format!(in alloc; "Flow rule #{id} created")
        }
        Step::Destroy(id) => destroy(alloc, port, *id),
        Step::Query(id) => counter_text(alloc, port, *id),
        Step::List => list_text(alloc, port),
        Step::Flush => {
            port.rules.clear();
            String::from_str(alloc, "Flow rules flushed")
        }
        Step::Start => String::from_str(alloc, "Packet forwarding started"),
        Step::Stop => {
            let totals = totals_text(alloc, port)?;
            format!(in alloc; "Packet forwarding stopped: {totals}")
        }
        Step::Enqueue(queue, _, _)
        | Step::EnqueueEnd(queue, _, _)
        | Step::Push(queue)
        | Step::Pull(queue) => {
            if port.has_queue(*queue) {
                return queued(alloc, port, step);
            }
            String::from_str(alloc, NO_QUEUE)
        }
    }
}

/// Lets a frame to an address pass, and tells what is due to it.
pub(crate) fn verdict_on(alloc: Global, port: &mut Port, to: u8) -> Result<String, AllocError> {
    let Some(rule) = port.pass(to) else {
        return String::from_str(alloc, "queue 0 mark - hash - path -");
    };
    let id = rule.id;
    match rule.aim.queue() {
        Some(queue) => format!(in alloc; "queue {queue} mark - hash - path {id}"),
        None => format!(in alloc; "drop mark - hash - path {id}"),
    }
}
