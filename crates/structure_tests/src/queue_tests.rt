//! A queue of operations beside a plain list, and outcomes beside the truth values that they came from.
ghost use Rattle.std.specs.Prelude.{◌≡◌, ◌+◌, ◌≤◌, ◌<◌};
ghost use Rattle.std.specs.Int.{from_bool};

use op_queues::{MAX_SIZE, OpQueue, Outcomes};
use rand_core::utils::NextWord;
use rand_pcg::Pcg32;
use std::alloc::{AllocError, Global};
use std::process::Abort;
use std::test::*;

/// What became of an operation in flight.
#[derive(Clone, Copy, PartialEq)]
enum Place {
    Held(u32),
    Owed,
    Done(bool),
}

/// The naive queue: each operation in flight has a place in one list, in the order of their holds.
#[derive(Drop)]
struct PlainQueue {
    size: usize,
    places: Vec<Place>,
}

impl PlainQueue {
    fn hold(&mut self, op: u32) -> Result<bool, AllocError> {
        if self.places.len() >= self.size {
            return Ok(false);
        }
        self.places.push(Place::Held(op))?;
        Ok(true)
    }

    fn pop_held(&mut self) -> Option<u32> {
        for place in self.places.iter_mut() {
            if let Place::Held(op) = *place {
                *place = Place::Owed;
                return Some(op);
            }
        }
        None
    }

    fn finish(&mut self, ok: bool) {
        for place in self.places.iter_mut() {
            if *place == Place::Owed {
                *place = Place::Done(ok);
                return;
            }
        }
    }

    fn pull(&mut self) -> Option<bool> {
        if let Some(Place::Done(ok)) = self.places.first().copied() {
            self.places.remove(0);
            return Some(ok);
        }
        None
    }
}

/// Pulls from both queues, and compares the results and what waits.
fn pull_both(rt: &impl Abort, queue: &mut OpQueue<u32>, plain: &mut PlainQueue, n: u16) {
    let outcomes = queue.pull(n);
    for i in 0..outcomes.len() {
        assert!(rt; plain.pull() == Some(outcomes.get(i)));
    }
    if outcomes.len() < n as usize {
        assert!(rt; plain.pull().is_none());
    }
}

/// Pops the oldest operation from both queues, and tells whether there was one.
fn pop_both(rt: &impl Abort, queue: &mut OpQueue<u32>, plain: &mut PlainQueue) -> bool
    ensures owed { queue.new.owed ≡ queue.old.owed + from_bool result }
{
    match queue.pop_held() {
        Some(op) => {
            assert!(rt; plain.pop_held() == Some(op));
            true
        }
        None => {
            assert!(rt; plain.pop_held().is_none());
            false
        }
    }
}

/// Tells both queues the result of a popped operation.
fn finish_both(queue: &mut OpQueue<u32>, plain: &mut PlainQueue, ok: bool)
    requires { 0 < queue.old.owed }
    ensures { queue.new.owed + 1 ≡ queue.old.owed }
{
    queue.finish(ok);
    plain.finish(ok);
}

/// Pops up to two operations from both queues, and only then tells their results.
fn perform_both(rt: &impl Abort, queue: &mut OpQueue<u32>, plain: &mut PlainQueue, word: u32) {
    let is_first = pop_both(rt, queue, plain);
    let is_second = pop_both(rt, queue, plain);
    if is_first {
        finish_both(queue, plain, word & 1 == 1);
    }
    if is_second {
        finish_both(queue, plain, word & 2 == 2);
    }
}

/// Makes one call, or a few, on both queues, and tells whether they refused an operation.
fn step_both(
    rt: &impl Abort,
    queue: &mut OpQueue<u32>,
    plain: &mut PlainQueue,
    word: u32,
) -> Result<bool, AllocError> {
    match word % 16 {
        0..=8 => {
            let held = queue.hold(word).is_ok();
            assert!(rt; held == plain.hold(word)?);
            return Ok(!held);
        }
        9..=14 => perform_both(rt, queue, plain, word / 16),
        _ => pull_both(rt, queue, plain, (word / 16 % 8) as u16),
    }
    Ok(false)
}

/// Makes the same calls on both queues, and tells whether they were ever full.
fn drive(rt: &impl Abort, alloc: Global, size: u16) -> Result<bool, AllocError>
    requires { (1 ≤ size) × (size ≤ 1024) }
{
    let mut random = Pcg32::new(20, size as u64);
    let mut queue = OpQueue::new(alloc, size)?;
    let mut plain = PlainQueue {
        size: size as usize,
        places: Vec::new(alloc),
    };
    let mut was_full = false;
    for _ in 0..10_000 {
        was_full |= step_both(rt, &mut queue, &mut plain, random.next_word())?;
        assert!(rt; queue.in_flight() as usize == plain.places.len());
    }
    pull_both(rt, &mut queue, &mut plain, u16::MAX);
    Ok(was_full)
}

#[test]
fn agrees_with_a_plain_list(rt: HostRuntime) -> Result<(), Fail> {
    for size in [1, 2, 7, 64, MAX_SIZE] {
        assert!(rt; drive(&rt, rt.alloc(), size)?, "size {size} was never full");
    }
    Ok(())
}

/// Makes the outcomes of operations with these results.
fn outcomes_of(alloc: Global, results: &[bool]) -> Result<Outcomes, AllocError> {
    let mut queue = OpQueue::new(alloc, MAX_SIZE)?;
    for ok in results {
        let _ = queue.hold(*ok);
        if let Some(ok) = queue.pop_held() {
            queue.finish(ok);
        }
    }
    Ok(queue.pull(MAX_SIZE))
}

#[test]
fn outcomes_compare_as_their_lists(rt: HostRuntime) -> Result<(), Fail> {
    let lists: [&[bool]; 5] = [&[], &[true], &[false], &[true, false], &[false, true]];
    for (i, first) in lists.iter().enumerate() {
        for (k, second) in lists.iter().enumerate() {
            let is_equal = outcomes_of(rt.alloc(), first)? == outcomes_of(rt.alloc(), second)?;
            assert!(rt; is_equal == (i == k));
        }
    }
    Ok(())
}

/// Takes what another thread may hold and lend.
fn is_shareable<T: Send + Sync>(_value: &T) -> bool {
    true
}

fn all_are_shareable(queue: &OpQueue<u32>, outcomes: &Outcomes) -> bool {
    is_shareable(queue) && is_shareable(outcomes)
}

#[test]
fn threads_may_share_a_queue(rt: HostRuntime) -> Result<(), Fail> {
    let queue = OpQueue::new(rt.alloc(), 1)?;
    let outcomes = outcomes_of(rt.alloc(), &[true, false])?;
    assert!(rt; all_are_shareable(&queue, &outcomes));
    Ok(())
}
