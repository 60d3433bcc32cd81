//! `OpQueue`.
ghost use Rattle.std.specs.Prelude.{◌≡◌, ◌+◌, ◌-◌, ◌<◌, ◌≤◌, ◌↔◌, [], ◌∷◌, ◌++◌, length, take, drop, slice_get, IsErr, IsNone, IfOk, IfErr, OnOk, IfSome, OnSome, IfNone};
ghost use Rattle.std.specs.Option.{option_copied};
ghost use Rattle.circular_buffer.specs.Buffer.{buffer};
ghost use Rattle.op_queues.specs.OpQueue.{empty_queue, in_flight};

use crate::{MAX_SIZE, Outcomes};
use circular_buffer::HeapCircularBuffer;
use std::alloc::{AllocError, Global};
use std::marker::Model;

/// A queue of operations that are held until someone performs them, and of their results. All its
/// calls but `pull` take constant time, and only `new` takes memory.
#[derive(Drop)]
pub struct OpQueue<T> {
    /// How many operations may be in flight. Both buffers have room for as many.
    size: u16,
    held: HeapCircularBuffer<T>,
    /// How many operations were popped and have no result yet.
    owed: u16,
    results: HeapCircularBuffer<bool>,
}

impl<T> Model for OpQueue<T> {
    ghost use Rattle.std.specs.Prelude.{◌≡◌, ◌+◌, ◌≤◌, length};
    ghost use Rattle.op_queues.specs.OpQueue.{Queue};

    ghost Value = { Queue T };

    ghost view = { λ q. record { size = q.size; held = q.held.items; owed = q.owed; results = q.results.items } };

    ghost invariant = { λ q. (q.size ≤ 1024) × (q.held.capacity ≡ q.size) × (q.results.capacity ≡ q.size) × (length q.held.items + q.owed + length q.results.items ≤ q.size) };
}

impl<T> OpQueue<T> {
    /// Makes an empty queue for `size` operations, and takes all its memory.
    pub fn new(alloc: Global, size: u16) -> Result<OpQueue<T>, AllocError>
        requires { (1 ≤ size) × (size ≤ 1024) }
        ensures { IfOk result (λ queue. queue ≡ empty_queue size) }
    {
        let results = HeapCircularBuffer::with_capacity(alloc, size as usize)?;
        let held = HeapCircularBuffer::with_capacity(alloc, size as usize)?;
        Ok(OpQueue {
            size,
            held,
            owed: 0,
            results,
        })
    }

    /// Returns how many operations are in flight: those that are held, those whose results are
    /// owed, and those whose results wait.
    pub fn in_flight(&self) -> u16
        ensures number { result ≡ in_flight self.now }
        ensures within { (result ≤ self.now.size) × (self.now.size ≤ 1024) }
    {
        self.held.len() as u16 + self.owed + self.results.len() as u16
    }

    /// Holds an operation behind the others, or hands it back where the queue is full.
    pub fn hold(&mut self, op: T) -> Result<(), T>
        ensures full { IsErr result ↔ (in_flight self.old ≡ self.old.size) }
        ensures ok { OnOk result (self.new ≡ record self.old { held = self.old.held ++ op ∷ [] }) }
        ensures err { IfErr result (λ returned. (returned ≡ op) × (self.new ≡ self.old)) }
    {
        if self.in_flight() == self.size {
            return Err(op);
        }
        self.held.try_push_back(op)
    }

    /// Gives the oldest held operation. Its place stays taken, and its result is owed until
    /// `finish` tells it.
    pub fn pop_held(&mut self) -> Option<T>
        ensures empty { IsNone result ↔ (self.old.held ≡ []) }
        ensures none { IfNone result (self.new ≡ self.old) }
        ensures oldest { IfSome result (λ op. self.old.held ≡ op ∷ self.new.held) }
        ensures owed { OnSome result (self.new ≡ record self.old { held = drop 1 self.old.held; owed = self.old.owed + 1 }) }
    {
        let op = self.held.pop_front()?;
        self.owed += 1;
        Some(op)
    }

    /// Tells the result of a popped operation. It waits behind the others until it is pulled.
    pub fn finish(&mut self, ok: bool)
        requires { 0 < self.old.owed }
        ensures { self.new ≡ record self.old { owed = self.old.owed - 1; results = self.old.results ++ ok ∷ [] } }
    {
        self.owed -= 1;
        self.results.try_push_back(ok).unwrap();
    }

    /// Returns how many operations are held.
    pub fn held_len(&self) -> u16
        ensures number { result ≡ length self.now.held }
        ensures within { result ≤ 1024 }
    {
        self.held.len() as u16
    }

    /// Lends the oldest held operation.
    pub fn oldest(&self) -> Option<&T>
        ensures { option_copied result ≡ slice_get self.now.held 0 }
    {
        self.held.front()
    }

    /// Lends the held operations, the oldest first: those of the first slice, and then those of the second.
    pub fn held(&self) -> (&[T], &[T])
        ensures { result.0.now ++ result.1.now ≡ self.now.held }
    {
        self.held.as_slices()
    }

    /// Tells the results that wait, and leaves them there.
    pub fn results(&self) -> Outcomes
        ensures { result ≡ self.now.results }
    {
        copy_of(&self.results)
    }

    /// Removes the first `n` results, or all where fewer wait, in time of their number.
    pub fn pull(&mut self, n: u16) -> Outcomes
        ensures outcomes { result ≡ take n self.old.results }
        ensures left { self.new ≡ record self.old { results = drop n self.old.results } }
        ensures all { self.old.size ≤ n → (result ≡ self.old.results) × (self.new.results ≡ []) }
        ensures within { self.old.size ≤ 1024 }
    {
        take_first(&mut self.results, n)
    }
}

/// Moves the first `n` results out of the buffer, or all where there are fewer.
fn take_first(results: &mut HeapCircularBuffer<bool>, n: u16) -> Outcomes
    requires { length results.old.items ≤ 1024 }
    ensures outcomes { result ≡ take n results.old.items }
    ensures left { results.new ≡ buffer (drop n results.old.items) results.old.capacity }
{
    let mut outcomes = Outcomes::new();
    'results: for _ in 0..n {
        let Some(ok) = results.pop_front() else {
            break;
        };
        outcomes.push(ok);
    }
    outcomes
}

/// The results, in order.
fn copy_of(results: &HeapCircularBuffer<bool>) -> Outcomes
    requires { length results.now.items ≤ 1024 }
    ensures { result ≡ results.now.items }
{
    let mut outcomes = Outcomes::new();
    for place in 0..results.len() {
        let ok = results.get(place).unwrap();
        outcomes.push(*ok);
    }
    outcomes
}
