//! A bank of counters.
ghost use Rattle.std.specs.Prelude.{◌≡◌, ◌-◌, ◌<◌, ◌^◌, IfOk, replicate, set, get_or, length};
ghost use Rattle.indirect_counters.specs.Counts.{no_count, counted};

use flow_rules::Count;
use std::alloc::{AllocError, Global};
use std::marker::Model;

/// So many counters, by their numbers.
#[derive(Drop)]
pub struct CounterBank {
    counts: Vec<Count>,
}

impl Model for CounterBank {
    ghost use Rattle.std.specs.Prelude.{List, All};
    ghost use Rattle.flow_rules.specs.declared.counter.Count.{Count};
    ghost use Rattle.indirect_counters.specs.Counts.{IsSumOfLengths};

    ghost Value = { List Count };

    ghost view = { λ s. s.counts.items };

    ghost invariant = { λ s. All IsSumOfLengths s.counts.items };
}

impl CounterBank {
    /// So many counters, which have counted nothing.
    pub fn new(alloc: Global, n: u32) -> Result<CounterBank, AllocError>
        ensures { IfOk result (λ bank. bank ≡ replicate n no_count) }
    {
        let counts = vec![in alloc; Count { hits: 0, bytes: 0 }; n as usize]?;
        Ok(CounterBank { counts })
    }

    /// Counts a frame of so many bytes.
    pub fn add(&mut self, i: u32, bytes: u32)
        requires there { i < length self.old }
        requires room { (get_or self.old i no_count).hits < 2 ^ 64 - 1 }
        ensures { self.new ≡ set self.old i (counted (get_or self.old i no_count) bytes) }
    {
        let count = &mut self.counts[i as usize];
        count.hits += 1;
        count.bytes += bytes as u128;
    }

    /// What a counter has counted: frames and bytes.
    pub fn read(&self, i: u32) -> (u64, u128)
        requires { i < length self.now }
        ensures { result ≡ ((get_or self.now i no_count).hits, (get_or self.now i no_count).bytes) }
    {
        let count = &self.counts[i as usize];
        (count.hits, count.bytes)
    }

    /// A counter has counted nothing.
    pub fn reset(&mut self, i: u32)
        requires { i < length self.old }
        ensures { self.new ≡ set self.old i no_count }
    {
        self.counts[i as usize] = Count { hits: 0, bytes: 0 };
    }
}
