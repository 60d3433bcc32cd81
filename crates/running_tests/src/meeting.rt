//! Two workers who wait for each other.
use crate::judge::Case;
use crate::runs::expect_lawful;
use crate::steps::Step;
use io_edges::Gate;
use std::sync::atomic::{AtomicU64, Ordering};
use std::thread::yield_now;
use test_frames::UDP_FRAME;
use test_sessions::Frame;

/// How often a worker looks for the other one, at most. Each look lets other threads run.
const MAX_LOOKS: u32 = 10_000_000;

/// A gate at which each of two workers waits, before its first frame, until the other one has come to its own.
///
/// Workers that have one thread together can't meet there: the first gives up before the second comes.
#[derive(Drop)]
struct Meeting {
    /// Whether worker 0 and worker 1 have come, 1 where one has.
    came: [AtomicU64; 2],
    /// How many gave up.
    missed: AtomicU64,
}

impl Meeting {
    fn new() -> Meeting {
        Meeting {
            came: [AtomicU64::new(0), AtomicU64::new(0)],
            missed: AtomicU64::new(0),
        }
    }

    /// Waits for another worker.
    fn wait_for(&self, other: &AtomicU64) {
        for _ in 0..MAX_LOOKS {
            if other.load(Ordering::SeqCst) == 1 {
                return;
            }
            yield_now();
        }
        self.missed.fetch_add(1, Ordering::SeqCst);
    }

    fn meet(&self, own: &AtomicU64, other: &AtomicU64) {
        if own.swap(1, Ordering::SeqCst) == 0 {
            self.wait_for(other);
        }
    }

    /// Whether both have come, and neither gave up.
    fn have_met(&self) -> bool {
        let [first, second] = &self.came;
        let first = first.load(Ordering::SeqCst);
        let second = second.load(Ordering::SeqCst);
        let missed = self.missed.load(Ordering::SeqCst);
        (first, second, missed) == (1, 1, 0)
    }
}

impl Gate for Meeting {
    fn before_classify(&self, worker: u32, _number: u32) {
        let [first, second] = &self.came;
        if worker == 0 {
            self.meet(first, second);
        } else {
            self.meet(second, first);
        }
    }

    fn after_commit(&self, _worker: u32, _number: u32) {}
}

const FRAMES: [Frame; 400] = [(&UDP_FRAME, &[]); 400];

const WORDS: [&str; 3] = ["--cmdline-file=script", "--rx-pcap=capture", "--nb-cores=2"];

#[test]
fn two_workers_meet(rt: HostRuntime) {
    let gate = Meeting::new();
    let case = Case {
        steps: &[Step::Start, Step::Stop],
        frames: &FRAMES,
        rxq: 1,
        workers: 2,
    };
    expect_lawful(&rt, &gate, rt.alloc(), &WORDS, &case);
    assert!(rt; gate.have_met());
}
