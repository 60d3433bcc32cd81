//! A rule that arrives while three frames run, in any of its places.
use crate::judge::Case;
use crate::steps::{Aim, Step};
use crate::unsteady::expect_often;
use std::io;
use test_frames::UDP_FRAME;
use test_sessions::Frame;

/// In a phase the shell makes a rule that drops all frames, and the agent of a queue that isn't there asks for a push.
pub(crate) const STEPS: [Step; 4] = [
    Step::Start,
    Step::Create(Aim::DropAll),
    Step::Push(0),
    Step::Stop,
];

pub(crate) const FRAMES: [Frame; 3] = [(&UDP_FRAME, &[]), (&UDP_FRAME, &[]), (&UDP_FRAME, &[])];

/// That script over the three frames, on two workers.
pub(crate) const TWO_WORKERS: Case<'static> = Case {
    steps: &STEPS,
    frames: &FRAMES,
    rxq: 1,
    workers: 2,
};

const WORDS: [&str; 3] = ["--cmdline-file=script", "--rx-pcap=capture", "--nb-cores=2"];

#[test]
fn a_rule_arrives_before_between_or_behind_three_frames(rt: HostRuntime) -> io::Result<()> {
    expect_often(&rt, rt.alloc(), &WORDS, &TWO_WORKERS, 200)
}
