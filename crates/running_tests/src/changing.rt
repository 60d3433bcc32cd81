//! Rules that the shell and the agents of all flow queues change while frames run.
use crate::judge::Case;
use crate::runs::expect_lawful;
use crate::steps::{Aim, Step};
use crate::unsteady::expect_often;
use io_edges::OpenGate;
use std::io;
use test_frames::UDP_FRAME;
use test_sessions::Frame;

/// How often the script is run with each number of workers.
const RUNS: u32 = 1000;

/// Behind the opening each flow queue holds another rule on its address, and the end of its first one lets both take effect; it
/// holds the end of its neighbour's first rule too, which may be gone then. The shell makes rules, asks for counters and lists,
/// and last takes all rules away.
static STEPS: [Step; 77] = [
    Step::Configure,
    Step::Fixed(
        "flow pattern_template 0 create pattern_template_id 1 ingress template eth / ipv4 dst mask 255.255.255.255 / end",
        "Pattern template #1 created",
    ),
    Step::Fixed(
        "flow actions_template 0 create actions_template_id 1 ingress template count / queue / end mask count / queue / end",
        "Actions template #1 created",
    ),
    Step::Fixed(
        "flow template_table 0 create table_id 1 ingress rules_number 64 pattern_template 1 actions_template 1",
        "Template table #1 created",
    ),
    Step::Enqueue(0, Aim::To(1, 0), false),
    Step::Enqueue(1, Aim::To(2, 1), false),
    Step::Enqueue(2, Aim::To(3, 2), false),
    Step::Enqueue(3, Aim::To(4, 3), false),
    Step::Enqueue(4, Aim::To(5, 0), false),
    Step::Enqueue(5, Aim::To(6, 1), false),
    Step::Enqueue(6, Aim::To(7, 2), false),
    Step::Enqueue(7, Aim::To(8, 3), false),
    Step::Create(Aim::To(9, 1)),
    Step::Start,
    Step::Enqueue(0, Aim::To(1, 1), true),
    Step::Enqueue(1, Aim::To(2, 2), true),
    Step::Enqueue(2, Aim::To(3, 3), true),
    Step::Enqueue(3, Aim::To(4, 0), true),
    Step::Enqueue(4, Aim::To(5, 1), true),
    Step::Enqueue(5, Aim::To(6, 2), true),
    Step::Enqueue(6, Aim::To(7, 3), true),
    Step::Enqueue(7, Aim::To(8, 0), true),
    Step::Query(8),
    Step::EnqueueEnd(0, 0, false),
    Step::EnqueueEnd(1, 1, false),
    Step::EnqueueEnd(2, 2, false),
    Step::EnqueueEnd(3, 3, false),
    Step::EnqueueEnd(4, 4, false),
    Step::EnqueueEnd(5, 5, false),
    Step::EnqueueEnd(6, 6, false),
    Step::EnqueueEnd(7, 7, false),
    Step::Create(Aim::DropTo(10)),
    Step::List,
    Step::EnqueueEnd(0, 1, true),
    Step::EnqueueEnd(1, 2, true),
    Step::EnqueueEnd(2, 3, true),
    Step::EnqueueEnd(3, 4, true),
    Step::EnqueueEnd(4, 5, true),
    Step::EnqueueEnd(5, 6, true),
    Step::EnqueueEnd(6, 7, true),
    Step::EnqueueEnd(7, 0, true),
    Step::Destroy(8),
    Step::Query(0),
    Step::Push(0),
    Step::Push(1),
    Step::Push(2),
    Step::Push(3),
    Step::Push(4),
    Step::Push(5),
    Step::Push(6),
    Step::Push(7),
    Step::Create(Aim::To(9, 2)),
    Step::Query(3),
    Step::Pull(0),
    Step::Pull(1),
    Step::Pull(2),
    Step::Pull(3),
    Step::Pull(4),
    Step::Pull(5),
    Step::Pull(6),
    Step::Pull(7),
    Step::List,
    Step::Flush,
    Step::Create(Aim::To(9, 3)),
    Step::Stop,
    Step::List,
    Step::Query(8),
    Step::Query(9),
    Step::Query(18),
    Step::Pull(0),
    Step::Pull(1),
    Step::Pull(2),
    Step::Pull(3),
    Step::Pull(4),
    Step::Pull(5),
    Step::Pull(6),
    Step::Pull(7),
];

const TO_1: Frame = (&UDP_FRAME, &[(33, 1)]);

const TO_2: Frame = (&UDP_FRAME, &[(33, 2)]);

const TO_3: Frame = (&UDP_FRAME, &[(33, 3)]);

const TO_5: Frame = (&UDP_FRAME, &[(33, 5)]);

const TO_8: Frame = (&UDP_FRAME, &[(33, 8)]);

const TO_9: Frame = (&UDP_FRAME, &[(33, 9)]);

const TO_10: Frame = (&UDP_FRAME, &[(33, 10)]);

const TO_11: Frame = (&UDP_FRAME, &[(33, 11)]);

static FRAMES: [Frame; 24] = [
    TO_1, TO_9, TO_2, TO_10, TO_3, TO_9, TO_5, TO_11, TO_8, TO_9, TO_1, TO_10, TO_2, TO_9, TO_3,
    TO_1, TO_5, TO_9, TO_8, TO_10, TO_2, TO_9, TO_3, TO_1,
];

/// The script over the frames, on so many workers.
fn on_workers(workers: usize) -> Case<'static> {
    Case {
        steps: &STEPS,
        frames: &FRAMES,
        rxq: 4,
        workers,
    }
}

const TWO: [&str; 4] = [
    "--cmdline-file=script",
    "--rx-pcap=capture",
    "--rxq=4",
    "--nb-cores=2",
];

const FOUR: [&str; 4] = [
    "--cmdline-file=script",
    "--rx-pcap=capture",
    "--rxq=4",
    "--nb-cores=4",
];

const SIXTEEN: [&str; 4] = [
    "--cmdline-file=script",
    "--rx-pcap=capture",
    "--rxq=4",
    "--nb-cores=16",
];

#[test]
fn rules_change_on_all_queues_beside_two_workers(rt: HostRuntime) -> io::Result<()> {
    expect_often(&rt, rt.alloc(), &TWO, &on_workers(2), RUNS)
}

#[test]
fn rules_change_on_all_queues_beside_four_workers(rt: HostRuntime) -> io::Result<()> {
    expect_often(&rt, rt.alloc(), &FOUR, &on_workers(4), RUNS)
}

#[test]
fn rules_change_on_all_queues_beside_sixteen_workers(rt: HostRuntime) -> io::Result<()> {
    expect_often(&rt, rt.alloc(), &SIXTEEN, &on_workers(16), RUNS)
}

const SERIAL: [&str; 4] = [
    "--cmdline-file=script",
    "--rx-pcap=capture",
    "--rxq=4",
    "--nb-cores=0",
];

#[test]
fn the_serial_order_is_lawful(rt: HostRuntime) {
    expect_lawful(&rt, &OpenGate, rt.alloc(), &SERIAL, &on_workers(1));
}
