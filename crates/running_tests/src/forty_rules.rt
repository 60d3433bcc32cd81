//! A long session: forty rules of a table, which a flow queue takes, and a thousand frames on one worker or on two.
use io_edges::OpenGate;
use std::alloc::{AllocError, Global};
use std::sync::Wait;
use std::thread::Threads;
use test_frames::UDP_FRAME;
use test_sessions::{Capture, Fails, Inputs, Outcome, file_of_records, run_with};
use testpmd_shell::Status;

/// The header of a record of 60 bytes.
const RECORD_HEADER: [u8; 16] = [0, 0, 0, 0, 0, 0, 0, 0, 60, 0, 0, 0, 60, 0, 0, 0];

/// The low bytes of the checksums of the UDP frame to 10.0.0.0, which are 64bc and e1b1; each further address has one less.
const HEADER_SUM: u8 = 0xbc;

const UDP_SUM: u8 = 0xb1;

/// The UDP frame to 10.0.0.`to`, with right checksums.
fn frame_to(to: u8) -> [u8; 60] {
    let mut frame = UDP_FRAME;
    frame[24] = 0x64;
    frame[25] = HEADER_SUM.wrapping_sub(to);
    frame[31] = 0;
    frame[32] = 0;
    frame[33] = to;
    frame[40] = 0xe1;
    frame[41] = UDP_SUM.wrapping_sub(to);
    frame
}

/// How many frames there are.
const FRAMES: u32 = 1000;

/// The records of fifty frames, to 10.0.0.1 and so on to 10.0.0.50.
fn push_fifty(bytes: &mut Vec<u8>) -> Result<(), AllocError> {
    for to in 1..51 {
        bytes.extend_from_slice(&RECORD_HEADER)?;
        bytes.extend_from_slice(&frame_to(to))?;
    }
    Ok(())
}

/// A capture of 1,000 frames: the fifty, twenty times.
fn thousand_frames(alloc: Global) -> Result<Vec<u8>, AllocError> {
    let mut bytes = file_of_records(alloc, &[])?;
    for _ in 0..20 {
        push_fifty(&mut bytes)?;
    }
    Ok(bytes)
}

/// A script that makes a table with a rule for each of 10.0.0.1 to 10.0.0.40, lets all frames pass, and asks what came of it.
fn forty_rules(alloc: Global) -> Result<String, AllocError> {
    let mut script = String::from_str(
        alloc,
        "flow configure 0 queues_number 2 queues_size 64
flow pattern_template 0 create pattern_template_id 1 ingress template eth / ipv4 dst mask 255.255.255.255 / udp / end
flow actions_template 0 create actions_template_id 1 ingress template count / queue / end mask count / queue / end
flow template_table 0 create table_id 1 group 1 priority 4 ingress rules_number 64 pattern_template 1 actions_template 1
flow create 0 ingress pattern eth / end actions jump group 1 / end
",
    )?;
    for to in 1..41 {
        let queue = to % 4;
        script.push_str(&format!(in alloc;
            "flow queue 0 create 0 template_table 1 pattern_template 0 actions_template 0 pattern eth / ipv4 dst spec 10.0.0.{to} / udp / end actions count / queue index {queue} / end\n"
        )?)?;
    }
    script.push_str("start\nstop\nflow pull 0 queue 0\nflow query 0 1 count\nflow list 0\nquit\n")?;
    Ok(script)
}

/// What is told of the rules as they are enqueued.
fn push_enqueued(alloc: Global, text: &mut String) -> Result<(), AllocError> {
    for id in 1..41 {
        let line = id + 5;
        text.push_str(&format!(in alloc; "shell {line}.1: Flow rule #{id} creation enqueued\n")?)?;
    }
    Ok(())
}

/// The line of a frame, which worker `number` mod `workers` lets pass: one that a rule of the table takes goes to the rule's queue, and
/// any other to queue 0.
fn frame_line(alloc: Global, workers: u32, number: u32) -> Result<String, AllocError> {
    let worker = number % workers.max(1);
    let to = number.wrapping_sub(1) % 50 + 1;
    let queue = to % 4;
    if to <= 40 {
        return format!(in alloc;
            "worker{worker} #{number}: queue {queue} mark - hash - path 0,{to}\n"
        );
    }
    format!(in alloc; "worker{worker} #{number}: queue 0 mark - hash - path 0\n")
}

/// The rows of the table's rules in the list.
fn push_rows(alloc: Global, text: &mut String) -> Result<(), AllocError> {
    for id in 1..41 {
        text.push_str(&format!(in alloc; "{id}\t1\t4\ti--\tETH IPV4 UDP => COUNT QUEUE\n")?)?;
    }
    Ok(())
}

/// What stands before the frames.
fn told_before(alloc: Global) -> Result<String, AllocError> {
    let mut text = String::from_str(
        alloc,
        "shell 1.1: Port 0 configured: 2 queues of 64 entries
shell 2.1: Pattern template #1 created
shell 3.1: Actions template #1 created
shell 4.1: Template table #1 created
shell 5.1: Flow rule #0 created
",
    )?;
    push_enqueued(alloc, &mut text)?;
    text.push_str("shell 46.1: Packet forwarding started\n")?;
    Ok(text)
}

/// What stands behind the frames.
fn told_behind(alloc: Global) -> Result<String, AllocError> {
    let mut text = String::from_str(
        alloc,
        "shell 47.1: Packet forwarding stopped: received 1000 dropped 0 queues 400,200,200,200
shell 48.1: Queue #0 pulled 40 operations (0 failed, 40 succeeded) [SSSSSSSSSSSSSSSSSSSSSSSSSSSSSSSSSSSSSSSS]
shell 49.1: COUNT: hits 20 bytes 1200
shell 50.1: ID\tGroup\tPrio\tAttr\tRule
0\t0\t0\ti--\tETH => JUMP
",
    )?;
    push_rows(alloc, &mut text)?;
    text.push_str("shell 51.1: Bye\ntotal received 1000 dropped 0 queues 400,200,200,200\n")?;
    Ok(text)
}

/// What of a text stands behind the lines of all frames, those of each worker in order. None where these don't stand there.
fn behind_frames(alloc: Global, workers: u32, text: &[u8]) -> Result<Option<&[u8]>, AllocError> {
    let mut rest = text;
    let mut next_of_worker_1 = 1u32;
    let mut next_of_worker_0 = workers;
    for _ in 0..FRAMES {
        let is_worker_1 = rest.starts_with(b"worker1 ");
        let number = if is_worker_1 {
            next_of_worker_1
        } else {
            next_of_worker_0
        };
        let line = frame_line(alloc, workers, number)?;
        let Some(behind) = rest.strip_prefix(line.as_bytes()) else {
            return Ok(None);
        };
        rest = behind;
        if is_worker_1 {
            next_of_worker_1 = number.wrapping_add(workers);
        } else {
            next_of_worker_0 = number.wrapping_add(workers);
        }
    }
    Ok(Some(rest))
}

/// Whether a text is a transcript of the script's session over the thousand frames, on one worker or on two.
fn is_told(alloc: Global, workers: u32, text: &[u8]) -> Result<bool, AllocError> {
    let before = told_before(alloc)?;
    let behind = told_behind(alloc)?;
    let Some(frames) = text.strip_prefix(before.as_bytes()) else {
        return Ok(false);
    };
    let Some(rest) = behind_frames(alloc, workers, frames)? else {
        return Ok(false);
    };
    Ok(rest == behind.as_bytes())
}

fn is_right(alloc: Global, workers: u32, outcome: &Outcome) -> Result<bool, AllocError> {
    if outcome.status != Status::Done {
        return Ok(false);
    }
    is_told(alloc, workers, &outcome.written)
}

const SERIAL: [&str; 4] = [
    "--cmdline-file=script",
    "--rx-pcap=capture",
    "--rxq=4",
    "--nb-cores=0",
];

const TWO_WORKERS: [&str; 4] = [
    "--cmdline-file=script",
    "--rx-pcap=capture",
    "--rxq=4",
    "--nb-cores=2",
];

/// What comes of the script over the thousand frames by `session`.
fn run<R: Threads + Wait + Sync>(
    rt: &R,
    alloc: Global,
    words: &[&str],
) -> Result<Outcome, AllocError> {
    let script = forty_rules(alloc)?;
    let frames = thousand_frames(alloc)?;
    let capture = Capture::Bytes(&frames);
    let inputs = Inputs {
        words: &*words,
        script: script.as_bytes(),
        capture,
        fails: Fails::Nowhere,
    };
    run_with(rt, &OpenGate, alloc, &inputs)
}

#[test]
fn forty_rules_of_a_table_take_their_frames_of_a_thousand(
    rt: HostRuntime,
) -> Result<(), AllocError> {
    let outcome = run(&rt, rt.alloc(), &SERIAL)?;
    assert!(rt; is_right(rt.alloc(), 1, &outcome)?);
    Ok(())
}

#[test]
fn two_workers_share_the_thousand_frames(rt: HostRuntime) -> Result<(), AllocError> {
    let outcome = run(&rt, rt.alloc(), &TWO_WORKERS)?;
    assert!(rt; is_right(rt.alloc(), 2, &outcome)?);
    Ok(())
}
