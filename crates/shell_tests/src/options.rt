//! Words that give options, and words that give none.
use crate::run::{Row, Told, expect, expect_serial};
use std::alloc::Global;
use std::process::Abort;
use std::sync::Wait;
use std::thread::Threads;
use test_frames::UDP_FRAME;
use testpmd_shell::Status;

/// What words show, the words, and the status and the transcript of an empty script.
type Worded = (&'static str, &'static [&'static str], Status, &'static [u8]);

const TAKEN: [Worded; 9] = [
    (
        "values in words of their own",
        &["--cmdline-file", "script", "--rxq", "2"],
        Status::Done,
        b"total received 0 dropped 0 queues 0,0\n",
    ),
    (
        "all options, the script last",
        &[
            "--flow-max=65536",
            "--nb-cores=16",
            "--rxq=3",
            "--rx-pcap=capture",
            "--cmdline-file=script",
        ],
        Status::Done,
        b"total received 0 dropped 0 queues 0,0,0\n",
    ),
    (
        "no worker",
        &["--cmdline-file=script", "--nb-cores=0"],
        Status::Done,
        b"total received 0 dropped 0 queues 0\n",
    ),
    (
        "16 queues",
        &["--cmdline-file=script", "--rxq=16"],
        Status::Done,
        b"total received 0 dropped 0 queues 0,0,0,0,0,0,0,0,0,0,0,0,0,0,0,0\n",
    ),
    (
        "a number of six digits with leading zeros",
        &["--cmdline-file=script", "--rxq=000002"],
        Status::Done,
        b"total received 0 dropped 0 queues 0,0\n",
    ),
    (
        "nothing behind the end of the options",
        &["--cmdline-file=script", "--"],
        Status::Done,
        b"total received 0 dropped 0 queues 0\n",
    ),
    (
        "an empty name, which can't be opened",
        &["--cmdline-file="],
        Status::ReadFault,
        b"",
    ),
    (
        "a hyphen as a name in a word of its own",
        &["--cmdline-file", "-"],
        Status::ReadFault,
        b"",
    ),
    (
        "a name with an equals sign and a blank",
        &["--cmdline-file=--rxq=2 script"],
        Status::ReadFault,
        b"",
    ),
];

/// Words that give no options, each row named by what is wrong or missing.
const REFUSED: [(&str, &[&str]); 25] = [
    ("no word", &[]),
    ("no script", &["--rxq=2", "--rx-pcap=capture"]),
    ("17 queues", &["--rxq=17", "--cmdline-file=script"]),
    ("no queue", &["--rxq=0", "--cmdline-file=script"]),
    ("17 workers", &["--cmdline-file=script", "--nb-cores=17"]),
    (
        "a store of no rule",
        &["--cmdline-file=script", "--flow-max=0"],
    ),
    (
        "a store of 65,537 rules",
        &["--cmdline-file=script", "--flow-max=65537"],
    ),
    ("no digit", &["--cmdline-file=script", "--rxq="]),
    (
        "seven digits",
        &["--cmdline-file=script", "--nb-cores=0000001"],
    ),
    ("a sign", &["--cmdline-file=script", "--rxq=+2"]),
    ("a letter", &["--cmdline-file=script", "--rxq=2x"]),
    ("a blank", &["--cmdline-file=script", "--rxq= 2"]),
    (
        "two scripts",
        &["--cmdline-file=script", "--cmdline-file=script"],
    ),
    (
        "a number twice",
        &["--cmdline-file=script", "--rxq=2", "--rxq", "2"],
    ),
    ("a missing value", &["--cmdline-file=script", "--rxq"]),
    (
        "an option in place of a value",
        &["--cmdline-file", "--rxq=2"],
    ),
    (
        "a hyphen and a letter as a value",
        &["--cmdline-file", "-x"],
    ),
    ("a word alone", &["--cmdline-file=script", "capture"]),
    (
        "a word behind the end of the options",
        &["--cmdline-file=script", "--", "--rxq=2"],
    ),
    (
        "a name cut short",
        &["--cmdline-file=script", "--rx=capture"],
    ),
    ("capitals", &["--cmdline-file=script", "--RXQ=2"]),
    ("help", &["--cmdline-file=script", "--help"]),
    ("a letter's version", &["--cmdline-file=script", "-V"]),
    (
        "two transmit files",
        &["--cmdline-file=script", "--tx-pcap=sent", "--tx-pcap=sent"],
    ),
    ("a demo", &["--demo=1"]),
];

fn expect_taken<R: Abort + Threads + Wait + Sync>(rt: &R, alloc: Global, rows: &[Worded]) {
    for (shows, words, status, written) in rows {
        let row = Row::of_script(shows, words, b"", *status, written);
        expect(rt, alloc, &row);
    }
}

#[test]
fn words_that_give_options(rt: HostRuntime) {
    expect_taken(&rt, rt.alloc(), &TAKEN);
}

fn expect_refused<R: Abort + Threads + Wait + Sync>(
    rt: &R,
    alloc: Global,
    rows: &[(&str, &[&str])],
) {
    for (shows, words) in rows {
        let row = Row::of_script(shows, words, b"", Status::Usage, b"");
        expect(rt, alloc, &row);
    }
}

#[test]
fn words_that_give_no_options(rt: HostRuntime) {
    expect_refused(&rt, rt.alloc(), &REFUSED);
}

const SEVERAL_WORKERS: [Told<'static>; 1] = [(
    "calls, and then frames by the first of four workers",
    &["--cmdline-file=script", "--rx-pcap=capture", "--nb-cores=4"],
    "start
flow create 0 ingress pattern eth / end actions drop / end
",
    &[(&UDP_FRAME, &[]), (&UDP_FRAME, &[])],
    "shell 1.1: Packet forwarding started
shell 2.1: Flow rule #0 created
worker0 #1: drop mark - hash - path 0
worker0 #2: drop mark - hash - path 0
shell 3.1: Packet forwarding stopped: received 2 dropped 2 queues 0
total received 2 dropped 2 queues 0
",
)];

#[test]
fn the_serial_call_is_serial_whatever_the_workers(rt: HostRuntime) {
    expect_serial(&rt, rt.alloc(), &SEVERAL_WORKERS);
}
