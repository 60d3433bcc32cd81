//! Runs of sessions over files in memory, and what is expected of them.
use io_edges::OpenGate;
use std::alloc::{AllocError, Global};
use std::process::Abort;
use std::sync::Wait;
use std::thread::Threads;
use test_sessions::{Capture, Fails, Frame, Inputs, Outcome, run_serial, run_with};
use testpmd_shell::Status;

/// The words of a serial session without a capture, with one, and with one and two, three or four queues.
pub(crate) const SCRIPT_ALONE: [&str; 2] = ["--cmdline-file=script", "--nb-cores=0"];

pub(crate) const ONE_QUEUE: [&str; 3] = [
    "--cmdline-file=script",
    "--rx-pcap=capture",
    "--nb-cores=0",
];

pub(crate) const TWO_QUEUES: [&str; 4] = [
    "--cmdline-file=script",
    "--rx-pcap=capture",
    "--rxq=2",
    "--nb-cores=0",
];

pub(crate) const THREE_QUEUES: [&str; 4] = [
    "--cmdline-file=script",
    "--rx-pcap=capture",
    "--rxq=3",
    "--nb-cores=0",
];

pub(crate) const FOUR_QUEUES: [&str; 4] = [
    "--cmdline-file=script",
    "--rx-pcap=capture",
    "--rxq=4",
    "--nb-cores=0",
];

/// A session: what it shows, its words, its files, where an edge fails, and its status with what is written.
#[derive(Clone, Copy)]
pub(crate) struct Row<'a> {
    pub(crate) shows: &'a str,
    pub(crate) words: &'a [&'a str],
    pub(crate) script: &'a [u8],
    pub(crate) capture: Capture<'a>,
    pub(crate) fails: Fails,
    pub(crate) status: Status,
    pub(crate) written: &'a [u8],
}

impl<'a> Row<'a> {
    /// A session over whole files whose edges don't fail, and which is done.
    pub(crate) fn done(
        shows: &'a str,
        words: &'a [&'a str],
        script: &'a str,
        frames: &'a [Frame],
        transcript: &'a str,
    ) -> Row<'a> {
        Row {
            shows,
            words,
            script: script.as_bytes(),
            capture: Capture::Of(frames),
            fails: Fails::Nowhere,
            status: Status::Done,
            written: transcript.as_bytes(),
        }
    }

    /// A session over an empty capture, whose edges don't fail.
    pub(crate) fn of_script(
        shows: &'a str,
        words: &'a [&'a str],
        script: &'a [u8],
        status: Status,
        written: &'a [u8],
    ) -> Row<'a> {
        Row {
            shows,
            words,
            script,
            capture: Capture::Bytes(b""),
            fails: Fails::Nowhere,
            status,
            written,
        }
    }

    /// What its session is given.
    fn inputs(&self) -> Inputs<'a> {
        Inputs {
            words: self.words,
            script: self.script,
            capture: self.capture,
            fails: self.fails,
        }
    }
}

/// A session that is done: what it shows, its words, its script, its frames, and its transcript.
pub(crate) type Told<'a> = (&'a str, &'a [&'a str], &'a str, &'a [Frame], &'a str);

fn is_answer(
    rt: &impl Abort,
    row: &Row<'_>,
    transmitted: &[u8],
    call: &str,
    answer: Result<Outcome, AllocError>,
) {
    let Ok(outcome) = answer else {
        panic!(rt; "{}, {call}: no memory", row.shows);
    };
    let status = outcome.status;
    assert!(rt;
        status == row.status,
        "{}, {call}: status {status:?}",
        row.shows
    );
    assert!(rt;
        outcome.written.as_slice() == row.written,
        "{}, {call}: what is written",
        row.shows
    );
    assert!(rt;
        outcome.transmitted.as_slice() == transmitted,
        "{}, {call}: what is transmitted",
        row.shows
    );
}

/// Runs a row by `session_serial`, and compares the status, what was written and what was transmitted.
fn expect_by_serial(rt: &impl Abort, alloc: Global, row: &Row<'_>, transmitted: &[u8]) {
    let answer = run_serial(alloc, &row.inputs());
    is_answer(rt, row, transmitted, "session_serial", answer);
}

/// What comes of a row by `session`.
fn run<R: Threads + Wait + Sync>(
    rt: &R,
    alloc: Global,
    row: &Row<'_>,
) -> Result<Outcome, AllocError> {
    run_with(rt, &OpenGate, alloc, &row.inputs())
}

/// Runs a row by both calls, and compares the status, what was written and what was transmitted. Its words ask for the serial
/// order where a phase could take another one.
pub(crate) fn expect_sent<R: Abort + Threads + Wait + Sync>(
    rt: &R,
    alloc: Global,
    row: &Row<'_>,
    transmitted: &[u8],
) {
    expect_by_serial(rt, alloc, row, transmitted);
    let answer = run(rt, alloc, row);
    is_answer(rt, row, transmitted, "session", answer);
}

/// Runs sessions that are done by `session_serial` alone, and compares their transcripts.
pub(crate) fn expect_serial(rt: &impl Abort, alloc: Global, rows: &[Told<'_>]) {
    for (shows, words, script, frames, transcript) in rows {
        let row = Row::done(shows, words, script, frames, transcript);
        expect_by_serial(rt, alloc, &row, &[]);
    }
}

/// Runs a row that transmits nothing.
pub(crate) fn expect<R: Abort + Threads + Wait + Sync>(rt: &R, alloc: Global, row: &Row<'_>) {
    expect_sent(rt, alloc, row, &[]);
}

/// Runs sessions that are done, and compares their transcripts.
pub(crate) fn expect_told<R: Abort + Threads + Wait + Sync>(
    rt: &R,
    alloc: Global,
    rows: &[Told<'_>],
) {
    for (shows, words, script, frames, transcript) in rows {
        let row = Row::done(shows, words, script, frames, transcript);
        expect(rt, alloc, &row);
    }
}
