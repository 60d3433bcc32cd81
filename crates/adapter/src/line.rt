//! What a line tells of an entry.
use flow_actions::Verdict;
use flow_calls::{Call, Caller, Reply};

/// What a line of a transcript tells of an entry. It takes less to make than an `EntryView`, as a frame's layers aren't
/// made anew.
#[derive(Drop)]
pub enum LineView<'a> {
    /// A call and its reply.
    Asked {
        caller: Caller,
        call: &'a Call,
        reply: &'a Reply,
    },
    /// A frame's number, and its verdict.
    Passed {
        caller: Caller,
        number: u32,
        verdict: Verdict,
    },
}
