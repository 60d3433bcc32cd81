//! The entries of a history.
use crate::call::Call;
use crate::caller::Caller;
use crate::parcel::Parcel;
use crate::reply::Reply;
use flow_actions::Verdict;

/// An entry: a call that was asked, with its reply, or a frame that passed, with its verdict. Contracts see a history
/// as a list of these.
#[derive(Drop)]
pub enum Entry {
    Asked(Caller, Call, Reply),
    Passed(Caller, Parcel, Verdict),
}

/// An entry as the adapter shows it: a call is lent by the adapter that keeps it, and a frame is made from what is kept.
#[derive(Drop)]
pub enum EntryView<'a> {
    /// A call and its reply.
    Asked {
        caller: Caller,
        call: &'a Call,
        reply: &'a Reply,
    },
    /// A frame and its verdict.
    Passed {
        caller: Caller,
        parcel: Parcel,
        verdict: Verdict,
    },
}
