//! The texts of replies, and which of them a reply has. The texts stand here and nowhere else.
ghost use Rattle.std.specs.Prelude.{◌≡◌, map};
ghost use Rattle.std.specs.List.{concat};
ghost use Rattle.history_text.specs.Kinds.{kind_form, enqueued_form, plain, numbered, counted, configured, spell};

use crate::cause::{Numbers, refusal_form, refusal_numbers};
use crate::pulled::pulled;
use arrayvec::ArrayVec;
use flow_calls::{BadKind, OpKind, Reply};
use flow_rules::Cause;

/// A reply without its numbers and lists.
#[derive(Clone, Copy)]
pub(crate) enum Kind {
    Validated,
    Created,
    Destroyed,
    Flushed,
    Counted,
    Listed,
    Isolated(bool),
    IndirectCreated,
    IndirectUpdated,
    IndirectDestroyed,
    PatternTemplateCreated,
    PatternTemplateDestroyed,
    ActionsTemplateCreated,
    ActionsTemplateDestroyed,
    TableCreated,
    TableDestroyed,
    Configured,
    Enqueued(OpKind),
    Pushed,
    Pulled,
    Started,
    Stopped,
    Bye,
    Bad(BadKind),
    Refused(Cause),
}

/// The text of a reply, and the numbers in it.
#[derive(Drop)]
pub(crate) struct Spelled {
    pub(crate) kind: Kind,
    pub(crate) numbers: Numbers,
}

/// The only port of a session.
const PORT: u128 = 0;

/// As many parts as a text may have.
const MAX_PARTS: usize = 5;

/// A text in parts, with each number in it written `0`.
pub(crate) type Form = [&'static [u8]; MAX_PARTS];

/// A text in one part.
fn whole(text: &'static [u8]) -> Form
    ensures { concat (map (λ part. part.now) result) ≡ text.entry.now }
{
    [text, b"", b"", b"", b""]
}

pub(crate) fn kind_form(kind: Kind) -> Form
    ensures { concat (map (λ part. part.now) result) ≡ kind_form kind }
{
    match kind {
        Kind::Validated => whole(b"Flow rule validated"),
        Kind::Created => whole(b"Flow rule #0 created"),
        Kind::Destroyed => whole(b"Flow rule #0 destroyed"),
        Kind::Flushed => whole(b"Flow rules flushed"),
        Kind::Counted => whole(b"COUNT: hits 0 bytes 0"),
        Kind::Listed => whole(b"ID\tGroup\tPrio\tAttr\tRule"),
        Kind::Isolated(true) => {
            whole(b"Ingress traffic is restricted to the defined flow rules")
        }
        Kind::Isolated(false) => whole(b"Ingress traffic is not restricted"),
        Kind::IndirectCreated => whole(b"Indirect action #0 created"),
        Kind::IndirectUpdated => whole(b"Indirect action #0 updated"),
        Kind::IndirectDestroyed => whole(b"Indirect action #0 destroyed"),
        Kind::PatternTemplateCreated => whole(b"Pattern template #0 created"),
        Kind::PatternTemplateDestroyed => whole(b"Pattern template #0 destroyed"),
        Kind::ActionsTemplateCreated => whole(b"Actions template #0 created"),
        Kind::ActionsTemplateDestroyed => whole(b"Actions template #0 destroyed"),
        Kind::TableCreated => whole(b"Template table #0 created"),
        Kind::TableDestroyed => whole(b"Template table #0 destroyed"),
        Kind::Configured => whole(b"Port 0 configured: 0 queues of 0 entries"),
        Kind::Enqueued(kind) => enqueued_form(kind),
        Kind::Pushed => whole(b"Queue #0 operations pushed"),
        Kind::Pulled => whole(b"Queue #0 pulled 0 operations (0 failed, 0 succeeded) ["),
        Kind::Started => whole(b"Packet forwarding started"),
        Kind::Stopped => whole(b"Packet forwarding stopped: "),
        Kind::Bye => whole(b"Bye"),
        Kind::Bad(BadKind::Arguments) => whole(b"Bad arguments"),
        Kind::Bad(BadKind::Port) => whole(b"Invalid port"),
        Kind::Bad(BadKind::NotStarted) => whole(b"Packet forwarding not started"),
        Kind::Bad(BadKind::AlreadyStarted) => whole(b"Packet forwarding already started"),
        Kind::Refused(cause) => refusal_form(cause),
    }
}

/// The text of an operation that a flow queue holds.
fn enqueued_form(kind: OpKind) -> Form
    ensures { concat (map (λ part. part.now) result) ≡ enqueued_form kind }
{
    match kind {
        OpKind::RuleCreate => whole(b"Flow rule #0 creation enqueued"),
        OpKind::RuleDestroy => whole(b"Flow rule #0 destruction enqueued"),
        OpKind::IndirectCreate => whole(b"Indirect action #0 creation enqueued"),
        OpKind::IndirectUpdate => whole(b"Indirect action #0 update enqueued"),
        OpKind::IndirectDestroy => whole(b"Indirect action #0 destruction enqueued"),
    }
}

/// A text without numbers.
fn plain(kind: Kind) -> Spelled
    ensures { record { kind = result.kind; numbers = result.numbers.items } ≡ plain kind }
{
    Spelled {
        kind,
        numbers: ArrayVec::new(),
    }
}

/// A text with a number.
fn numbered(kind: Kind, number: u128) -> Spelled
    ensures { record { kind = result.kind; numbers = result.numbers.items } ≡ numbered kind number }
{
    let mut numbers = ArrayVec::new();
    numbers.push(number);
    Spelled { kind, numbers }
}

/// The text of what a counter has counted.
fn counted(hits: u64, bytes: u128) -> Spelled
    ensures { record { kind = result.kind; numbers = result.numbers.items } ≡ counted hits bytes }
{
    let mut numbers = ArrayVec::new();
    numbers.push(hits as u128);
    numbers.push(bytes);
    Spelled {
        kind: Kind::Counted,
        numbers,
    }
}

/// The text of the flow queues that are there now. The port's number is one of its numbers.
fn configured(queues: u32, size: u32) -> Spelled
    ensures { record { kind = result.kind; numbers = result.numbers.items } ≡ configured queues size }
{
    let mut numbers = ArrayVec::new();
    numbers.push(PORT);
    numbers.push(queues as u128);
    numbers.push(size as u128);
    Spelled {
        kind: Kind::Configured,
        numbers,
    }
}

pub(crate) fn spell(reply: &Reply) -> Spelled
    ensures { record { kind = result.kind; numbers = result.numbers.items } ≡ spell reply.now }
{
    match reply {
        Reply::Validated => plain(Kind::Validated),
        Reply::Created(id) => numbered(Kind::Created, *id as u128),
        Reply::Destroyed(id) => numbered(Kind::Destroyed, *id as u128),
        Reply::Flushed => plain(Kind::Flushed),
        Reply::Counted(hits, bytes) => counted(*hits, *bytes),
        Reply::Listed(_) => plain(Kind::Listed),
        Reply::Isolated(on) => plain(Kind::Isolated(*on)),
        Reply::IndirectCreated(id) => numbered(Kind::IndirectCreated, *id as u128),
        Reply::IndirectUpdated(id) => numbered(Kind::IndirectUpdated, *id as u128),
        Reply::IndirectDestroyed(id) => numbered(Kind::IndirectDestroyed, *id as u128),
        Reply::PatternTemplateCreated(id) => numbered(Kind::PatternTemplateCreated, *id as u128),
        Reply::PatternTemplateDestroyed(id) => numbered(
            Kind::PatternTemplateDestroyed,
            *id as u128,
        ),
        Reply::ActionsTemplateCreated(id) => numbered(Kind::ActionsTemplateCreated, *id as u128),
        Reply::ActionsTemplateDestroyed(id) => numbered(
            Kind::ActionsTemplateDestroyed,
            *id as u128,
        ),
        Reply::TableCreated(id) => numbered(Kind::TableCreated, *id as u128),
        Reply::TableDestroyed(id) => numbered(Kind::TableDestroyed, *id as u128),
        Reply::Configured(queues, size) => configured(*queues, *size),
        Reply::Enqueued(kind, id) => numbered(Kind::Enqueued(*kind), *id as u128),
        Reply::Pushed(queue) => numbered(Kind::Pushed, *queue as u128),
        Reply::Pulled(queue, outcomes) => pulled(*queue, outcomes.get()),
        Reply::Started => plain(Kind::Started),
        Reply::Stopped(_) => plain(Kind::Stopped),
        Reply::Bye => plain(Kind::Bye),
        Reply::Bad(kind) => plain(Kind::Bad(*kind)),
        Reply::Fault(fault) => Spelled {
            kind: Kind::Refused(fault.cause),
            numbers: refusal_numbers(fault),
        },
    }
}
