//! Refusals. The names and numbers of error types, and the texts of causes, stand here and nowhere else.
ghost use Rattle.std.specs.Prelude.{◌≡◌, ◌≤◌, ◌<◌, ◌+◌, ◌++◌, map};
ghost use Rattle.std.specs.List.{concat};
ghost use Rattle.arrayvec.specs.ArrayVec.{array_vec_len};
ghost use Rattle.flow_rules.specs.ErrorTypes.{error_type};
ghost use Rattle.history_text.specs.Causes.{type_row, told_of, place_form, place_numbers, number_in, refusal_form, refusal_numbers};

use crate::kind::Form;
use arrayvec::ArrayVec;
use flow_rules::{Cause, ErrorType, Fault};

/// As many numbers as a text may have.
const MAX_NUMBERS: usize = 4;

/// The numbers of a text.
pub(crate) type Numbers = ArrayVec<u128, MAX_NUMBERS>;

/// Whether the refusal of a cause names a place.
#[derive(Clone, Copy)]
pub(crate) enum FaultPlace {
    Nowhere,
    /// A place in the list of items.
    Item,
    /// A place in the list of actions.
    Action,
}

/// An error type's number and name.
#[derive(Clone, Copy)]
pub(crate) struct TypeRow {
    number: u8,
    name: &'static [u8],
}

/// What is told of a cause.
#[derive(Clone, Copy)]
pub(crate) struct CauseRow {
    place: FaultPlace,
    /// The text, with the number in it written `0`.
    text: &'static [u8],
    number: Option<u128>,
}

/// A row of the table of error types.
macro_rules! named {
    ($number:literal, $name:literal) => {
        TypeRow { number: $number, name: $name }
    };
}

/// A row of the table of causes.
macro_rules! told {
    ($place:ident, $text:literal) => {
        CauseRow { place: FaultPlace::$place, text: $text, number: None }
    };
    ($place:ident, $text:literal, $number:literal) => {
        CauseRow { place: FaultPlace::$place, text: $text, number: Some($number) }
    };
}

fn type_row(error: ErrorType) -> TypeRow
    ensures { record { number = result.number; name = result.name.now } ≡ type_row error }
{
    match error {
        ErrorType::Unspecified => named!(1, b"UNSPECIFIED"),
        ErrorType::Handle => named!(2, b"HANDLE"),
        ErrorType::AttrGroup => named!(3, b"ATTR_GROUP"),
        ErrorType::AttrPriority => named!(4, b"ATTR_PRIORITY"),
        ErrorType::AttrIngress => named!(5, b"ATTR_INGRESS"),
        ErrorType::AttrEgress => named!(6, b"ATTR_EGRESS"),
        ErrorType::AttrTransfer => named!(7, b"ATTR_TRANSFER"),
        ErrorType::Attr => named!(8, b"ATTR"),
        ErrorType::ItemNum => named!(9, b"ITEM_NUM"),
        ErrorType::ItemSpec => named!(10, b"ITEM_SPEC"),
        ErrorType::ItemLast => named!(11, b"ITEM_LAST"),
        ErrorType::ItemMask => named!(12, b"ITEM_MASK"),
        ErrorType::Item => named!(13, b"ITEM"),
        ErrorType::ActionNum => named!(14, b"ACTION_NUM"),
        ErrorType::ActionConf => named!(15, b"ACTION_CONF"),
        ErrorType::Action => named!(16, b"ACTION"),
        ErrorType::State => named!(17, b"STATE"),
    }
}

fn told_of(cause: Cause) -> CauseRow
    ensures { record { place = result.place; text = result.text.now; number = result.number } ≡ told_of cause }
{
    match cause {
        Cause::GroupRange => told!(Nowhere, b"group out of range"),
        Cause::PriorityRange => told!(Nowhere, b"priority out of range"),
        Cause::NoIngress => told!(Nowhere, b"ingress is required"),
        Cause::Egress => told!(Nowhere, b"egress is not supported"),
        Cause::Transfer => told!(Nowhere, b"transfer is not supported"),
        Cause::RulesNumber => told!(Nowhere, b"rules number out of range"),
        Cause::TooManyItems => told!(Nowhere, b"more than 0 items", 16),
        Cause::SpecMissing => told!(Item, b"last or mask without spec"),
        Cause::SpecNeeded => told!(Item, b"spec is required"),
        Cause::LastBelow => told!(Item, b"last below spec"),
        Cause::LastInTemplate => told!(Item, b"last is not supported here"),
        Cause::ItemOrder => told!(Item, b"does not follow the item before it"),
        Cause::ItemDiffers => told!(Item, b"differs from the template"),
        Cause::TooManyActions => told!(Nowhere, b"more than 0 actions", 16),
        Cause::ActionConf => told!(Action, b"bad value"),
        Cause::NoIndirect => told!(Action, b"no such indirect action"),
        Cause::ItemNeeded => told!(Action, b"needs an item in the pattern"),
        Cause::SecondFate => told!(Action, b"second fate"),
        Cause::SecondCount => told!(Action, b"counter named twice"),
        Cause::ActionDiffers => told!(Action, b"differs from the template"),
        Cause::KindNotIndirect => told!(Nowhere, b"action cannot be indirect"),
        Cause::KindDiffers => told!(Nowhere, b"kind differs"),
        Cause::CannotUpdate => told!(Nowhere, b"action cannot be updated"),
        Cause::NoCounter => told!(Nowhere, b"no counter to query"),
        Cause::NoRule => told!(Nowhere, b"no such rule"),
        Cause::NoObject => told!(Nowhere, b"no such object"),
        Cause::NoQueue => told!(Nowhere, b"no such queue"),
        Cause::TemplateIndex => told!(Nowhere, b"no such template index"),
        Cause::IdInUse => told!(Nowhere, b"id in use"),
        Cause::StoreFull => told!(Nowhere, b"store full"),
        Cause::TableFull => told!(Nowhere, b"table full"),
        Cause::QueueFull => told!(Nowhere, b"queue full"),
        Cause::QueueRange => told!(Nowhere, b"queues out of range"),
        Cause::TooMany => told!(Nowhere, b"too many objects"),
        Cause::Busy => told!(Nowhere, b"in use"),
        Cause::AlreadyConfigured => told!(Nowhere, b"already configured"),
    }
}

fn place_form(place: FaultPlace) -> &'static [u8]
    ensures { result.now ≡ place_form place }
{
    match place {
        FaultPlace::Nowhere => b"",
        FaultPlace::Item => b"item 0: ",
        FaultPlace::Action => b"action 0: ",
    }
}

/// The text of a refusal.
pub(crate) fn refusal_form(cause: Cause) -> Form
    ensures { concat (map (λ part. part.now) result) ≡ refusal_form cause }
{
    let fault = Fault { cause, at: 0 };
    let row = type_row(fault.kind());
    let told = told_of(cause);
    let place = place_form(told.place);
    [b"Caught error type 0 (", row.name, b"): ", place, told.text]
}

/// Adds the place that a refusal names.
fn push_place(numbers: &mut Numbers, place: FaultPlace, at: u16)
    requires { array_vec_len numbers.old < 4 }
    ensures items { numbers.new.items ≡ numbers.old.items ++ place_numbers place at }
    ensures len { array_vec_len numbers.new ≤ array_vec_len numbers.old + 1 }
{
    match place {
        FaultPlace::Nowhere => {}
        FaultPlace::Item => numbers.push(at as u128),
        FaultPlace::Action => numbers.push(at as u128),
    }
}

/// Adds a number, where there is one.
fn push_number(numbers: &mut Numbers, number: Option<u128>)
    requires { array_vec_len numbers.old < 4 }
    ensures items { numbers.new.items ≡ numbers.old.items ++ number_in number }
{
    if let Some(number) = number {
        numbers.push(number);
    }
}

/// The numbers in the text of a refusal.
pub(crate) fn refusal_numbers(fault: &Fault) -> Numbers
    ensures { result.items ≡ refusal_numbers fault.now }
{
    let told = told_of(fault.cause);
    let mut numbers = ArrayVec::new();
    numbers.push(type_row(fault.kind()).number as u128);
    push_place(&mut numbers, told.place, fault.at);
    push_number(&mut numbers, told.number);
    numbers
}
