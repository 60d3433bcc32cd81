//! Generated calls on flow queues and template tables, beside a plain model.
//!
//! A port keeps its state where it is found quickly: rules by their ids, the slots of a table with that table, what a queue has in
//! flight in rings. The plain model keeps a list of each thing that callers made, in the order in which they made it, and counts
//! by a look through these lists: what is in flight, which slots are taken, who uses a shared action. What is due to a call is
//! read off the manual's table of refusals, one cause after the other.
//!
//! Both get the same calls, which dice choose: small queues, small tables and few ids, so that all is soon full, in use or
//! missing. Each reply is compared, and every few steps the list of all rules in effect. In the end each kind of call must have
//! been accepted, and refused for each cause that these calls can meet, and each kind of operation must have failed and succeeded
//! where it can.
#![tactic(auto)]

#[cfg(test)]
mod beside;
#[cfg(test)]
mod binding;
#[cfg(test)]
mod dice;
#[cfg(test)]
mod expected;
#[cfg(test)]
mod generated;
#[cfg(test)]
mod met;
#[cfg(test)]
mod performing;
#[cfg(test)]
mod plain;
#[cfg(test)]
mod queues;
#[cfg(test)]
mod refusals;
#[cfg(test)]
mod replies;
#[cfg(test)]
mod rules;
#[cfg(test)]
mod templates;
#[cfg(test)]
mod told;
#[cfg(test)]
mod users;
