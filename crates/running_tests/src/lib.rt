//! Sessions whose phases run on threads: each transcript is judged by a plain program.
//!
//! In a phase the shell, the agents and the workers take turns in any order, so one script over one capture has many lawful
//! transcripts. A plain program reads a transcript from its front: the first word of a line says who has this turn, and what that
//! caller has next, a call of the script or a frame, is done on a plain port, whose rules are a list that is scanned. The text that
//! is due must stand there, byte for byte. So each call and each frame must stand in it once, in its caller's order, with the
//! reply or the verdict that is due at its place, counters and results of flow queues included.
//!
//! - `steps.rt`: a script as a list of steps, its lines, and whose a step is.
//! - `port.rt`, `replies.rt`, `judge.rt`: the plain port, the texts that are due, and the replay.
//! - `judged.rt` shows that the judge refuses what isn't lawful.
//! - The other modules run sessions, each with its kind of script, and some with a gate that holds workers.
#![tactic(auto)]

#[cfg(test)]
mod changing;
#[cfg(test)]
mod forty_rules;
#[cfg(test)]
mod judge;
#[cfg(test)]
mod judged;
#[cfg(test)]
mod meeting;
#[cfg(test)]
mod one_frame;
#[cfg(test)]
mod places;
#[cfg(test)]
mod port;
#[cfg(test)]
mod replies;
#[cfg(test)]
mod runs;
#[cfg(test)]
mod steps;
#[cfg(test)]
mod unsteady;
