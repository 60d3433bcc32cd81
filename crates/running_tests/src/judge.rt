//! The replay of a transcript: it is read from its front, and what each caller has next is done on a plain port.
use crate::port::Port;
use crate::replies::{reply_to, totals_text, verdict_on};
use crate::steps::Step;
use std::alloc::{AllocError, Global};
use test_sessions::Frame;

/// The shell and the agents of eight flow queues.
const ASKERS: usize = 9;

/// A script over a capture, and who runs it.
#[derive(Clone, Copy)]
pub(crate) struct Case<'a> {
    pub(crate) steps: &'a [Step],
    /// UDP frames to 10.1.2.4, or to another address by one change of its last byte. The first phase takes them all.
    pub(crate) frames: &'a [Frame],
    /// How many Rx queues there are.
    pub(crate) rxq: usize,
    /// How many workers share the frames: frame k is that of worker k mod workers.
    pub(crate) workers: usize,
}

/// Whose turn a line tells.
enum Who {
    /// The shell, which is 0, or an agent, counted from 1.
    Asker(usize),
    Worker(usize),
}

/// A transcript on its way.
#[derive(Drop)]
struct Replay<'a> {
    alloc: Global,
    case: Case<'a>,
    port: Port,
    /// What of the transcript isn't read yet.
    rest: &'a [u8],
    /// Frames that earlier phases took.
    taken: usize,
    /// The place of the next step of each who asks, in the phase that is open.
    calls: Vec<usize>,
    /// The number of each worker's next frame.
    numbers: Vec<usize>,
}

/// The last byte of a frame's address.
fn address_of(frame: &Frame) -> u8 {
    match frame.1.first() {
        Some((_, to)) => *to,
        None => 4,
    }
}

/// The number in front of a blank.
fn number_in(bytes: &[u8]) -> Option<usize> {
    let mut number = 0usize;
    for byte in bytes {
        if *byte == b' ' {
            return Some(number);
        }
        let digit = usize::from(byte.wrapping_sub(b'0'));
        number = number.wrapping_mul(10).wrapping_add(digit);
    }
    None
}

/// Who has the turn that the first line tells.
fn first_of(text: &[u8]) -> Option<Who> {
    if text.starts_with(b"shell ") {
        return Some(Who::Asker(0));
    }
    if let Some(behind) = text.strip_prefix(b"agent") {
        return Some(Who::Asker(number_in(behind)?.wrapping_add(1)));
    }
    let behind = text.strip_prefix(b"worker")?;
    Some(Who::Worker(number_in(behind)?))
}

/// The place of the first stop from a place on.
fn stop_from(steps: &[Step], from: usize) -> usize {
    for (place, step) in steps.iter().enumerate() {
        if place >= from && matches!(step, Step::Stop) {
            return place;
        }
    }
    steps.len()
}

/// The place of a caller's first step from a place on.
fn step_from(steps: &[Step], from: usize, caller: usize) -> usize {
    for (place, step) in steps.iter().enumerate() {
        if place >= from && step.caller() == caller {
            return place;
        }
    }
    steps.len()
}

impl<'a> Replay<'a> {
    /// Nothing is read yet.
    fn new(alloc: Global, case: &Case<'a>, text: &'a [u8]) -> Result<Replay<'a>, AllocError> {
        Ok(Replay {
            alloc,
            case: *case,
            port: Port::new(alloc, case.rxq)?,
            rest: text,
            taken: 0,
            calls: Vec::new(alloc),
            numbers: Vec::new(alloc),
        })
    }

    /// Reads a text, where it stands next.
    fn read(&mut self, text: &str) -> bool {
        let Some(rest) = self.rest.strip_prefix(text.as_bytes()) else {
            return false;
        };
        self.rest = rest;
        true
    }

    /// Reads the entry of the step at a place. Says whether it is the one that is due.
    fn call(&mut self, caller: usize, place: usize) -> Result<bool, AllocError> {
        let Some(step) = self.case.steps.get(place) else {
            return Ok(false);
        };
        let reply = reply_to(self.alloc, &mut self.port, step)?;
        let line = place.wrapping_add(1);
        let text = if caller == 0 {
            format!(in self.alloc; "shell {line}.1: {reply}\n")?
        } else {
            let queue = caller.wrapping_sub(1);
            format!(in self.alloc; "agent{queue} {line}.1: {reply}\n")?
        };
        Ok(self.read(&text))
    }

    /// Reads the entry of a frame. Says whether it is the one that is due.
    fn frame(&mut self, worker: usize, number: usize) -> Result<bool, AllocError> {
        let Some(frame) = self.case.frames.get(number.wrapping_sub(1)) else {
            return Ok(false);
        };
        let verdict = verdict_on(self.alloc, &mut self.port, address_of(frame))?;
        let text = format!(in self.alloc; "worker{worker} #{number}: {verdict}\n")?;
        Ok(self.read(&text))
    }

    /// Reads the entry of a caller's next step of the phase.
    fn next_call(&mut self, caller: usize, stop: usize) -> Result<bool, AllocError> {
        let steps = self.case.steps;
        let Some(next) = self.calls.get_mut(caller) else {
            return Ok(false);
        };
        let place = *next;
        if place >= stop {
            return Ok(false);
        }
        *next = step_from(steps, place.wrapping_add(1), caller);
        self.call(caller, place)
    }

    /// Reads the entry of a worker's next frame.
    fn next_frame(&mut self, worker: usize) -> Result<bool, AllocError> {
        let workers = self.case.workers;
        let Some(next) = self.numbers.get_mut(worker) else {
            return Ok(false);
        };
        let number = *next;
        *next = number.wrapping_add(workers);
        self.frame(worker, number)
    }

    /// Reads an entry of the phase that closes at the place of that stop.
    fn turn(&mut self, stop: usize) -> Result<bool, AllocError> {
        match first_of(self.rest) {
            Some(Who::Asker(caller)) => self.next_call(caller, stop),
            Some(Who::Worker(worker)) => self.next_frame(worker),
            None => Ok(false),
        }
    }

    /// The first steps of all who ask, from a place on.
    fn set_calls(&mut self, from: usize) -> Result<(), AllocError> {
        self.calls.clear();
        for caller in 0..ASKERS {
            let place = step_from(self.case.steps, from, caller);
            self.calls.push(place)?;
        }
        Ok(())
    }

    /// The first frames of all workers, behind those that were taken: of as many in a row each is another worker's.
    fn set_numbers(&mut self) -> Result<(), AllocError> {
        let workers = self.case.workers.max(1);
        self.numbers = vec![in self.alloc; 0usize; workers]?;
        for place in 0..workers {
            let number = self.taken.wrapping_add(place).wrapping_add(1);
            if let Some(first) = self.numbers.get_mut(number % workers) {
                *first = number;
            }
        }
        Ok(())
    }

    /// Reads what stands between a phase's opening and its closing, whose place comes back.
    fn middle(&mut self, from: usize) -> Result<Option<usize>, AllocError> {
        let stop = stop_from(self.case.steps, from);
        self.set_calls(from)?;
        self.set_numbers()?;
        let frames = self.case.frames.len().saturating_sub(self.taken);
        let turns = stop.saturating_sub(from).saturating_add(frames);
        for _ in 0..turns {
            if !self.turn(stop)? {
                return Ok(None);
            }
        }
        self.taken = self.case.frames.len();
        Ok(Some(stop))
    }

    /// Reads the entry of a step outside phases, with the middle of the phase that it opens. The place of the next such step
    /// comes back.
    fn part(&mut self, place: usize) -> Result<Option<usize>, AllocError> {
        if !self.call(0, place)? {
            return Ok(None);
        }
        let next = place.saturating_add(1);
        match self.case.steps.get(place) {
            Some(Step::Start) => self.middle(next),
            _ => Ok(Some(next)),
        }
    }

    /// Reads the totals, behind which nothing stands.
    fn end(&mut self) -> Result<bool, AllocError> {
        let totals = totals_text(self.alloc, &self.port)?;
        let text = format!(in self.alloc; "total {totals}\n")?;
        Ok(self.read(&text) && self.rest.is_empty())
    }
}

/// Whether a transcript is a lawful one.
pub(crate) fn is_lawful(alloc: Global, case: &Case<'_>, text: &[u8]) -> Result<bool, AllocError> {
    let mut replay = Replay::new(alloc, case, text)?;
    let mut place = 0;
    for _ in 0..case.steps.len() {
        if place >= case.steps.len() {
            break;
        }
        let Some(next) = replay.part(place)? else {
            return Ok(false);
        };
        place = next;
    }
    replay.end()
}
