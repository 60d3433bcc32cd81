//! What a session runs on: a shelf with its two files, and a sink.
ghost use Rattle.std.specs.Prelude.{◌≡◌, IfOk};
ghost use Rattle.io_edges.specs.MemShelfState.{shelf_state};
ghost use Rattle.testpmd_shell.specs.Session.{IsFresh};

use crate::captures::{Capture, bytes_of};
use io_edges::{FaultPlan, MemShelf, MemSink};
use std::alloc::{AllocError, Global};

/// Room for the longest transcript.
const SINK_ROOM: usize = 65_536;

/// Room for the longest transmit file.
const SHELF_ROOM: usize = 4096;

/// Where an edge fails: nowhere, at an opening, or at a byte of the capture, of the sink or of the transmit file.
#[derive(Clone, Copy)]
pub enum Fails {
    Nowhere,
    Opening(u32),
    Capture(u64),
    Sink(u64),
    Transmit(u64),
}

/// What a session is given: its words, the files `script` and `capture`, and where an edge fails.
#[derive(Clone, Copy)]
pub struct Inputs<'a> {
    pub words: &'a [&'a str],
    pub script: &'a [u8],
    pub capture: Capture<'a>,
    pub fails: Fails,
}

fn plan_of(alloc: Global, fails: Fails) -> Result<FaultPlan, AllocError> {
    let mut opens = Vec::new(alloc);
    if let Fails::Opening(number) = fails {
        opens.push(number)?;
    }
    let capture_at = match fails {
        Fails::Capture(place) => Some(place),
        _ => None,
    };
    let tx_at = match fails {
        Fails::Transmit(place) => Some(place),
        _ => None,
    };
    Ok(FaultPlan {
        opens,
        script_at: None,
        capture_at,
        tx_at,
    })
}

fn files_of(alloc: Global, inputs: &Inputs<'_>) -> Result<Vec<(String, Vec<u8>)>, AllocError> {
    let mut files = Vec::new(alloc);
    let script = Vec::from_slice(alloc, inputs.script)?;
    files.push((String::from_str(alloc, "script")?, script))?;
    let capture = bytes_of(alloc, inputs.capture)?;
    files.push((String::from_str(alloc, "capture")?, capture))?;
    Ok(files)
}

/// A shelf with the files.
pub(crate) fn shelf_of(alloc: Global, inputs: &Inputs<'_>) -> Result<MemShelf, AllocError>
    ensures { IfOk result (λ shelf. IsFresh (shelf_state shelf)) }
{
    let files = files_of(alloc, inputs)?;
    let plan = plan_of(alloc, inputs.fails)?;
    MemShelf::new(alloc, files, SHELF_ROOM, plan)
}

/// A sink for the transcript.
pub(crate) fn sink_of(alloc: Global, inputs: &Inputs<'_>) -> Result<MemSink, AllocError>
    ensures { IfOk result (λ out. out.faults ≡ 0) }
{
    let out_at = match inputs.fails {
        Fails::Sink(place) => Some(place),
        _ => None,
    };
    MemSink::new(alloc, SINK_ROOM, out_at)
}
