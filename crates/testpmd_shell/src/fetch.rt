//! From the options to the history that is printed.
ghost use Rattle.std.specs.Prelude.{◌≡◌, ◌≤◌, ◌<◌, ◌-◌, ◌^◌, length, Some, IfOk, IfErr, IfSome, OnOk, option_copied, is_some, false, IsTrue, ℕ, List};
ghost use Rattle.io_edges.specs.ShelfState.{ShelfState};
ghost use Rattle.capture_files.specs.Record.{Frame};
ghost use Rattle.testpmd_shell.specs.Options.{given_of};
ghost use Rattle.testpmd_shell.specs.Sending.{records_kept};
ghost use Rattle.testpmd_shell.specs.Session.{IsFresh, Allows, AllowsCapture, AllowsTransmit, IsWhy, IsSizedFirst, IsReadBy, IsSerial, IsLegalAndWhole};
ghost use Rattle.testpmd_shell.specs.Run.{early_faults};
ghost use Rattle.testpmd_shell.specs.Transmitted.{IsAsOpened};
ghost use Rattle.testpmd_shell.specs.Fetch.{IsScriptStop, IsLong, IsOver, IsOpeningStop, IsWritingStop, IsFilesStop, OthersThanScript, OthersThanCapture, OthersThanBoth, HasOpened, HasRun, status_of_stop};
ghost use Rattle.testpmd_shell.specs.Parts.{IsOpen, StartsOver};
ghost use Rattle.testpmd_shell.specs.Found.{limits_of, is_over};
ghost use Rattle.flow_rules.specs.Limits.{AreLimits};
ghost use Rattle.flow_grammar.specs.Program.{program_of};
ghost use Rattle.flow_grammar.specs.Limits.{calls_in};

use crate::MAX_SCRIPT;
use crate::feed::Feed;
use crate::options::Options;
use crate::run::{Ran, run, run_on_threads};
use capture_files::{CaptureReader, MAX_FRAME_LEN};
use flow_grammar::{Program, ProgramFault, program};
use history_text::Ending;
use io_edges::{Gate, ReadAll, Shelf, Slot, SlotSource, read_all};
use std::alloc::{AllocError, Global};
use std::sync::Wait;
use std::thread::Threads;

/// Why no history came.
#[derive(Clone, Copy)]
pub(crate) enum Stopped {
    ReadFault,
    WriteFault,
    TooLarge,
    NoMemory,
}

impl From<AllocError> for Stopped {
    ghost use Rattle.testpmd_shell.specs.declared.fetch.Stopped.TheVariants.{NoMemory};

    ghost from_gives = { λ _ stopped. stopped ≡ NoMemory };

    fn from(_error: AllocError) -> Stopped {
        Stopped::NoMemory
    }
}

/// Opens the script and reads it to its end.
fn read_script<S: Shelf>(alloc: Global, shelf: &mut S, name: &str) -> Result<Vec<u8>, Stopped>
    requires once { (S.state shelf.old).script.asked ≡ false }
    requires openings { (S.state shelf.old).open_faults < 2 ^ 64 - 1 }
    requires reads { (S.state shelf.old).script.faults < 2 ^ 64 - 1 }
    requires allowed { IsTrue ((S.state shelf.old).allows_read Slot.Script name.now) }
    ensures script { IfOk result (λ script. IfSome ((S.state shelf.old).contents name.now) (λ bytes. script.items ≡ bytes)) }
    ensures within { IfOk result (λ script. length script.items ≤ 1_048_576) }
    ensures calm { OnOk result (early_faults (S.state shelf.new) ≡ early_faults (S.state shelf.old)) }
    ensures openings { OnOk result ((S.state shelf.new).open_faults ≡ (S.state shelf.old).open_faults) }
    ensures stopped { IfErr result (IsScriptStop IsLong ((S.state shelf.old).contents name.now) (early_faults (S.state shelf.old)) (early_faults (S.state shelf.new))) }
    ensures others { OthersThanScript (S.state shelf.old) (S.state shelf.new) }
{
    let Ok(()) = shelf.open_read(Slot::Script, name) else {
        return Err(Stopped::ReadFault);
    };
    let mut source = SlotSource::new(shelf, Slot::Script);
    match read_all(alloc, &mut source, MAX_SCRIPT) {
        Ok(script) => Ok(script),
        Err(ReadAll::ReadFault) => Err(Stopped::ReadFault),
        Err(ReadAll::TooLarge) => Err(Stopped::TooLarge),
        Err(ReadAll::NoMemory) => Err(Stopped::NoMemory),
    }
}

/// The program of the script.
fn read_program<S: Shelf>(alloc: Global, shelf: &mut S, name: &str) -> Result<Program, Stopped>
    requires once { (S.state shelf.old).script.asked ≡ false }
    requires openings { (S.state shelf.old).open_faults < 2 ^ 64 - 1 }
    requires reads { (S.state shelf.old).script.faults < 2 ^ 64 - 1 }
    requires allowed { IsTrue ((S.state shelf.old).allows_read Slot.Script name.now) }
    ensures program { IfOk result (λ program. IfSome ((S.state shelf.old).contents name.now) (λ bytes. program ≡ program_of bytes)) }
    ensures within { OnOk result (IfSome ((S.state shelf.old).contents name.now) (λ bytes. is_over bytes ≡ false)) }
    ensures few { IfOk result (λ program. calls_in program ≤ 65536) }
    ensures calm { OnOk result (early_faults (S.state shelf.new) ≡ early_faults (S.state shelf.old)) }
    ensures openings { OnOk result ((S.state shelf.new).open_faults ≡ (S.state shelf.old).open_faults) }
    ensures stopped { IfErr result (IsScriptStop IsOver ((S.state shelf.old).contents name.now) (early_faults (S.state shelf.old)) (early_faults (S.state shelf.new))) }
    ensures others { OthersThanScript (S.state shelf.old) (S.state shelf.new) }
{
    let script = match read_script(alloc, shelf, name) {
        Ok(script) => script,
        Err(why) => return Err(why),
    };
    match program(alloc, &script) {
        Ok(program) => Ok(program),
        Err(ProgramFault::TooLarge) => Err(Stopped::TooLarge),
        Err(ProgramFault::NoMemory) => Err(Stopped::NoMemory),
    }
}

/// Opens the capture, where one is named.
fn open_capture<S: Shelf>(
    alloc: Global,
    shelf: &mut S,
    name: Option<&str>,
) -> Result<Option<Feed>, Stopped>
    requires once { (S.state shelf.old).capture.asked ≡ false }
    requires openings { (S.state shelf.old).open_faults < 2 ^ 64 - 1 }
    requires allowed { AllowsCapture (option_copied name) (S.state shelf.old) }
    ensures opened { IfOk result (λ feed. IsOpen feed (S.state shelf.new)) }
    ensures starts { IfOk result (λ feed. StartsOver (option_copied name.entry) feed (S.state shelf.old) (S.state shelf.new)) }
    ensures calm { OnOk result ((S.state shelf.new).open_faults ≡ (S.state shelf.old).open_faults) }
    ensures stopped { IfErr result (IsOpeningStop (S.state shelf.old).open_faults (S.state shelf.new).open_faults) }
    ensures faults { (S.state shelf.new).capture.faults ≡ (S.state shelf.old).capture.faults }
    ensures others { OthersThanCapture (S.state shelf.old) (S.state shelf.new) }
{
    let Some(name) = name else {
        return Ok(None);
    };
    let Ok(()) = shelf.open_read(Slot::Capture, name) else {
        return Err(Stopped::ReadFault);
    };
    let buffer = vec![in alloc; 0u8; MAX_FRAME_LEN]?;
    Ok(Some(Feed {
        reader: CaptureReader::new(),
        taken: 0,
        buffer,
        ending: Ending::Whole,
    }))
}

/// Opens the transmit file, where one is named.
fn open_transmit<S: Shelf>(shelf: &mut S, name: Option<&str>) -> Result<(), Stopped>
    requires once { (S.state shelf.old).written.asked ≡ false }
    requires openings { (S.state shelf.old).written.open_faults < 2 ^ 64 - 1 }
    requires allowed { AllowsTransmit (option_copied name) (S.state shelf.old) }
    ensures opened { OnOk result (IsAsOpened (option_copied name.entry) (S.state shelf.old).written (S.state shelf.new).written) }
    ensures stopped { IfErr result (IsWritingStop (S.state shelf.old).written (S.state shelf.new).written) }
    ensures others { S.state shelf.new ≡ record (S.state shelf.old) { written = (S.state shelf.new).written } }
{
    let Some(name) = name else {
        return Ok(());
    };
    let Ok(()) = shelf.open_write(name) else {
        return Err(Stopped::WriteFault);
    };
    Ok(())
}

/// Opens the transmit file and the capture, where they are named.
fn open_both<S: Shelf>(
    alloc: Global,
    shelf: &mut S,
    transmit: Option<&str>,
    capture: Option<&str>,
) -> Result<Option<Feed>, Stopped>
    requires once { ((S.state shelf.old).capture.asked ≡ false) × ((S.state shelf.old).written.asked ≡ false) }
    requires openings { ((S.state shelf.old).open_faults < 2 ^ 64 - 1) × ((S.state shelf.old).written.open_faults < 2 ^ 64 - 1) }
    requires allowed { AllowsCapture (option_copied capture) (S.state shelf.old) × AllowsTransmit (option_copied transmit) (S.state shelf.old) }
    ensures opened { IfOk result (λ feed. IsOpen feed (S.state shelf.new)) }
    ensures starts { IfOk result (λ feed. StartsOver (option_copied capture.entry) feed (S.state shelf.old) (S.state shelf.new)) }
    ensures written { OnOk result (IsAsOpened (option_copied transmit.entry) (S.state shelf.old).written (S.state shelf.new).written) }
    ensures calm { OnOk result ((S.state shelf.new).open_faults ≡ (S.state shelf.old).open_faults) }
    ensures stopped { IfErr result (IsFilesStop (option_copied transmit.entry) (S.state shelf.old) (S.state shelf.new)) }
    ensures faults { (S.state shelf.new).capture.faults ≡ (S.state shelf.old).capture.faults }
    ensures others { OthersThanBoth (S.state shelf.old) (S.state shelf.new) }
{
    match open_transmit(shelf, transmit) {
        Ok(()) => open_capture(alloc, shelf, capture),
        Err(why) => Err(why),
    }
}

/// The program of the script, and the capture, where one is named.
#[derive(Drop)]
pub(crate) struct Opened {
    pub(crate) program: Program,
    pub(crate) feed: Option<Feed>,
}

/// Reads the script, and opens the other files that the options name.
fn open_all<S: Shelf>(
    alloc: Global,
    options: &Options<'_>,
    shelf: &mut S,
) -> Result<Opened, Stopped>
    requires fresh { IsFresh (S.state shelf.old) }
    requires allowed { Allows (Some (given_of options.now)) (S.state shelf.old) }
    ensures opened { IfOk result (λ opened. HasOpened (given_of options.now) (S.state shelf.old) (S.state shelf.new) opened.program opened.feed) }
    ensures why { IfErr result (λ why. IsWhy (given_of options.now) (S.state shelf.old) (S.state shelf.new) (status_of_stop why)) }
    ensures sized { IsSizedFirst (given_of options.now) (S.state shelf.old) (S.state shelf.new) }
    ensures reads { (S.state shelf.new).capture.faults ≡ (S.state shelf.old).capture.faults }
{
    let program = read_program(alloc, shelf, options.script)?;
    let feed = open_both(alloc, shelf, options.transmit, options.capture)?;
    Ok(Opened { program, feed })
}

/// Reads the files that the options name, and runs the script in the serial order.
pub(crate) fn fetch<S: Shelf>(
    alloc: Global,
    options: &Options<'_>,
    shelf: &mut S,
) -> Result<Ran, Stopped>
    requires fresh { IsFresh (S.state shelf.old) }
    requires allowed { Allows (Some (given_of options.now)) (S.state shelf.old) }
    requires limits { AreLimits (limits_of (given_of options.now)) }
    ensures ran { IfOk result (λ ran. HasRun (IsSerial (given_of options.now)) (given_of options.now) (S.state shelf.old) (S.state shelf.new) ran.adapter (records_kept ran.kept) ran.ending) }
    ensures why { IfErr result (λ why. IsWhy (given_of options.now) (S.state shelf.old) (S.state shelf.new) (status_of_stop why)) }
    ensures sized { IsSizedFirst (given_of options.now) (S.state shelf.old) (S.state shelf.new) }
    ensures reads { IsReadBy (Some (given_of options.now)) (S.state shelf.old) (S.state shelf.new) }
{
    let Opened { program, feed } = open_all(alloc, options, shelf)?;
    let Ok(ran) = run(alloc, options, program.as_slice(), shelf, feed) else {
        return Err(Stopped::NoMemory);
    };
    Ok(ran)
}

/// Reads the files that the options name, and runs the script, each phase on threads.
pub(crate) fn fetch_on_threads<R: Threads + Wait + Sync, S: Shelf, G: Gate + Sync>(
    rt: &R,
    gate: &G,
    alloc: Global,
    options: &Options<'_>,
    shelf: &mut S,
) -> Result<Ran, Stopped>
    requires fresh { IsFresh (S.state shelf.old) }
    requires allowed { Allows (Some (given_of options.now)) (S.state shelf.old) }
    requires limits { AreLimits (limits_of (given_of options.now)) }
    requires workers { (1 ≤ options.now.cores) × (options.now.cores ≤ 16) }
    ensures ran { IfOk result (λ ran. HasRun (IsLegalAndWhole (given_of options.now)) (given_of options.now) (S.state shelf.old) (S.state shelf.new) ran.adapter (records_kept ran.kept) ran.ending) }
    ensures why { IfErr result (λ why. IsWhy (given_of options.now) (S.state shelf.old) (S.state shelf.new) (status_of_stop why)) }
    ensures sized { IsSizedFirst (given_of options.now) (S.state shelf.old) (S.state shelf.new) }
    ensures reads { IsReadBy (Some (given_of options.now)) (S.state shelf.old) (S.state shelf.new) }
{
    let Opened { program, feed } = open_all(alloc, options, shelf)?;
    let Ok(ran) = run_on_threads(rt, gate, alloc, options, program.as_slice(), shelf, feed) else {
        return Err(Stopped::NoMemory);
    };
    Ok(ran)
}
