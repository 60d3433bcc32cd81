//! Scripts, and the programs that they make.
use crate::shown::{repeated, show_op, text_of};
use flow_calls::Call;
use flow_grammar::{CallList, Part, ProgramFault, program};
use std::alloc::{AllocError, Global};
use std::fmt::Write;
use std::process::Abort;
use std::test::Fail;

fn show_call(out: &mut String, call: &Call) -> Result<(), AllocError> {
    let line = call.at.line;
    let part = call.at.part;
    write!(out, " {line}.{part} ")?;
    show_op(out, &call.op)
}

fn show_calls(out: &mut String, calls: &[Call]) -> Result<(), AllocError> {
    for call in calls {
        show_call(out, call)?;
    }
    Ok(())
}

/// The calls of the agents that have some, by flow queue.
fn show_agents(out: &mut String, agents: &[CallList]) -> Result<(), AllocError> {
    for (queue, calls) in agents.iter().enumerate() {
        if calls.len() != 0 {
            write!(out, " agent {queue} (")?;
            show_calls(out, calls.as_slice())?;
            out.push_str(" )")?;
        }
    }
    Ok(())
}

fn show_part(out: &mut String, part: &Part) -> Result<(), AllocError> {
    match part {
        Part::Section(calls) => {
            out.push_str("section")?;
            show_calls(out, calls.as_slice())?;
        }
        Part::Phase {
            opening,
            count,
            shell,
            agents,
            closing,
        } => {
            out.push_str(if count.is_some() { "some" } else { "phase" })?;
            show_call(out, opening)?;
            out.push_str(" (")?;
            show_calls(out, shell.as_slice())?;
            out.push_str(" )")?;
            show_agents(out, agents.as_slice())?;
            show_call(out, closing)?;
        }
    }
    out.push_str(";")
}

/// The parts of a script's program, or why it has none.
fn shown(alloc: Global, script: &[u8]) -> Result<String, AllocError> {
    let mut out = String::new(alloc);
    match program(alloc, script) {
        Ok(program) => {
            for part in program.as_slice() {
                show_part(&mut out, part)?;
            }
        }
        Err(ProgramFault::TooLarge) => out.push_str("too large")?,
        Err(ProgramFault::NoMemory) => out.push_str("no memory")?,
    }
    Ok(out)
}

/// Whether each script's program is what stands beside it.
fn each_script_says(rt: &impl Abort, alloc: Global, rows: &[(&[u8], &str)]) -> Result<(), Fail> {
    for (script, want) in rows {
        let found = shown(alloc, script)?;
        assert_eq!(rt; found.as_str(), *want, "at {}", text_of(script));
    }
    Ok(())
}

static A_SCRIPT_IS_SECTIONS_AND_PHASES: [(&[u8], &str); 20] = [
    (b"", ""),
    (b"\n# nothing\r\n \t\n", ""),
    (
        b"flow create 0 ingress pattern eth / end actions queue index 1 / end\nstart\nstop\n",
        "section 1.1 create 1, eth;phase 2.1 start ( ) 3.1 stop;",
    ),
    (b"flow crate 0\n", "section 1.1 bad;"),
    (b"stop\n", "section 1.1 not-started;"),
    (b"\n\n\nstop", "section 4.1 not-started;"),
    (b"start\nstop", "phase 1.1 start ( ) 2.1 stop;"),
    (b"start\r\nstop\r\n", "phase 1.1 start ( ) 2.1 stop;"),
    (b"start\r\r\nstop\r", "section 1.1 bad 2.1 not-started;"),
    (
        b"start\nstart\nforward 2\nstop\n",
        "phase 1.1 start ( 2.1 already-started 3.1 already-started ) 4.1 stop;",
    ),
    (b"start", "phase 1.1 start ( ) 2.1 stop;"),
    (b"start\n", "phase 1.1 start ( ) 2.1 stop;"),
    (b"start\n\n", "phase 1.1 start ( ) 3.1 stop;"),
    (b"start\n\r", "phase 1.1 start ( ) 3.1 stop;"),
    (b"forward 3\nstop", "some 1.1 start 3 ( ) 2.1 stop;"),
    (b"start\nstop stop", "phase 1.1 start ( 2.1 bad ) 3.1 stop;"),
    (
        b"start\nflow create 1 ingress pattern end actions queue index 0x2 / end\nstop\nstop",
        "phase 1.1 start ( 2.1 port ) 3.1 stop;section 4.1 not-started;",
    ),
    (
        b"forward 1\nstop\nforward 2\nstop\n",
        "some 1.1 start 1 ( ) 2.1 stop;some 3.1 start 2 ( ) 4.1 stop;",
    ),
    (
        b"#\nstart # now\n#stop\nstop #",
        "phase 2.1 start ( ) 4.1 stop;",
    ),
    (b"start \x00\n\x01", "section 1.1 bad 2.1 bad;"),
];

#[test]
fn a_script_is_sections_and_phases(rt: HostRuntime) -> Result<(), Fail> {
    each_script_says(&rt, rt.alloc(), &A_SCRIPT_IS_SECTIONS_AND_PHASES)
}

static IN_A_PHASE_AN_AGENT_HAS_THE_LINES_OF_ITS_FLOW_QUEUE: [(&[u8], &str); 11] = [
    (
        b"start\nflow pull 0 queue 0\nflow list 0\nstop\n",
        "phase 1.1 start ( 3.1 list ) agent 0 ( 2.1 pull 0 ) 4.1 stop;",
    ),
    (
        b"start\nflow pull 0 queue 8\nflow push 0 queue 7\nflow push 0 queue 65535\nstop\n",
        "phase 1.1 start ( 2.1 pull 8 4.1 push 65535 ) agent 7 ( 3.1 push 7 ) 5.1 stop;",
    ),
    (
        b"flow pull 0 queue 0\nstart\nstop\nflow push 0 queue 1\n",
        "section 1.1 pull 0;phase 2.1 start ( ) 3.1 stop;section 4.1 push 1;",
    ),
    (
        b"start\nflow queue 0 destroy 1 rule 4 rule 5\nflow push 0 queue 1\nquit\n",
        "phase 1.1 start ( ) agent 1 ( 2.1 queue 1 destroy 4; 2.2 queue 1 destroy 5; 3.1 push 1 ) 4.1 stop;section 4.2 quit;",
    ),
    (
        b"start\nflow queue 0 destroy 8 rule 4 rule 5\n",
        "phase 1.1 start ( 2.1 queue 8 destroy 4; 2.2 queue 8 destroy 5; ) 3.1 stop;",
    ),
    (
        b"start\nflow pull 1 queue 0\nflow pull 0 queue\nflow pull 0 queue 0\n",
        "phase 1.1 start ( 2.1 port 3.1 bad ) agent 0 ( 4.1 pull 0 ) 5.1 stop;",
    ),
    (
        b"start\nflow configure 0 queues_number 1 queues_size 4\nstart\n",
        "phase 1.1 start ( 2.1 configure 1 of 4 3.1 already-started ) 4.1 stop;",
    ),
    (
        b"start\nflow push 0 queue 3\nflow push 0 queue 2\nflow pull 0 queue 3\nflow pull 0 queue 2\n",
        "phase 1.1 start ( ) agent 2 ( 3.1 push 2 5.1 pull 2 ) agent 3 ( 2.1 push 3 4.1 pull 3 ) 6.1 stop;",
    ),
    (
        b"start\nflow queue 0 create 4 template_table 1 pattern_template 0 actions_template 0 pattern end actions end\n",
        "phase 1.1 start ( ) agent 4 ( 2.1 queue 4 create 1.0.0 ) 3.1 stop;",
    ),
    (
        b"start\nflow queue 0 indirect_action 5 create action count / end\nflow queue 0 indirect_action 5 update 1 action drop / end\nflow queue 0 indirect_action 6 destroy action_id 1\n",
        "phase 1.1 start ( ) agent 5 ( 2.1 queue 5 indirect create count no-ingress 3.1 queue 5 indirect 1 update drop ) agent 6 ( 4.1 queue 6 indirect 1 destroy; ) 5.1 stop;",
    ),
    (
        b"forward 1\nflow pull 0 queue 0\nstop\nforward 1\nflow pull 0 queue 1\nstop\n",
        "some 1.1 start 1 ( ) agent 0 ( 2.1 pull 0 ) 3.1 stop;some 4.1 start 1 ( ) agent 1 ( 5.1 pull 1 ) 6.1 stop;",
    ),
];

#[test]
fn in_a_phase_an_agent_has_the_lines_of_its_flow_queue(rt: HostRuntime) -> Result<(), Fail> {
    each_script_says(
        &rt,
        rt.alloc(),
        &IN_A_PHASE_AN_AGENT_HAS_THE_LINES_OF_ITS_FLOW_QUEUE,
    )
}

static QUIT_ENDS_THE_SCRIPT_AND_FIRST_THE_PHASE: [(&[u8], &str); 9] = [
    (b"quit", "section 1.1 quit;"),
    (b"\nquit\n", "section 2.1 quit;"),
    (b"stop\nquit", "section 1.1 not-started 2.1 quit;"),
    (
        b"start\nquit",
        "phase 1.1 start ( ) 2.1 stop;section 2.2 quit;",
    ),
    (
        b"forward 1\nstop 1\nquit\n",
        "some 1.1 start 1 ( 2.1 bad ) 3.1 stop;section 3.2 quit;",
    ),
    (
        b"start\nstop\nquit",
        "phase 1.1 start ( ) 2.1 stop;section 3.1 quit;",
    ),
    (b"quit\nquit\nstart\nbad", "section 1.1 quit;"),
    (
        b"start\nquit\nstop",
        "phase 1.1 start ( ) 2.1 stop;section 2.2 quit;",
    ),
    (b"quit now\nstop", "section 1.1 bad 2.1 not-started;"),
];

#[test]
fn quit_ends_the_script_and_first_the_phase(rt: HostRuntime) -> Result<(), Fail> {
    each_script_says(&rt, rt.alloc(), &QUIT_ENDS_THE_SCRIPT_AND_FIRST_THE_PHASE)
}

/// Whether a script is too large.
fn is_too_large(alloc: Global, script: &[u8]) -> Result<bool, ProgramFault> {
    match program(alloc, script) {
        Ok(_program) => Ok(false),
        Err(ProgramFault::TooLarge) => Ok(true),
        Err(ProgramFault::NoMemory) => Err(ProgramFault::NoMemory),
    }
}

/// What a row shows, the front, the middle and how often it stands, the back of a script, and whether it is too large.
type Large = (
    &'static str,
    &'static [u8],
    &'static [u8],
    u32,
    &'static [u8],
    bool,
);

static LARGE_SCRIPTS: [Large; 18] = [
    ("65,536 empty lines", b"", b"\n", 65_536, b"", false),
    ("65,537 empty lines", b"", b"\n", 65_537, b"", true),
    (
        "65,535 empty lines and a comment",
        b"",
        b"\n",
        65_535,
        b"#",
        false,
    ),
    (
        "65,536 empty lines and a comment",
        b"",
        b"\n",
        65_536,
        b"#",
        true,
    ),
    (
        "65,536 empty lines and a CR",
        b"",
        b"\n",
        65_536,
        b"\r",
        true,
    ),
    (
        "65,536 empty lines and a space",
        b"",
        b"\n",
        65_536,
        b" ",
        true,
    ),
    (
        "65,535 lines behind quit",
        b"quit\n",
        b"\n",
        65_535,
        b"",
        false,
    ),
    (
        "65,536 lines behind quit",
        b"quit\n",
        b"\n",
        65_536,
        b"",
        true,
    ),
    ("65,536 bad calls", b"", b"x\n", 65_536, b"", false),
    (
        "65,534 bad calls in a phase without stop",
        b"start\n",
        b"x\n",
        65_534,
        b"",
        false,
    ),
    (
        "65,534 bad calls in a phase with stop",
        b"start\n",
        b"x\n",
        65_534,
        b"stop\n",
        false,
    ),
    (
        "65,535 bad calls in a phase without stop",
        b"start\n",
        b"x\n",
        65_535,
        b"",
        true,
    ),
    (
        "65,535 bad calls before a start",
        b"",
        b"x\n",
        65_535,
        b"start\n",
        true,
    ),
    (
        "65,533 bad calls in a phase, and quit",
        b"start\n",
        b"x\n",
        65_533,
        b"quit\n",
        false,
    ),
    (
        "65,534 bad calls in a phase, and quit",
        b"start\n",
        b"x\n",
        65_534,
        b"quit\n",
        true,
    ),
    (
        "65,534 calls of an agent in a phase",
        b"start\n",
        b"flow pull 0 queue 0\n",
        65_534,
        b"",
        false,
    ),
    (
        "65,535 calls of an agent in a phase",
        b"start\n",
        b"flow pull 0 queue 0\n",
        65_535,
        b"",
        true,
    ),
    (
        "65,535 bad lines behind quit",
        b"quit\n",
        b"x\n",
        65_535,
        b"",
        false,
    ),
];

#[test]
fn a_script_has_at_most_65536_lines_and_calls(rt: HostRuntime) -> Result<(), Fail> {
    for (shows, front, middle, times, back, want) in &LARGE_SCRIPTS {
        let script = repeated(rt.alloc(), front, middle, *times, back)?;
        let found = is_too_large(rt.alloc(), &script)?;
        assert_eq!(rt; found, *want, "{shows}");
    }
    Ok(())
}

#[test]
fn lists_give_their_items(rt: HostRuntime) -> Result<(), Fail> {
    let found = program(rt.alloc(), b"start\nstop 1\n\nstop")?;
    assert_eq!(rt; found.len(), 1);
    assert_eq!(rt; found.as_slice().len(), 1);
    if let Part::Phase { shell, .. } = found.get(0) {
        assert_eq!(rt; shell.len(), 1);
        assert_eq!(rt; shell.get(0).at.line, 2);
    } else {
        assert!(rt; false, "no phase");
    }
    Ok(())
}
