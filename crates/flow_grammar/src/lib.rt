//! Scripts: what a line says, and the program that a script's lines make.
//!
//! [`read_line`] tells what one line means wherever it stands. [`program`] puts a script together as a list of parts:
//! sections, which are calls outside phases, and phases, which `start` or `forward` opens and `stop` closes. So
//!
//! ```text
//! # one queue
//! flow create 0 ingress pattern eth / ipv4 src is 10.1.2.3 / end actions queue index 1 / end
//! forward 10
//! quit
//! ```
//!
//! is a section with the creation of a rule (line 2), a phase of ten frames with no call of its own (opened by line 3,
//! closed by line 4), and a section with the end of the script (line 4 again, as its second part).
//!
//! - Lines are split at LF, and the one CR at a line's end is dropped. They count from 1, blank ones too. Behind the
//!   last LF stands a line only where it isn't empty.
//! - Words stand between spaces and tabs. One that begins with `#` begins a comment, which reaches to the line's end.
//!   An unprintable byte in front of the comment makes the line bad. A line without words is blank.
//! - The forms are `flow validate`, `create`, `destroy`, `flush`, `query`, `list` and `isolate`, `flow indirect_action` with
//!   `create`, `update`, `destroy` and `query`, `flow pattern_template`, `actions_template` and `template_table` with `create` and
//!   `destroy`, `flow configure`, `flow queue` with `create`, `destroy` and `indirect_action`, `flow push` and `flow pull`, and
//!   `start`, `forward NUMBER`, `stop` and `quit`. A line that fits none is bad, and so is one with a value that
//!   is wider than its field. A flow line with a port other than 0 is bad in a way of its own. The parts of a rule are read by `rule_words`.
//! - A call has the place of its line, and of its part in the line, for lines that ask for several. `start` in a phase
//!   is a bad call of that phase. Where `quit` or the end of the script meets an open phase, a `stop` closes it.
//! - In a phase a call that names flow queue 0 to 7 belongs to the agent of that queue, and every other call to the shell.
//!   Outside phases all calls are the shell's.
//! - A script has at most 65,536 lines and 65,536 calls.
//!
//! The model: a line is a list of words. Its first word names a command, and the second word of a flow line a verb; what
//! the words behind them say is a definition by cases, a short one for each. A program is a recursion over the numbered
//! lines, which remembers the phase that is open and the calls since the last part. `specs/Words` has the words of a line,
//! `specs/Forms` the commands and verbs, `specs/RuleLists` the lists of a rule, `specs/IndirectActions` the lines of actions
//! that rules share, `specs/Templates` those of templates and tables, `specs/Queues` those of flow queues, `specs/Destroys` the lines that destroy
//! things by their ids, `specs/Line` the reading, `specs/Lines` the lines of a script, `specs/Program` the recursion, `specs/Owners` whose a call
//! of a phase is, `specs/Calls` the calls by caller, and `specs/Limits` the limits. A new form is a row of the verbs and a case
//! of `asked`, in `specs/Forms` and in `verbs.rt`, and none of it is a case of the recursion.
//!
//! The plain way is to do as the definitions say: make the list of all words of all lines, then all meanings, then walk
//! over them. Here each line is read when its turn comes, from left to right, and goes into a draft of the program. The
//! draft keeps the parts that are whole, the open one, and how many calls they have; between two lines this holds: what
//! the draft and the lines that are left make is the program, and it has at least as many calls as were counted. The calls of a
//! phase are gathered in the order of their lines, and dealt to their owners where the phase ends. So a
//! script that is too large is given up where it passes the limit, and the time is linear in the script's bytes.
//!
//! Nothing is kept between calls, and no text is copied. Whether a rule has a fault is asked where it is validated or
//! created.
#![tactic(auto)]

mod call_list;
mod destroys;
mod draft;
mod forms;
mod indirect_actions;
mod line;
mod lines;
mod numbers;
mod op_list;
mod owners;
mod part;
mod program_fault;
mod queues;
mod rule_lists;
mod script;
mod templates;
mod verbs;
mod words;

pub use call_list::CallList;
pub use line::{Line, read_line};
pub use op_list::OpList;
pub use part::{Part, Program};
pub use program_fault::ProgramFault;
pub use script::program;
