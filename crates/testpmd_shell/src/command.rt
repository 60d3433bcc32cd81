//! The command that takes the program's words apart, and the names of its options.
ghost use Rattle.std.specs.Prelude.{◌≡◌, IfOk};
ghost use Rattle.clap.specs.Words.{app_of, with_rule};
ghost use Rattle.testpmd_shell.specs.Command.{bare_command, option_named, shell_command};

use clap::{Arg, Command};
use std::alloc::{AllocError, Global};

pub(crate) const SCRIPT: &str = "cmdline-file";

pub(crate) const CAPTURE: &str = "rx-pcap";

pub(crate) const TRANSMIT: &str = "tx-pcap";

pub(crate) const QUEUES: &str = "rxq";

pub(crate) const CORES: &str = "nb-cores";

pub(crate) const RULES: &str = "flow-max";

/// The command without its options. Its words begin behind the program's name, and it has no help and no version.
fn bare_command<'a>(alloc: Global) -> Command<'a>
    ensures { app_of result ≡ bare_command }
{
    Command::new(alloc, "flowpmd")
        .no_binary_name(true)
        .disable_help_flag(true)
        .disable_version_flag(true)
}

/// The command with one more option, whose value is a text.
fn with_option<'a>(
    command: Command<'a>,
    alloc: Global,
    name: &'a str,
) -> Result<Command<'a>, AllocError>
    ensures { IfOk result (λ c. app_of c ≡ with_rule (app_of command.entry) (option_named name.now)) }
{
    command.arg(Arg::new(alloc, name).long(name))
}

/// The command with all options.
pub(crate) fn shell_command<'a>(alloc: Global) -> Result<Command<'a>, AllocError>
    ensures { IfOk result (λ c. app_of c ≡ shell_command) }
{
    let command = bare_command(alloc);
    let command = with_option(command, alloc, SCRIPT)?;
    let command = with_option(command, alloc, CAPTURE)?;
    let command = with_option(command, alloc, TRANSMIT)?;
    let command = with_option(command, alloc, QUEUES)?;
    let command = with_option(command, alloc, CORES)?;
    with_option(command, alloc, RULES)
}
