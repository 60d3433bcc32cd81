//! The program's words: a command takes them apart, and what it found makes the options.
ghost use Rattle.std.specs.Prelude.{◌≡◌, ◌≤◌, Some, map, option_copied, IfOk, IfSome};
ghost use Rattle.std.specs.Option.{option_map};
ghost use Rattle.clap.specs.Words.{first_of, found_of, rows_of};
ghost use Rattle.testpmd_shell.specs.Options.{given_in, options_of, given_of};
ghost use Rattle.flow_rules.specs.Limits.{AreLimits};
ghost use Rattle.testpmd_shell.specs.Found.{limits_of};

use crate::command::{CAPTURE, CORES, QUEUES, RULES, SCRIPT, TRANSMIT, shell_command};
use crate::numbers::{cores, queues, rules};
use crate::options::Options;
use clap::ArgMatches;
use clap::error::ErrorKind;
use std::alloc::{AllocError, Global};

/// What the words give under a name.
fn text_of<'a>(matches: &ArgMatches<'a>, name: &str) -> Option<&'a str>
    ensures { option_copied result ≡ first_of name.now (rows_of (found_of matches.now)) }
{
    matches.get_str(name)
}

/// The options that stand in what the command found, if the script is named and the numbers are in their ranges.
fn options_in<'a>(matches: &ArgMatches<'a>) -> Option<Options<'a>>
    ensures options { option_map given_of result ≡ given_in (rows_of (found_of matches.now)) }
    ensures limits { IfSome result (λ options. AreLimits (limits_of (given_of options))) }
    ensures cores { IfSome result (λ options. options.cores ≤ 16) }
{
    let script = text_of(matches, SCRIPT)?;
    let rxq = queues(text_of(matches, QUEUES))?;
    let cores = cores(text_of(matches, CORES))?;
    let flow_max = rules(text_of(matches, RULES))?;
    Some(Options {
        script,
        capture: text_of(matches, CAPTURE),
        transmit: text_of(matches, TRANSMIT),
        rxq,
        cores,
        flow_max,
    })
}

/// The options that the words give, if they give any.
pub(crate) fn options<'a>(
    alloc: Global,
    words: &'a [&'a str],
) -> Result<Option<Options<'a>>, AllocError>
    ensures options { IfOk result (λ options. option_map given_of options ≡ options_of (map (λ w. w.now) words.now)) }
    ensures limits { IfOk result (λ options. IfSome options (λ o. AreLimits (limits_of (given_of o)))) }
    ensures cores { IfOk result (λ options. IfSome options (λ o. o.cores ≤ 16)) }
{
    let command = shell_command(alloc)?;
    match command.try_get_matches_from(words) {
        Ok(matches) => Ok(options_in(&matches)),
        Err(error) => {
            if error.kind() == ErrorKind::OutOfMemory {
                return Err(AllocError);
            }
            Ok(None)
        }
    }
}

/// The options that the words give, if they give any and ask for workers.
pub(crate) fn options_with_workers<'a>(alloc: Global, words: &'a [&'a str]) -> Option<Options<'a>>
    ensures options { IfSome result (λ o. options_of (map (λ w. w.now) words.now) ≡ Some (given_of o)) }
    ensures limits { IfSome result (λ o. AreLimits (limits_of (given_of o))) }
    ensures workers { IfSome result (λ o. (1 ≤ o.cores) × (o.cores ≤ 16)) }
{
    let Ok(options) = options(alloc, words) else {
        return None;
    };
    let Some(options) = options else {
        return None;
    };
    if options.cores == 0 {
        return None;
    }
    Some(options)
}
