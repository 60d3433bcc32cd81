//! The flow shell of testpmd over a software port, as a program over real files and standard output.
//!
//! The words behind the program's name are those of `testpmd_shell::session`, which `main` calls; what is proved of the
//! program is that call's contract. This crate only hands it the real shelf, standard output and the words, says the
//! status on standard error and ends with its code. A word that isn't text is a bad option, which no call above can be
//! told, since its words are texts.
#![tactic(auto)]

ghost use Rattle.std.specs.Prelude.{◌≡◌, ◌↔◌};
ghost use Rattle.std.specs.IoError.{error_kind};

use io_edges::{FileShelf, OpenGate, StdSink};
use std::alloc::{AllocError, Global};
use std::io::ErrorKind;
use std::process::ExitCode;
use std::{env, io};
use testpmd_shell::{Status, session};

fn main(rt: HostRuntime) -> ExitCode {
    let words = match words(&rt) {
        Ok(words) => words,
        Err(error) => return end(&rt, status_without_words(&error)),
    };
    let Ok(texts) = texts(rt.alloc(), &words) else {
        return end(&rt, Status::NoMemory);
    };
    let mut shelf = FileShelf::new(&rt);
    let mut out = StdSink::new(&rt);
    let status = session(&rt, rt.alloc(), &texts, &mut shelf, &mut out, &OpenGate);
    end(&rt, status)
}

/// Says the status on standard error, where it has a text, and gives the exit code.
fn end(rt: &impl Eprint, status: Status) -> ExitCode {
    if let Some(text) = status.text() {
        let _ = eprintln!(rt; "{text}");
    }
    ExitCode::from(status.code())
}

/// The status where the words can't be read: one of them isn't text, or there was no memory.
fn status_without_words(error: &io::Error) -> Status
    ensures usage { (result ≡ Status.Usage) ↔ (error_kind error.now ≡ ErrorKind.InvalidData) }
{
    match error.kind() {
        ErrorKind::InvalidData => Status::Usage,
        _ => Status::NoMemory,
    }
}

/// The words behind the program's name. The error of a word that isn't text has the kind `InvalidData`.
fn words(rt: &HostRuntime) -> io::Result<Vec<String>> {
    let mut words = Vec::new(rt.alloc());
    for word in env::args(rt)?.skip(1) {
        words.push(word)?;
    }
    Ok(words)
}

fn texts(alloc: Global, words: &[String]) -> Result<Vec<&str>, AllocError> {
    let mut texts = Vec::new(alloc);
    for word in words {
        texts.push(word.as_str())?;
    }
    Ok(texts)
}
