//! The command line of the program, and what it prints if it cannot run.
use crate::remarks::say;
use crate::words::{Arguments, parse, read_words};
use clap::Error;
use clap::error::ErrorKind;
use council_game::sanitize;
use std::alloc::{AllocError, Global};
use std::env::{Env, FillError};
use std::io;
use std::process::ExitCode;

/// Reports on standard error that memory ran out, and returns the status 5.
fn out_of_memory(rt: &impl Eprint) -> ExitCode {
    say(rt, "out of memory");
    ExitCode::from(5)
}

/// Reports why the words of the command line cannot be read, and returns the status.
fn no_words(rt: &impl Eprint, error: io::Error) -> ExitCode {
    if error.kind() == io::ErrorKind::OutOfMemory {
        return out_of_memory(rt);
    }
    say(rt, "the command line is not UTF-8");
    ExitCode::from(2)
}

/// The words of the command line, of which the first is empty, and no variables.
///
/// The path that started the program may be no UTF-8, and is no argument.
#[derive(Drop)]
struct Unnamed<'a, R>(&'a R);

impl<'a, R: Env> Env for Unnamed<'a, R> {
    fn arg(&self, i: usize, buf: &mut [u8]) -> Result<usize, FillError> {
        if i == 0 { Ok(0) } else { self.0.arg(i, buf) }
    }

    fn var(&self, _name: &str, _buf: &mut [u8]) -> Result<usize, FillError> {
        Err(FillError::NotPresent)
    }

    fn var_at(&self, _i: usize, _buf: &mut [u8]) -> Result<usize, FillError> {
        Err(FillError::NotPresent)
    }
}

/// Collects the words of the command line, the first of them empty.
///
/// # Errors
///
/// The status to end with, if they are not UTF-8 or memory ran out. A fault is printed first.
pub fn collect_words(rt: &(impl AllocGlobal + Env + Eprint)) -> Result<Vec<String>, ExitCode> {
    match std::env::args(&(Unnamed(rt), rt.alloc())) {
        Ok(words) => match words.collect(rt.alloc()) {
            Ok(words) => Ok(words),
            Err(_) => Err(out_of_memory(rt)),
        },
        Err(error) => Err(no_words(rt, error)),
    }
}

/// Prints the text of the parser: a fault, or that of `--help` or `--version`.
fn refuse(rt: &(impl Print + Eprint), error: &Error) -> ExitCode {
    if error.kind() == ErrorKind::OutOfMemory {
        return out_of_memory(rt);
    }
    let printed = error.print(rt).is_ok();
    if error.use_stderr() {
        ExitCode::from(2)
    } else if printed {
        ExitCode::SUCCESS
    } else {
        say(rt, "output failed");
        ExitCode::from(5)
    }
}

/// Makes the words safe to show in a line.
fn sanitize_words(alloc: Global, words: &[String]) -> Result<Vec<String>, AllocError> {
    let mut sanitized = Vec::new(alloc);
    for word in words {
        sanitized.push(format!(in alloc; "{}", sanitize(word.as_str(), usize::MAX))?)?;
    }
    Ok(sanitized)
}

/// Prints the text of the parser on words that it refuses, with safe words.
fn refuse_words(rt: &(impl AllocGlobal + Print + Eprint), words: &[String]) -> ExitCode {
    let Ok(words) = sanitize_words(rt.alloc(), words) else {
        return out_of_memory(rt);
    };
    match parse(rt.alloc(), words.as_slice()) {
        Err(error) => refuse(rt, &error),
        Ok(_) => {
            say(rt, "a word of the command line is not plain");
            ExitCode::from(2)
        }
    }
}

/// Returns what helps with an option that the program does not have, if people look for it here.
fn tip_for(word: &str) -> Option<&'static str> {
    match word {
        "--banzhaf" | "--penrose" | "--shapley" | "--shapley-shubik" => {
            Some(
                "--swings adds the Banzhaf index, Penrose's measure, the Shapley-Shubik index and Coleman's powers",
            )
        }
        "--csv" | "--json" | "--latex" | "--markdown" => {
            Some("council-tools export makes csv, json, latex or markdown of a report")
        }
        _ => None,
    }
}

/// Prints what helps with an unknown option among the words, and returns whether it is known.
fn refuse_option(rt: &impl Eprint, words: &[String]) -> bool {
    for word in words {
        let word = word.as_str();
        if let Some(tip) = tip_for(word) {
            let _ = eprintln!(rt;
                "error: unexpected argument '{word}' found\n\n  tip: {tip}\n\nUsage: council [OPTIONS] [FILE]\n\nFor more information, try '--help'."
            );
            return true;
        }
    }
    false
}

/// Parses the words of the command line, of which the first is no argument.
///
/// # Errors
///
/// The status to end with, if the parser refuses them, or answers `--help` or `--version`. The
/// fault or the answer is printed first.
pub fn parse_arguments<'a>(
    rt: &(impl AllocGlobal + Print + Eprint),
    words: &'a [String],
) -> Result<Arguments<'a>, ExitCode> {
    match read_words(rt.alloc(), words) {
        Ok(arguments) => Ok(arguments),
        Err(ErrorKind::OutOfMemory) => Err(out_of_memory(rt)),
        Err(ErrorKind::UnknownArgument) if refuse_option(rt, words) => Err(ExitCode::from(2)),
        Err(_) => Err(refuse_words(rt, words)),
    }
}
