//! A program of the tests: it checks a file on plain trees, one command after the other in file order, and writes the
//! report of docs/report.md. Begin at `answer_call`.
#![tactic(auto)]

ghost use Rattle.std.specs.Prelude.{◌≡◌};
ghost use Rattle.std.specs.Process.{exit_status};

mod call;
mod name;
mod trial;
mod tried;

use crate::call::answer_call;
use dk_io::{OsShelf, OsSink};
use std::env::Env;
use std::fs::Files;
use std::io::{ErrorKind, Print};
use std::process::ExitCode;
use std::sync::Wait;
use std::thread::{self, Builder, Threads};
use std::{env, io};
use verdict_book::status;

// As large as the stacks of dk_check: copying, comparing and dropping a term nest as deep as the term.
const STACK: usize = 1 << 28;

fn main(rt: HostRuntime) -> ExitCode {
    let status = thread::scope(thread::scope_env(), &rt, |scope| {
        match Builder::new()
            .stack_size(STACK)
            .spawn_scoped(scope, || status_of_call(&rt))
        {
            Ok(handle) => handle.join(&rt),
            Err(_) => status::MEMORY,
        }
    });
    exit_with(status)
}

fn exit_with(status: u8) -> ExitCode
    ensures { exit_status result ≡ status }
{
    ExitCode::from(status)
}

// The words of this call, the program's name first.
fn words_of_call<R: Env + AllocGlobal>(rt: &R) -> Result<Vec<String>, ErrorKind> {
    match env::args(rt) {
        Ok(words) => match words.collect(rt.alloc()) {
            Ok(words) => Ok(words),
            Err(_) => Err(ErrorKind::OutOfMemory),
        },
        Err(error) => Err(error.kind()),
    }
}

// Answers this call, with the files of the system and standard output.
fn status_of_call<R: Env + Files + Print + AllocGlobal>(rt: &R) -> u8 {
    let words = words_of_call(rt);
    let Ok(mut shelf) = OsShelf::new(rt, rt.alloc()) else {
        return status::MEMORY;
    };
    let mut sink = OsSink::new(io::writer(rt));
    answer_call(rt.alloc(), &words, &mut shelf, &mut sink)
}
