//! The program: the real shelf, sink and words, on a stack that is large enough; what it does is `call::answer_call`.
#![tactic(auto)]

ghost use Rattle.std.specs.Prelude.{◌≡◌, ◌<◌};
ghost use Rattle.std.specs.Process.{exit_status};

mod call;

use crate::call::answer_call;
use dk_check_run::{STACK, status};
use dk_io::{OsShelf, OsSink};
use std::env::Env;
use std::fs::Files;
use std::io::{ErrorKind, Print};
use std::process::ExitCode;
use std::sync::Wait;
use std::thread::{self, Builder, Threads};
use std::{env, io};
use worker_crew::has_room;

// The status comes from a thread with that stack. Where that has no room, memory has ended before the call.
fn main(rt: HostRuntime) -> ExitCode {
    if !has_room(rt.alloc(), STACK) {
        return exit_with(status::MEMORY);
    }
    let status = thread::scope(thread::scope_env(), &rt, |scope| {
        match Builder::new()
            .stack_size(STACK)
            .spawn_scoped(scope, || status_of_call(&rt))
        {
            Ok(handle) => handle.join(&rt),
            Err(_) => status::MEMORY,
        }
    });
    exit_with(status)
}

fn exit_with(status: u8) -> ExitCode
    ensures { exit_status result ≡ status }
{
    ExitCode::from(status)
}

// The words of this call, the program's name first.
fn words_of_call<R: Env + AllocGlobal>(rt: &R) -> Result<Vec<String>, ErrorKind> {
    match env::args(rt) {
        Ok(words) => match words.collect(rt.alloc()) {
            Ok(words) => Ok(words),
            Err(_) => Err(ErrorKind::OutOfMemory),
        },
        Err(error) => Err(error.kind()),
    }
}

// Answers this call, with the files of the system and standard output (docs/report.md); where there is no room for a shelf,
// memory has ended before the call.
fn status_of_call<R: Env + Files + Print + AllocGlobal + Threads + Wait + Sync>(rt: &R) -> u8
    ensures statuses { result < 7 }
{
    let words = words_of_call(rt);
    let Ok(mut shelf) = OsShelf::new(rt, rt.alloc()) else {
        return status::MEMORY;
    };
    let mut sink = OsSink::new(io::writer(rt));
    answer_call(rt, rt.alloc(), &words, &mut shelf, &mut sink)
}
