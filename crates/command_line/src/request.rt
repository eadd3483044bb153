//! The request that the words make.
ghost use Rattle.std.specs.Prelude.{◌≡◌, ◌↔◌, IfOk, IfSome, IsSome, map, option_and_then, option_map};
ghost use Rattle.std.specs.String.{string_bytes};
ghost use Rattle.clap.specs.Words.{found_of, rows_of, subcommand_rows_of};
ghost use Rattle.command_line.specs.Requests.{budget_in, certify_in, check_in, count_in, make_in, prune_in, quiet_in, recheck_in, replay_in, request_in, request_of, split_in, workers_in};
ghost use Rattle.command_line.specs.Views.{IsBudget, IsInBounds, IsSplitSize, IsTaken, IsTheoremCount, IsWorkerCount, plain_certify, plain_check, plain_make, plain_prune, plain_recheck, plain_replay, plain_request};

use crate::command::{LARGEST_BUDGET, LARGEST_SPLIT, MOST_THEOREMS, MOST_WORKERS, found_in};
use clap::ArgMatches;
use clap::error::ErrorKind;
use dk_model::NoMemory;
use std::alloc::Global;

/// What the words ask.
#[derive(Clone, Copy, Debug)]
pub enum Request<'a> {
    Check(CheckRequest<'a>),
    Make(MakeRequest),
    Certify(CertifyRequest<'a>),
    Recheck(RecheckRequest<'a>),
    Prune(PruneRequest<'a>),
    Replay(ReplayRequest<'a>),
}

/// Check a file.
#[derive(Clone, Copy, Debug)]
pub struct CheckRequest<'a> {
    /// The name of the file, as the words give it.
    pub file: &'a str,
    /// How many workers check commands.
    pub workers: u32,
    /// From how many nodes on an application is split among threads; `None` where none is.
    pub split: Option<u32>,
    /// The units that the check of each command may take.
    pub budget: u64,
    /// Whether to leave out the `ok` lines.
    pub quiet: bool,
}

/// Make a theory and check it.
#[derive(Clone, Copy, Debug)]
pub struct MakeRequest {
    /// How many theorems it has.
    pub count: u32,
    /// How many workers check commands.
    pub workers: u32,
    /// The units that the check of each command may take.
    pub budget: u64,
}

/// Write the certificate of a file.
#[derive(Clone, Copy, Debug)]
pub struct CertifyRequest<'a> {
    /// The name of the file, as the words give it.
    pub file: &'a str,
    /// The units that the check of each command may take.
    pub budget: u64,
}

/// Check a file by its certificate.
#[derive(Clone, Copy, Debug)]
pub struct RecheckRequest<'a> {
    /// The name of the file, as the words give it.
    pub file: &'a str,
    /// The name of the certificate, as the words give it.
    pub certificate: &'a str,
}

/// Write the commands of a file on which a name rests.
#[derive(Clone, Copy, Debug)]
pub struct PruneRequest<'a> {
    /// The name, as the file spells it.
    pub name: &'a str,
    /// The name of the file, as the words give it.
    pub file: &'a str,
    /// The units that the check of each command may take.
    pub budget: u64,
}

/// Take the edits of a session, and write its reports.
#[derive(Clone, Copy, Debug)]
pub struct ReplayRequest<'a> {
    /// The name of the script, as the words give it.
    pub script: &'a str,
    /// The units that the check of each command may take.
    pub budget: u64,
}

/// What the words ask, the first of which is the program's name; `None` where they ask nothing
/// that the program does, also where they ask for help or the version. `NoMemory` says nothing of
/// the words.
pub fn read_request<'a>(alloc: Global, words: &'a [String]) -> Result<Option<Request<'a>>, NoMemory>
    ensures ok { IfOk result (λ r.
        option_map plain_request r ≡ request_of (map string_bytes words.entry.now)) }
    ensures taken { IfOk result (λ r.
        IsSome r ↔ IsTaken (map string_bytes words.entry.now)) }
    ensures bounds { IfOk result (λ r. IfSome r (λ q. IsInBounds (plain_request q))) }
{
    match found_in(alloc, words) {
        Ok(matches) => Ok(asked(&matches)),
        Err(error) => match error.kind() {
            ErrorKind::OutOfMemory => Err(NoMemory),
            _ => Ok(None),
        },
    }
}

fn asked<'a>(matches: &ArgMatches<'a>) -> Option<Request<'a>>
    ensures value { option_map plain_request result
        ≡ option_and_then request_in (subcommand_rows_of matches.now) }
    ensures bounds { IfSome result (λ q. IsInBounds (plain_request q)) }
{
    match matches.subcommand() {
        Some((name, found)) => request_in(name, found),
        None => None,
    }
}

// What the subcommand of this name asks.
fn request_in<'a>(name: &str, found: &ArgMatches<'a>) -> Option<Request<'a>>
    ensures value { option_map plain_request result
        ≡ request_in (name.now, rows_of (found_of found.now)) }
    ensures bounds { IfSome result (λ q. IsInBounds (plain_request q)) }
{
    if name == "make" {
        match make_in(found) {
            Some(request) => Some(Request::Make(request)),
            None => None,
        }
    } else if name == "check" {
        match check_in(found) {
            Some(request) => Some(Request::Check(request)),
            None => None,
        }
    } else if name == "certify" {
        match certify_in(found) {
            Some(request) => Some(Request::Certify(request)),
            None => None,
        }
    } else if name == "recheck" {
        match recheck_in(found) {
            Some(request) => Some(Request::Recheck(request)),
            None => None,
        }
    } else if name == "prune" {
        match prune_in(found) {
            Some(request) => Some(Request::Prune(request)),
            None => None,
        }
    } else if name == "replay" {
        match replay_in(found) {
            Some(request) => Some(Request::Replay(request)),
            None => None,
        }
    } else {
        None
    }
}

fn check_in<'a>(check: &ArgMatches<'a>) -> Option<CheckRequest<'a>>
    ensures value { option_map plain_check result ≡ check_in (rows_of (found_of check.now)) }
    ensures workers { IfSome result (λ q. IsWorkerCount q.workers) }
    ensures split { IfSome result (λ q. IfSome q.split IsSplitSize) }
    ensures budget { IfSome result (λ q. IsBudget q.budget) }
{
    let file = check.get_str("file")?;
    let workers = workers_in(check)?;
    let split = split_in(check);
    let budget = budget_in(check)?;
    let quiet = quiet_in(check);
    Some(CheckRequest {
        file,
        workers,
        split,
        budget,
        quiet,
    })
}

fn make_in(make: &ArgMatches<'_>) -> Option<MakeRequest>
    ensures value { option_map plain_make result ≡ make_in (rows_of (found_of make.now)) }
    ensures count { IfSome result (λ q. IsTheoremCount q.count) }
    ensures workers { IfSome result (λ q. IsWorkerCount q.workers) }
    ensures budget { IfSome result (λ q. IsBudget q.budget) }
{
    let count = count_in(make)?;
    let workers = workers_in(make)?;
    let budget = budget_in(make)?;
    Some(MakeRequest {
        count,
        workers,
        budget,
    })
}

fn certify_in<'a>(certify: &ArgMatches<'a>) -> Option<CertifyRequest<'a>>
    ensures value { option_map plain_certify result ≡ certify_in (rows_of (found_of certify.now)) }
    ensures budget { IfSome result (λ q. IsBudget q.budget) }
{
    let file = certify.get_str("file")?;
    let budget = budget_in(certify)?;
    Some(CertifyRequest { file, budget })
}

fn recheck_in<'a>(recheck: &ArgMatches<'a>) -> Option<RecheckRequest<'a>>
    ensures { option_map plain_recheck result ≡ recheck_in (rows_of (found_of recheck.now)) }
{
    let file = recheck.get_str("file")?;
    let certificate = recheck.get_str("certificate")?;
    Some(RecheckRequest { file, certificate })
}

fn prune_in<'a>(prune: &ArgMatches<'a>) -> Option<PruneRequest<'a>>
    ensures value { option_map plain_prune result ≡ prune_in (rows_of (found_of prune.now)) }
    ensures budget { IfSome result (λ q. IsBudget q.budget) }
{
    let name = prune.get_str("name")?;
    let file = prune.get_str("file")?;
    let budget = budget_in(prune)?;
    Some(PruneRequest { name, file, budget })
}

fn replay_in<'a>(replay: &ArgMatches<'a>) -> Option<ReplayRequest<'a>>
    ensures value { option_map plain_replay result ≡ replay_in (rows_of (found_of replay.now)) }
    ensures budget { IfSome result (λ q. IsBudget q.budget) }
{
    let script = replay.get_str("script")?;
    let budget = budget_in(replay)?;
    Some(ReplayRequest { script, budget })
}

fn count_in(make: &ArgMatches<'_>) -> Option<u32>
    ensures value { result ≡ count_in (rows_of (found_of make.now)) }
    ensures bounds { IfSome result IsTheoremCount }
{
    let count = make.get_one::<u64>("count")?;
    if 1 <= count && count <= MOST_THEOREMS {
        Some(count as u32)
    } else {
        None
    }
}

fn workers_in(found: &ArgMatches<'_>) -> Option<u32>
    ensures value { result ≡ workers_in (rows_of (found_of found.now)) }
    ensures bounds { IfSome result IsWorkerCount }
{
    let workers = found.get_one::<u64>("workers")?;
    if 1 <= workers && workers <= MOST_WORKERS {
        Some(workers as u32)
    } else {
        None
    }
}

fn split_in(check: &ArgMatches<'_>) -> Option<u32>
    ensures value { result ≡ split_in (rows_of (found_of check.now)) }
    ensures bounds { IfSome result IsSplitSize }
{
    let nodes = check.get_one::<u64>("split")?;
    if 1 <= nodes && nodes <= LARGEST_SPLIT {
        Some(nodes as u32)
    } else {
        None
    }
}

fn budget_in(found: &ArgMatches<'_>) -> Option<u64>
    ensures value { result ≡ budget_in (rows_of (found_of found.now)) }
    ensures bounds { IfSome result IsBudget }
{
    let budget = found.get_one::<u64>("budget")?;
    if 1 <= budget && budget <= LARGEST_BUDGET {
        Some(budget)
    } else {
        None
    }
}

fn quiet_in(check: &ArgMatches<'_>) -> bool
    ensures { result ≡ quiet_in (rows_of (found_of check.now)) }
{
    check.get_one::<bool>("quiet").unwrap_or(false)
}
