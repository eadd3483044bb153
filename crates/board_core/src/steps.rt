//! The parts of the calls of a book, over its fields.
ghost use Rattle.std.specs.Prelude.{◌≡◌, ◌<◌, ◌++◌};
ghost use Rattle.std.specs.VecDeque.{deque_len, deque_capacity};
ghost use Rattle.std.specs.Arc.{arc_value};
ghost use Rattle.board_core.specs.Kept.{waiters_in};
ghost use Rattle.board_core.specs.Parts.{fault_with, idle_reply, newcomers, TakesBelow, reaches};

use crate::book::Waiting;
use crate::task::{Claimed, Task};
use dk_model::Verdict;
use std::collections::VecDeque;
use std::sync::Arc;

/// The first fault after one more answer.
pub fn fault_after(
    fault: Option<(u32, Verdict)>,
    number: u32,
    verdict: Verdict,
) -> Option<(u32, Verdict)>
    ensures { result ≡ fault_with fault number verdict }
{
    if let Verdict::Accepted = verdict {
        return fault;
    }
    match fault {
        Some((least, _)) if least <= number => fault,
        _ => Some((number, verdict)),
    }
}

/// Whether the number doesn't lie below the first fault.
fn is_stopped(fault: Option<(u32, Verdict)>, number: u32) -> bool
    ensures { result ≡ reaches fault number }
{
    match fault {
        Some((least, _)) => least <= number,
        None => false,
    }
}

/// The first of the waiting jobs, if it lies below the first fault. It looks at no other.
pub fn take_below<J>(
    waiting: &mut VecDeque<Waiting<J>>,
    fault: Option<(u32, Verdict)>,
) -> Option<Task<J>>
    ensures taken { TakesBelow waiting.old.items fault result waiting.new.items }
    ensures capacity { deque_capacity waiting.new ≡ deque_capacity waiting.old }
{
    let least = waiting.front()?.number;
    if is_stopped(fault, least) {
        return None;
    }
    let Waiting { number, job } = waiting.pop_front()?;
    Some(Task { number, job })
}

/// What a worker is told where nothing can be claimed.
pub fn idle<J>(is_sealed: bool, fault: Option<(u32, Verdict)>) -> Claimed<J>
    ensures { result ≡ idle_reply is_sealed fault }
{
    match (is_sealed, fault) {
        (false, None) => Claimed::Empty,
        _ => Claimed::Over,
    }
}

/// Lets a job wait; a settled one comes back.
pub fn let_wait<J>(
    waiting: &mut VecDeque<Waiting<J>>,
    number: u32,
    job: Arc<J>,
    settled: bool,
) -> Option<Arc<J>>
    requires { deque_len waiting.old < deque_capacity waiting.old }
    ensures items { waiters_in waiting.new.items ≡
        waiters_in waiting.old.items ++ newcomers number (arc_value job) settled }
    ensures capacity { deque_capacity waiting.new ≡ deque_capacity waiting.old }
{
    if settled {
        return Some(job);
    }
    waiting.push_back_reserved(Waiting { number, job });
    None
}
