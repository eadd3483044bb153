//! The memory that a put needs, made before the book is in hand.
//!
//! A book has places for a power of two of jobs, their claims and their answers. So whoever knows how
//! many jobs it has knows whether it is full, and brings lists with twice the places.
ghost use Rattle.std.specs.Prelude.{◌≡◌, ◌+◌, ◌*◌, ◌^◌, ◌<◌, ◌≤◌, ◌↔◌, [], IsTrue, IfOk, OnOk, OnErr, vec_len, vec_capacity};
ghost use Rattle.std.specs.VecDeque.{deque_len, deque_capacity};
ghost use Rattle.std.specs.Arc.{arc_value};
ghost use Rattle.board_core.specs.Kept.{IsWide, IsPowerOfTwo};
ghost use Rattle.board_core.specs.Rooms.{HasPlaces, IsEmpty, IsRoomBehind};

use crate::book::{Posted, Waiting};
use crate::history::Step;
use dk_model::{NoMemory, Verdict};
use std::alloc::Global;
use std::collections::VecDeque;
use std::mem;
use std::sync::Arc;

/// The lists of a book.
#[derive(Drop)]
pub struct Lists<J> {
    pub jobs: Vec<Posted<J>>,
    pub waiting: VecDeque<Waiting<J>>,
    pub verdicts: Vec<Option<Verdict>>,
    pub history: Vec<Step>,
}

impl<J: Drop> Lists<J> {
    /// Empty lists with places for so many jobs, their claims and answers, and for the seal.
    pub fn with_places(alloc: Global, places: usize) -> Result<Lists<J>, NoMemory>
        requires { places < 2 ^ 60 }
        ensures empty { IfOk result IsEmpty }
        ensures places { IfOk result (HasPlaces places) }
    {
        let jobs = Vec::with_capacity(alloc, places)?;
        let waiting = VecDeque::with_capacity(alloc, places)?;
        let verdicts = Vec::with_capacity(alloc, places)?;
        let history = Vec::with_capacity(alloc, 3 * places + 1)?;
        Ok(Lists {
            jobs,
            waiting,
            verdicts,
            history,
        })
    }
}

/// The room for one more job.
#[derive(Drop)]
pub enum Room<J> {
    /// The book has a place.
    Enough,
    /// It is full: lists with twice the places.
    Wider(Lists<J>),
    /// It is full, and there was no memory for longer lists.
    Refused,
}

impl<J: Drop> Room<J> {
    /// The room for a job behind so many others.
    pub fn behind(alloc: Global, count: u32) -> Room<J>
        ensures { IsRoomBehind count result }
    {
        if !is_power_of_two(count) {
            return Room::Enough;
        }
        match Lists::with_places(alloc, 2 * count as usize) {
            Ok(lists) => Room::Wider(lists),
            Err(NoMemory) => Room::Refused,
        }
    }

    /// The lists, if there are any.
    pub fn into_lists(self) -> Option<Lists<J>> {
        match self {
            Room::Wider(lists) => Some(lists),
            Room::Enough | Room::Refused => None,
        }
    }
}

/// A job to be put behind so many others, with the room for it.
#[derive(Drop)]
pub struct Offer<J> {
    pub job: Arc<J>,
    pub settled: bool,
    /// How many jobs the book has.
    pub behind: u32,
    pub room: Room<J>,
}

impl<J: Drop> Offer<J> {
    /// Makes the room, if there is memory for it. The put then takes none.
    pub fn new(alloc: Global, job: Arc<J>, settled: bool, behind: u32) -> Offer<J>
        ensures job { arc_value result.job ≡ arc_value job }
        ensures settled { result.settled ≡ settled }
        ensures behind { result.behind ≡ behind }
        ensures room { IsRoomBehind behind result.room }
    {
        let room = Room::behind(alloc, behind);
        Offer {
            job,
            settled,
            behind,
            room,
        }
    }
}

/// What is over when a job was put or refused. It is let go once the book is out of hand.
#[derive(Drop)]
pub struct Leftover<J> {
    /// The lists that are too short now, or those that weren't needed.
    pub lists: Option<Lists<J>>,
    /// A settled job, which nobody claims.
    pub job: Option<Arc<J>>,
}

/// Whether the number is a power of two.
fn is_power_of_two(number: u32) -> bool
    ensures { IsTrue result ↔ IsPowerOfTwo number }
{
    if number == 0 {
        return false;
    }
    let mut rest = number;
    while rest % 2 == 0 {
        rest /= 2;
    }
    rest == 1
}

/// Makes place for one more job, its claim and its answer, and gives back the lists that it took the
/// place of. Takes no memory.
pub fn make_place<J: Drop>(
    jobs: &mut Vec<Posted<J>>,
    waiting: &mut VecDeque<Waiting<J>>,
    verdicts: &mut Vec<Option<Verdict>>,
    history: &mut Vec<Step>,
    room: Room<J>,
) -> Result<Option<Lists<J>>, NoMemory>
    requires room { IsRoomBehind (vec_len jobs.old) room }
    requires wide { IsWide (vec_len jobs.old) (vec_capacity jobs.old)
        (deque_capacity waiting.old) (vec_capacity verdicts.old) (vec_capacity history.old) }
    requires waiting { deque_len waiting.old ≤ vec_len jobs.old }
    requires verdicts { vec_len verdicts.old ≡ vec_len jobs.old }
    requires history { vec_len history.old ≤ 3 * vec_len jobs.old + 1 }

    // The lists stay, whatever the result.
    ensures jobs { jobs.new.items ≡ jobs.old.items }
    ensures waiting { waiting.new.items ≡ waiting.old.items }
    ensures verdicts { verdicts.new.items ≡ verdicts.old.items }
    ensures history { history.new.items ≡ history.old.items }
    ensures err { OnErr result ((jobs.new ≡ jobs.old) × (waiting.new ≡ waiting.old)
        × (verdicts.new ≡ verdicts.old) × (history.new ≡ history.old)) }

    // On success each has room.
    ensures ok { OnOk result (IsWide (vec_len jobs.new + 1) (vec_capacity jobs.new)
        (deque_capacity waiting.new) (vec_capacity verdicts.new) (vec_capacity history.new)) }
{
    match room {
        Room::Enough => Ok(None),
        Room::Wider(wider) => {
            let Lists {
                jobs: longer_jobs,
                waiting: longer_waiting,
                verdicts: longer_verdicts,
                history: longer_history,
            } = wider;
            Ok(Some(Lists {
                jobs: lengthen(jobs, longer_jobs),
                waiting: lengthen_queue(waiting, longer_waiting),
                verdicts: lengthen(verdicts, longer_verdicts),
                history: lengthen(history, longer_history),
            }))
        }
        Room::Refused => Err(NoMemory),
    }
}

/// Moves the elements into a longer list, and gives back the old one, empty.
fn lengthen<T>(list: &mut Vec<T>, mut longer: Vec<T>) -> Vec<T>
    requires empty { longer.items ≡ [] }
    requires room { vec_len list.old ≤ vec_capacity longer }
    ensures items { list.new.items ≡ list.old.items }
    ensures capacity { vec_capacity longer ≤ vec_capacity list.new }
{
    let Ok(()) = longer.append(list) else {
        unreachable!()
    };
    mem::replace(list, longer)
}

/// Moves the elements into a longer queue, and gives back the old one, empty.
fn lengthen_queue<T>(queue: &mut VecDeque<T>, mut longer: VecDeque<T>) -> VecDeque<T>
    requires empty { longer.items ≡ [] }
    requires room { deque_len queue.old ≤ deque_capacity longer }
    ensures items { queue.new.items ≡ queue.old.items }
    ensures capacity { deque_capacity longer ≤ deque_capacity queue.new }
{
    let Ok(()) = longer.append(queue) else {
        unreachable!()
    };
    mem::replace(queue, longer)
}
