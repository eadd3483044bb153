//! The rights of the reader and of the workers to step at a board. They have no bytes but the reader's
//! count of jobs and pace and a worker's number; what they show stands in `seat.me.0` (`View` of ticket_slot).
ghost use Rattle.std.specs.Prelude.{◌≡◌, true, false, length};
ghost use Rattle.std.specs.List.{list_any};
ghost use Rattle.board_core.specs.Events.{is_seal};
ghost use Rattle.ticket_slot.specs.Views.{IsFree, IsReader};
ghost use Rattle.task_board.specs.Histories.{events_in};
ghost use Rattle.task_board.specs.Passes.{IsIdle};

use crate::judged::Judged;
use crate::pace::Pace;
use board_core::Checkable;
use ticket_slot::Pass;

/// The reader's right to put jobs and to seal the board.
#[derive(Drop)]
pub struct ReaderPass<J: Checkable> {
    pub seat: Pass<Judged<J>>,
    /// How many jobs it has put.
    pub count: u32,
    pub pace: Pace,
    ghost counted: { count ≡ length seat.me.0.known },
    ghost reader: { IsReader seat.me.0 },
    ghost free: { IsFree seat.me },
    ghost none_joined: { length seat.me.0.ended ≡ 0 },
    ghost unsealed: { list_any is_seal (events_in seat.me.0.mine) ≡ false },
    ghost idle: { IsIdle seat.me.0 },
}

/// What is left of the reader's right once the board is sealed: to close it.
#[derive(Drop)]
pub struct SealedPass<J: Checkable> {
    pub seat: Pass<Judged<J>>,
    ghost reader: { IsReader seat.me.0 },
    ghost free: { IsFree seat.me },
    ghost none_joined: { length seat.me.0.ended ≡ 0 },
    ghost sealed: { list_any is_seal (events_in seat.me.0.mine) ≡ true },
    ghost idle: { IsIdle seat.me.0 },
}

/// A worker's right to claim jobs and to answer them. Its events have its number, from 1.
#[derive(Drop)]
pub struct WorkerPass<J: Checkable> {
    pub seat: Pass<Judged<J>>,
    pub number: u32,
    ghost numbered: { number ≡ seat.me.0.number },
    ghost free: { IsFree seat.me },
}
