//! Reads books and puts their commands as jobs, while workers check them.
use crate::halt::end_at;
use crate::job::Job;
use crate::lectern::Lectern;
use dk_io::Shelf;
use std::alloc::Global;
use std::sync::Wait;
use task_board::{Board, SealedPass};
use verdict_book::Titles;
use worker_crew::Reading;

/// The reading of a file that is open, and of what it needs.
#[derive(Drop)]
pub struct BookReading<'a, 'b, R: Wait, H> {
    pub rt: &'b R,
    pub alloc: Global,
    pub shelf: &'a mut H,
    pub board: &'b Board<Job>,
    pub lectern: Lectern,
}

/// What reading gives, with the shelf that it was lent.
pub struct BookRead<'a, H> {
    pub shelf: &'a mut H,
    pub sealed: SealedPass<Job>,
    pub titles: Titles,
}

impl<'a, 'b, R: Wait, H: Shelf> Reading for BookReading<'a, 'b, R, H> {
    ghost use Rattle.std.specs.Prelude.{◌≡◌, IfSome, length};
    ghost use Rattle.board_core.specs.Events.{end_of};
    ghost use Rattle.task_board.specs.Histories.{events_in};
    ghost use Rattle.book_reader.specs.Shelves.{shelf_of};
    ghost use Rattle.file_check.specs.Lecterns.{EndLeaves, IsBegun, ReadsBooks};

    type Given = BookRead<'a, H>;

    ghost can_read = { λ t. IsBegun t.lectern (shelf_of H.Shelf t.shelf.now)
        × (t.lectern.desk.pass.seat.table_id ≡ t.board.now) };

    ghost gives = { λ t r. (r.shelf.ghost_name ≡ t.shelf.ghost_name)
        × (r.sealed.seat.table_id ≡ t.board.now)
        × (r.sealed.seat.me.0.made ≡ t.lectern.desk.pass.seat.me.0.made)
        × ReadsBooks t.lectern.walker.root t.lectern.desk.budget
        (shelf_of H.Shelf t.shelf.now) (shelf_of H.Shelf r.shelf.now)
        r.sealed.seat.me.0.known (end_of (events_in r.sealed.seat.me.0.mine)) r.titles
        × IfSome (end_of (events_in r.sealed.seat.me.0.mine))
        (EndLeaves (length (H.aside t.shelf.now)) (shelf_of H.Shelf r.shelf.now)) };

    fn read(self) -> BookRead<'a, H> {
        let BookReading {
            rt,
            alloc,
            shelf,
            board,
            mut lectern,
        } = self;
        let halt = lectern.read(rt, alloc, shelf, board);
        let Lectern { walker, desk } = lectern;
        let end = end_at(alloc, walker.into_module(), halt);
        let (sealed, titles) = desk.seal(rt, board, end);
        BookRead {
            shelf,
            sealed,
            titles,
        }
    }
}
