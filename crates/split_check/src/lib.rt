//! The check of a command whose body is split among threads, with the verdict and the units of one thread.
//!
//! The meanings are those of dk_model (docs/typing.md). Begin at `check_split`.
#![tactic(auto)]

mod command;
mod context;
mod crew;
mod forks;
mod judging;
mod laying;
mod sizes;
mod spare;
mod spine;
mod step;
mod typing;

pub use command::check_split;
pub use crew::Crew;
pub use forks::Forks;
pub use spare::Spare;
