//! Takes the edits of a script, line by line as it is read, and writes the reports that it asks for (docs/sessions.md).
//!
//! Begin at specs/Replays.antt, which says what the lines of a script come to and what they write, then at `replay_script`.
#![tactic(auto)]

mod judging;
mod line;
mod piece;
mod script;

pub use line::put_line;
pub use script::{Ending, replay_script};
// A crate can name these in a clause only if they are exported.
#[doc(hidden)]
pub use judging::Referee;
#[doc(hidden)]
pub use line::Stop;
#[doc(hidden)]
pub use piece::Replay;
