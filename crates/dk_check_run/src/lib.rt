//! All that the program does: reads the words, has the file checked and writes the report. Begin at `run`.
#![tactic(auto)]

mod answering;
mod certifying;
mod gate;
mod held;
mod pruning;
mod rechecking;
mod replaying;
mod top;

pub use answering::run_with;
pub use file_check::STACK;
pub use file_report::{fault_of_theory, fold_of_books, report_of_theory};
pub use gate::NoGate;
pub use top::run;
pub use verdict_book::status;
