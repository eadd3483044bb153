//! The report of a theory, and the law that ties the board to it: whatever the workers do, the report of a finished history is
//! that of the commands taken one by one, in the order in which the books are read. Begin at `report_of_theory`.
#![tactic(auto)]

mod histories;
mod theories;

pub use histories::{fault_of_theory, memory_theory_checks, report_of_theory};
pub use theories::fold_of_books;
