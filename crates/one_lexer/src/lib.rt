//! What stands at the front of some bytes, by the longest spelling. Begin at `stands_at` in
//! spelled.rt.
#![tactic(auto)]

mod blank;
mod bounds;
mod carried;
mod comment;
mod dotted;
mod found;
mod laws;
mod lexer;
mod name;
mod next;
mod quick;
mod quoted;
mod sign;
mod spelled;
mod token;
mod whole;
mod word;

pub use carried::Carried;
pub use found::{Found, Front};
pub use laws::{front_law, knows_law, settled_law};
pub use lexer::{Lexer, Taken};
pub use next::{Inside, Next, Spelt, Standing, read_inside, read_next};
pub use spelled::stands_at;
pub use whole::text_fault;
