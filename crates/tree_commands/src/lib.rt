//! The check of a command over any evaluation, on plain boxed trees: the definition as code.
//!
//! The meanings are those of dk_model (specs/CommandTypingOver.antt, docs/typing.md). Begin at `check_command`.
#![tactic(auto)]

mod command;
mod declaration;
mod rules;
mod shapes;

pub use command::check_command;
pub use declaration::{check_body, check_declaration, check_declared, infer_body};
pub use rules::check_rules;
pub use shapes::shapes_of;
