//! Books, tokens, written and scoped commands, boards and reports, called as their callers call them.
#![tactic(auto)]

#[cfg(test)]
mod board;
#[cfg(test)]
mod books;
#[cfg(test)]
mod crews;
#[cfg(test)]
mod made;
#[cfg(test)]
mod order;
#[cfg(test)]
mod passes;
#[cfg(test)]
mod reading;
#[cfg(test)]
mod reports;
#[cfg(test)]
mod theories;
#[cfg(test)]
mod token_rows;
#[cfg(test)]
mod tokens;
#[cfg(test)]
mod told;
