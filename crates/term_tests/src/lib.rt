//! Terms, signatures and their evaluation, called as their callers call them.
#![tactic(auto)]

#[cfg(test)]
mod certificates;
#[cfg(test)]
mod check_rows;
#[cfg(test)]
mod checks;
#[cfg(test)]
mod evaluation;
#[cfg(test)]
mod evaluation_rows;
#[cfg(test)]
mod matcher;
#[cfg(test)]
mod pools;
#[cfg(test)]
mod pruning;
#[cfg(test)]
mod queries;
#[cfg(test)]
mod splitting;
#[cfg(test)]
mod texts;
#[cfg(test)]
mod versions;
