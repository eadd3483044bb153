//! What the program answers over shelves and sinks in memory: failing calls, small limits, workers.
#![tactic(auto)]

#[cfg(test)]
mod certifying;
#[cfg(test)]
mod failures;
#[cfg(test)]
mod fronts;
#[cfg(test)]
mod limits;
#[cfg(test)]
mod modules;
#[cfg(test)]
mod pruning;
#[cfg(test)]
mod rechecking;
#[cfg(test)]
mod replaying;
#[cfg(test)]
mod rows;
#[cfg(test)]
mod workers;
