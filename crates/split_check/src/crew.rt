//! Who splits a check, and how.
use crate::spare::Spare;
use signature_log::Version;

/// What the check of one command is split with.
#[derive(Drop)]
pub struct Crew<'a, W, G> {
    /// The commands before it.
    pub version: &'a Version,
    /// What starts threads.
    pub rt: &'a W,
    pub gate: &'a G,
    pub spare: &'a Spare,
    /// An application is split where two of its arguments have so many nodes.
    pub nodes: u32,
    /// The number of the command, for the gate.
    pub number: u32,
    /// The bytes of a thread's stack.
    pub stack: usize,
}
