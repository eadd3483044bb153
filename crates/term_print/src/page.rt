//! What is written so far, and what is left to write.

use crate::task::Task;
use crate::text::Text;
use std::alloc::Global;

/// The text so far; the tasks that are left, the last one next; and for each product that is left, the last one next,
/// whether it is written with a name.
#[derive(Drop)]
pub(crate) struct Page {
    pub(crate) alloc: Global,
    pub(crate) text: Text,
    pub(crate) tasks: Vec<Task>,
    pub(crate) named: Vec<bool>,
}
