//! That a slot may be shared by threads, and that a pass may go to another one.
use crate::kept::Kept;
use crate::slot::{Pass, Slot};

/// Any thread may step at the slot, and may be given a pass, where the value may go to another thread.
pub fn crosses_threads<V: Kept + Send>() {
    shared::<Slot<V>>();
    given::<Slot<V>>();
    given::<Pass<V>>();
}

fn shared<T: Sync>() {}

fn given<T: Send>() {}
