//! The gate of parts.
use board_core::Gate;

/// Holds nothing up.
pub struct OpenGate;

impl Gate for OpenGate {
    fn enter(&self, _: u32) {}

    fn leave(&self, _: u32) {}

    fn enter_part(&self, _: u32, _: u32) {}

    fn leave_part(&self, _: u32, _: u32) {}
}
