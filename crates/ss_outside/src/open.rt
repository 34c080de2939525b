//! A gate for running jobs.

use crate::gate::{Gate, Place};

/// A gate that does nothing.
#[derive(Clone, Copy, Debug, Drop)]
pub struct Open;

impl Gate for Open {
    fn at(&self, _worker: u32, _place: Place) {}
}
