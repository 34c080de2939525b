//! The inputs of a vertex.
ghost use Rattle.std.specs.Prelude.{◌≡◌, ◌<◌, ◌≤◌, [], ◌∷◌, ◌++◌, length};
ghost use Rattle.ss_job.specs.Vertices.{padded};

use ss_water::{Kind, Node};
use std::marker::Model;

/// The numbers of the vertices that a vertex reads, at most 8, in the order of its inputs.
#[derive(Drop)]
pub(crate) struct Inputs {
    numbers: [u32; 8],
    width: u32,
}

impl Model for Inputs {
    ghost use Rattle.std.specs.Prelude.{List, ℕ, take};
    ghost use Rattle.ss_job.specs.Indexed.{AreInputs};

    ghost Value = { List ℕ };

    ghost view = { λ inputs. take inputs.width inputs.numbers };

    ghost invariant = { λ inputs. AreInputs inputs.numbers inputs.width };
}

impl Inputs {
    /// No inputs yet.
    pub(crate) fn new() -> Inputs
        ensures { result ≡ [] }
    {
        Inputs {
            numbers: [0; 8],
            width: 0,
        }
    }

    /// Adds an input.
    pub(crate) fn push(&mut self, number: u32)
        requires { length self.old < 8 }
        ensures { self.new ≡ self.old ++ number ∷ [] }
    {
        self.numbers[self.width as usize] = number;
        self.width += 1;
    }

    /// The node of this kind with these inputs.
    pub(crate) fn node(&self, kind: Kind) -> Node
        ensures { result ≡ record { kind = kind; inputs = padded self.now; width = length self.now } }
    {
        Node {
            kind,
            inputs: self.numbers,
            width: self.width,
        }
    }
}
