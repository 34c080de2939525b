ghost use Rattle.std.specs.Prelude.{◌≡◌, [], false};

use ss_fail::{Act, Outcome};
use std::alloc::Global;
use std::marker::Model;

/// Acts that were made, each with what came of it, in their order; or nothing of them, where nobody will ask.
#[derive(Drop)]
pub struct Trace {
    pub(crate) keeps: bool,
    pub(crate) pairs: Vec<(Act, Outcome)>,
}

impl Model for Trace {
    ghost use Rattle.ss_engine.specs.Plays.{TraceTold, made_of};

    ghost Value = { TraceTold };

    ghost view = { λ trace. record { keeps = trace.keeps; made = made_of trace.pairs.items } };
}

impl Trace {
    ghost use Rattle.ss_engine.specs.Plays.{made_of, no_acts};

    /// The trace of no act, which keeps those to come. It takes no memory.
    pub fn new(alloc: Global) -> Trace
        ensures { result ≡ no_acts }
    {
        Trace {
            keeps: true,
            pairs: Vec::new(alloc),
        }
    }

    /// A trace that keeps nothing of the acts to come. It never takes memory.
    pub fn without_acts(alloc: Global) -> Trace
        ensures { result ≡ record { keeps = false; made = [] } }
    {
        Trace {
            keeps: false,
            pairs: Vec::new(alloc),
        }
    }

    /// The pairs of act and outcome that it keeps.
    pub fn pairs(&self) -> &[(Act, Outcome)]
        ensures { made_of result.now ≡ self.now.made }
    {
        self.pairs.as_slice()
    }
}
