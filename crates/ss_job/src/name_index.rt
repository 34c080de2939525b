//! The names of vertices under their numbers.
ghost use Rattle.std.specs.Prelude.{◌≡◌, List, [], ◌∷◌, ◌++◌, false, OnOk, bytes_eq};
ghost use Rattle.std.specs.List.{position};
ghost use Rattle.ss_job.specs.Wrong.{is_among};

use indexmap::IndexSet;
use std::alloc::{AllocError, Global};
use std::marker::Model;

/// The names of the vertices that were read, each under its vertex's number.
#[derive(Drop)]
pub(crate) struct NameIndex {
    names: IndexSet<String>,
}

impl Model for NameIndex {
    ghost use Rattle.std.specs.Prelude.{List, ℕ};
    ghost use Rattle.ss_job.specs.Indexed.{names_of};

    ghost Value = { List (List ℕ) };

    ghost view = { λ index. names_of index.names };
}

impl NameIndex {
    /// No names yet.
    pub(crate) fn new(alloc: Global) -> NameIndex
        ensures { result ≡ [] }
    {
        NameIndex {
            names: IndexSet::new(alloc),
        }
    }

    /// The number of the vertex with this name.
    pub(crate) fn number_of(&self, name: &str) -> Option<usize>
        ensures { result ≡ position (λ other. bytes_eq name.now other) self.now }
    {
        self.names.get_index_of(name)
    }

    /// Whether a vertex has this name.
    pub(crate) fn has(&self, name: &str) -> bool
        ensures { result ≡ is_among name.now self.now }
    {
        self.names.contains(name)
    }

    /// Gives the next number to a new name.
    pub(crate) fn add(&mut self, alloc: Global, name: &str) -> Result<(), AllocError>
        requires { is_among name.now self.old ≡ false }
        ensures { OnOk result (self.new ≡ self.old ++ name.now ∷ []) }
    {
        let name = String::from_str(alloc, name)?;
        self.names.insert_full(name)?;
        Ok(())
    }
}
