ghost use Rattle.std.specs.Prelude.{◌≡◌, IfOk, option_map, Some};

use crate::expr::Expr;
use std::alloc::{AllocError, Global};

/// What a vertex computes.
#[derive(Drop)]
pub enum Spec {
    /// Each row for which `test` holds, where there is one, with the values of `a`, `b`, `c` and `d`.
    Select {
        test: Option<Expr>,
        a: Expr,
        b: Expr,
        c: Expr,
        d: Expr,
    },
    /// The rows of all inputs.
    Union,
    /// Every `hop`, an aggregate of the rows of the last `size`, of each key.
    Window {
        size: u64,
        hop: u64,
        agg: Agg,
        of: Field,
    },
    /// The pairs of rows of two inputs with one key and overlapping spans.
    Join,
    /// An aggregate of each session: the rows of a key of which each starts less than `gap` after the one before.
    Session {
        gap: u64,
        agg: Agg,
        of: Field,
    },
    /// The rows of the first of two inputs that no row of the second with their key overlaps.
    Except,
}

impl Spec {
    /// The same spec once more, in memory of its own.
    pub fn copied(&self, alloc: Global) -> Result<Spec, AllocError>
        ensures { IfOk result (λ spec. spec ≡ self.now) }
    {
        match self {
            Spec::Select { test, a, b, c, d } => {
                let test = copied_test(alloc, test)?;
                let a = a.copied(alloc)?;
                let b = b.copied(alloc)?;
                let c = c.copied(alloc)?;
                let d = d.copied(alloc)?;
                Ok(Spec::Select { test, a, b, c, d })
            }
            Spec::Union => Ok(Spec::Union),
            Spec::Window { size, hop, agg, of } => Ok(Spec::Window {
                size: *size,
                hop: *hop,
                agg: *agg,
                of: *of,
            }),
            Spec::Join => Ok(Spec::Join),
            Spec::Session { gap, agg, of } => Ok(Spec::Session {
                gap: *gap,
                agg: *agg,
                of: *of,
            }),
            Spec::Except => Ok(Spec::Except),
        }
    }
}

fn copied_test(alloc: Global, test: &Option<Expr>) -> Result<Option<Expr>, AllocError>
    ensures { IfOk result (λ copy. copy ≡ test.now) }
{
    match test {
        Some(test) => {
            let test = test.copied(alloc)?;
            Ok(Some(test))
        }
        None => Ok(None),
    }
}

/// What a window or a session makes of the values of its rows.
#[derive(Clone, Copy, Debug, PartialEq, Eq)]
pub enum Agg {
    /// Their exact sum, and then the nearest number of 64 bits.
    Sum,
    /// The least of them.
    Least,
    /// The greatest of them.
    Greatest,
}

/// The values of an event.
#[derive(Clone, Copy, Debug, PartialEq, Eq)]
pub enum Field {
    /// The first.
    A,
    /// The second.
    B,
    /// The third.
    C,
    /// The fourth.
    D,
}
