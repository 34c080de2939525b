use ss_plan::Plan;
use ss_tail::Tail;
use ss_vault::Vault;
use ss_vertex::Inst;
use std::sync::Arc;

/// A running job.
#[derive(Drop)]
pub struct Plant<O, D> {
    pub(crate) plan: Arc<Plan>,
    /// A tail for each vertex, in the order of their declaration; that of a sink stays empty.
    pub(crate) tails: Vec<Tail>,
    /// The replicas of each vertex; a sink has none.
    pub(crate) insts: Vec<Vec<Inst>>,
    pub(crate) vault: Vault<O, D>,
}
