//! A job.
ghost use Rattle.std.specs.Prelude.{◌≡◌, ◌<◌, Some, length, map, option_map, IsSome};

use crate::limits::Limits;
use crate::op::Op;
use crate::policy::Policy;
use crate::vertex::Vertex;
use ss_events::Late;
use ss_expr::Spec;
use ss_fail::Role;
use ss_water::Graph;
use std::marker::Model;

/// A job. Its vertices are numbered from 0 in the order of the file.
#[derive(Drop)]
pub struct Job {
    graph: Graph,
    roles: Vec<Role>,
    vertices: Vec<Vertex>,
    max_elements: u64,
    collect_every: u64,
}

impl Model for Job {
    ghost use Rattle.ss_job.specs.JobText.{JobText};

    ghost Value = { JobText };

    ghost use Rattle.ss_expr.specs.contracts.stream_operator.Spec as spec;
    ghost use Rattle.std.specs.Coded.{codes};

    ghost coded = { Prim.hlevel (codes, spec.the_row.coded) };

    ghost use Rattle.ss_job.specs.Owned.{job_text};
    ghost use Rattle.ss_job.specs.Sound.{IsJob};

    ghost view = { job_text };

    ghost invariant = { λ job. IsJob (job_text job) };
}

impl Job {
    ghost use Rattle.ss_job.specs.JobText.{HasPartsOf, op_of, file_of, late_of, spec_of, policy_of};
    ghost use Rattle.ss_job.specs.Owned.{vertex_text};
    ghost use Rattle.ss_job.specs.Reading.{job_of_parts};
    ghost use Rattle.ss_job.specs.Sound.{IsJob};

    /// The job with these parts.
    pub(crate) fn new(graph: Graph, roles: Vec<Role>, vertices: Vec<Vertex>, limits: Limits) -> Job
        requires { IsJob (job_of_parts graph roles.items (map vertex_text vertices.items) limits) }
        ensures { result ≡ job_of_parts graph roles.items (map vertex_text vertices.items) limits }
    {
        Job {
            graph,
            roles,
            vertices,
            max_elements: limits.max_elements,
            collect_every: limits.collect_every,
        }
    }

    /// Which vertex reads which. This is the one reader that says what every job keeps: that its lists are of one
    /// length, that its vertices are such as the format allows, that their names differ, and so on. Who needs that
    /// calls it, and it costs nothing.
    pub fn graph(&self) -> &Graph
        ensures graph { result.now ≡ self.now.graph }
        ensures sound { IsJob self.now }
    {
        &self.graph
    }

    /// The vertices' names, kinds and replicas, in the order of their numbers.
    pub fn roles(&self) -> &[Role]
        ensures { result.now ≡ self.now.roles }
    {
        self.roles.as_slice()
    }

    /// What a vertex does.
    pub fn op(&self, v: u32) -> Op
        requires { v < length self.now.vertices }
        ensures op { op_of self.now v ≡ Some result }
        ensures has { HasPartsOf result self.now v }
    {
        match &self.vertices[v as usize] {
            Vertex::Source { .. } => Op::Source,
            Vertex::Inner { spec, .. } => match spec {
                Spec::Select { .. } => Op::Select,
                Spec::Union => Op::Union,
                Spec::Window { .. } => Op::Window,
                Spec::Join => Op::Join,
                Spec::Session { .. } => Op::Session,
                Spec::Except => Op::Except,
            },
            Vertex::Sink { .. } => Op::Sink,
        }
    }

    /// What a vertex computes; `None` of a source and of a sink.
    pub fn spec(&self, v: u32) -> Option<&Spec>
        requires { v < length self.now.vertices }
        ensures { option_map (λ spec. spec.now) result ≡ spec_of self.now v }
    {
        match &self.vertices[v as usize] {
            Vertex::Source { .. } | Vertex::Sink { .. } => None,
            Vertex::Inner { spec, .. } => Some(spec),
        }
    }

    /// How an operator, a vertex that is neither source nor sink, is kept safe.
    pub fn policy(&self, v: u32) -> Policy
        requires { IsSome (policy_of self.now v) }
        ensures { policy_of self.now v ≡ Some result }
    {
        match &self.vertices[v as usize] {
            Vertex::Source { .. } | Vertex::Sink { .. } => unreachable!(),
            Vertex::Inner { policy, .. } => *policy,
        }
    }

    /// The file of a source or a sink, 1 to 200 bytes of ASCII. A sink's is `-` where it writes to standard
    /// output.
    pub fn file(&self, v: u32) -> &str
        requires { IsSome (file_of self.now v) }
        ensures { file_of self.now v ≡ Some result.now }
    {
        match &self.vertices[v as usize] {
            Vertex::Source { file, .. } | Vertex::Sink { file } => file.as_str(),
            Vertex::Inner { .. } => unreachable!(),
        }
    }

    /// What becomes of a row of a source's file that comes late.
    pub fn late(&self, v: u32) -> Late
        requires { IsSome (late_of self.now v) }
        ensures { late_of self.now v ≡ Some result }
    {
        match &self.vertices[v as usize] {
            Vertex::Source { late, .. } => *late,
            Vertex::Inner { .. } | Vertex::Sink { .. } => unreachable!(),
        }
    }

    /// The most elements that a stream may have, 1 to 131,072.
    pub fn max_elements(&self) -> u64
        ensures { result ≡ self.now.max_elements }
    {
        self.max_elements
    }

    /// How many elements may be stored between two passes of collection, 64 to 131,072.
    pub fn collect_every(&self) -> u64
        ensures { result ≡ self.now.collect_every }
    {
        self.collect_every
    }
}
