//! What was read of a job so far.
ghost use Rattle.std.specs.Prelude.{◌≡◌, ◌<◌, ◌≤◌, ◌&&◌, not, length, true, false, IfOk, OnOk};
ghost use Rattle.std.specs.List.{list_any};
ghost use Rattle.toml.specs.View.{table_view};
ghost use Rattle.ss_job.specs.Answers.{result_map};
ghost use Rattle.ss_job.specs.LegalNames.{is_vertex_name};
ghost use Rattle.ss_job.specs.Reading.{job_with, read_streams, sound_graph};
ghost use Rattle.ss_job.specs.Sound.{IsJob};
ghost use Rattle.ss_job.specs.Vertices.{empty_draft, name_of, input_of, writes_to, with_vertex};
ghost use Rattle.ss_job.specs.Wrong.{is_among};
ghost use Rattle.ss_water.specs.Graph.{is_read, is_sink, is_stream, reads};

use crate::document::needed_text;
use crate::entry::Entry;
use crate::fault::{JobFault, JobWhy};
use crate::field_name::FieldName;
use crate::job::Job;
use crate::legal_names::is_vertex_name;
use crate::limits::Limits;
use crate::name_index::NameIndex;
use crate::op::Op;
use crate::vertex::Vertex;
use ss_fail::{Name, Role};
use ss_water::{Graph, Kind, Node};
use std::alloc::{AllocError, Global};
use std::marker::Model;
use toml::Table;

/// The vertices that were read, at most 32, under their numbers.
#[derive(Drop)]
pub(crate) struct Draft {
    names: NameIndex,
    roles: Vec<Role>,
    nodes: Vec<Node>,
    vertices: Vec<Vertex>,
}

impl Model for Draft {
    ghost use Rattle.std.specs.Prelude.{length, ◌≤◌};
    ghost use Rattle.ss_job.specs.Vertices.{DraftText};

    ghost Value = { DraftText };

    ghost use Rattle.ss_expr.specs.contracts.stream_operator.Spec as spec;
    ghost use Rattle.std.specs.Coded.{codes};

    ghost coded = { Prim.hlevel (codes, spec.the_row.coded) };

    ghost use Rattle.ss_job.specs.OwnedDraft.{draft_text};

    ghost view = { draft_text };

    ghost invariant = { λ draft. length draft.nodes.items ≤ 32 };
}

impl Draft {
    ghost use Rattle.ss_job.specs.OwnedEntry.{entry_text};

    /// No vertices yet.
    pub(crate) fn new(alloc: Global) -> Draft
        ensures { result ≡ empty_draft }
    {
        Draft {
            names: NameIndex::new(alloc),
            roles: Vec::new(alloc),
            nodes: Vec::new(alloc),
            vertices: Vec::new(alloc),
        }
    }

    /// The name that a table gives to the next vertex.
    #[tactic(auto, unfolding(crate::specs::Vertices::name_of))]
    pub(crate) fn name_of<'a>(&self, table: &'a Table) -> Result<&'a str, JobWhy>
        ensures read { result_map (λ name. name.now) result ≡ name_of self.now.names (table_view table.now) }
        ensures name { IfOk result (λ name. is_vertex_name name.now ≡ true) }
        ensures new { IfOk result (λ name. is_among name.now self.now.names ≡ false) }
    {
        let name = needed_text(table, FieldName::Name)?;
        if !is_vertex_name(name) {
            return Err(JobWhy::BadName);
        }
        if self.names.has(name) {
            return Err(JobWhy::RepeatedName);
        }
        Ok(name)
    }

    /// The number of the vertex that an input names.
    #[tactic(auto, unfolding(crate::specs::Vertices::input_of))]
    pub(crate) fn input_of(&self, name: &str) -> Result<u32, JobWhy>
        ensures { result ≡ input_of self.now name.now }
    {
        let v = self.names.number_of(name).ok_or(JobWhy::LaterInput)?;
        match self.nodes.get(v) {
            Some(node) if node.kind != Kind::Sink => Ok(v as u32),
            _ => Err(JobWhy::SinkAsInput),
        }
    }

    /// Whether a sink writes to this file.
    pub(crate) fn is_written(&self, file: &str) -> bool
        ensures { result ≡ list_any (writes_to file.now) self.now.vertices }
    {
        self.vertices.iter().any(|vertex| vertex.writes_to(file))
    }

    /// Adds the vertex with this name and this op.
    pub(crate) fn add(
        &mut self,
        alloc: Global,
        name: &str,
        op: Op,
        entry: Entry,
    ) -> Result<(), AllocError>
        requires few { length self.old.nodes < 32 }
        requires name { is_vertex_name name.now ≡ true }
        requires new { is_among name.now self.old.names ≡ false }
        ensures { OnOk result (self.new ≡ with_vertex self.old name.now op (entry_text entry)) }
    {
        let kind = op.kind();
        let node = entry.inputs.node(kind);
        let role = Role {
            name: Name::of(name.as_bytes()),
            kind,
            replicas: entry.replicas,
        };
        self.names.add(alloc, name)?;
        self.roles.push(role)?;
        self.vertices.push(entry.vertex)?;
        self.nodes.push(node)?;
        Ok(())
    }

    /// Tests that there is a sink and that each other vertex is read.
    #[tactic(auto, unfolding(crate::specs::Reading::sound_graph))]
    pub(crate) fn check_graph(&self) -> Result<(), JobFault>
        ensures { result ≡ sound_graph self.now }
    {
        if !has_sink(&self.roles) {
            return Err(JobFault::of_document(JobWhy::NoSink));
        }
        read_streams(&self.nodes)
    }

    /// The job of these vertices.
    pub(crate) fn into_job(self, alloc: Global, limits: Limits) -> Result<Job, AllocError>
        requires { IsJob (job_with self limits) }
        ensures { IfOk result (λ job. job ≡ job_with self limits) }
    {
        let Draft {
            names: _,
            roles,
            nodes,
            vertices,
        } = self;
        let graph = Graph::new(alloc, &nodes)?;
        Ok(Job::new(graph, roles, vertices, limits))
    }
}

fn has_sink(roles: &[Role]) -> bool
    ensures { result ≡ list_any (λ role. is_sink role.kind) roles.now }
{
    roles.iter().any(|role| role.kind == Kind::Sink)
}

/// Tests that each vertex but the sinks is read.
fn read_streams(nodes: &[Node]) -> Result<(), JobFault>
    requires { length nodes.now ≤ 32 }
    ensures { result ≡ read_streams nodes.now 0 nodes.now }
{
    for v in 0..nodes.len() {
        if is_unread(nodes, v) {
            return Err(JobFault::of_vertex(v as u32, JobWhy::Unread));
        }
    }
    Ok(())
}

fn is_unread(nodes: &[Node], v: usize) -> bool
    requires within { v < length nodes.now }
    requires few { length nodes.now ≤ 32 }
    ensures { result ≡ (is_stream nodes.now v && not (is_read nodes.now v)) }
{
    nodes[v].kind != Kind::Sink && !is_read(nodes, v as u32)
}

fn is_read(nodes: &[Node], v: u32) -> bool
    ensures { result ≡ is_read nodes.now v }
{
    nodes.iter().any(|node| reads(node, v))
}

fn reads(node: &Node, v: u32) -> bool
    ensures { result ≡ reads node.now v }
{
    node.inputs
        .iter()
        .take(node.width as usize)
        .any(|u| *u == v)
}
