ghost use Rattle.std.specs.Prelude.{◌≡◌, ◌<◌, length, slice_get, IfOk, Some};

use crate::Memory;
use crate::node::Node;
use std::alloc::Global;
use std::marker::Model;

/// The nodes of a job under their numbers, which count from 0 in the order of declaration.
///
/// Each node reads only nodes before it, so no stream leads back to itself, and each stream has a reader.
#[derive(Debug, Drop)]
pub struct Graph {
    nodes: Vec<Node>,
}

impl Model for Graph {
    ghost use Rattle.std.specs.Prelude.{List};
    ghost use Rattle.ss_water.specs.declared.node.Node.{Node};
    ghost use Rattle.ss_water.specs.Graph.{IsGraph};

    ghost Value = { List Node };

    ghost view = { λ g. g.nodes.items };

    ghost invariant = { λ g. IsGraph g.nodes.items };
}

impl Graph {
    ghost use Rattle.ss_water.specs.Graph.{IsGraph, IsLinkedAt};

    /// The graph of these nodes: at most 32, each with at most 8 inputs and a source with none, each input the
    /// number of an earlier node that is no sink, and each node that is no sink read by another.
    pub fn new(alloc: Global, nodes: &[Node]) -> Result<Graph, Memory>
        requires { IsGraph nodes.now }
        ensures { IfOk result (λ graph. graph ≡ nodes.now) }
    {
        let nodes = Vec::from_slice(alloc, nodes)?;
        Ok(Graph { nodes })
    }

    /// How many nodes there are, at most 32.
    pub fn count(&self) -> u32
        ensures count { result ≡ length self.now }
        ensures graph { IsGraph self.now }
    {
        self.nodes.len() as u32
    }

    /// The node of this number.
    pub fn node(&self, v: u32) -> Node
        requires { v < length self.now }
        ensures node { slice_get self.now v ≡ Some result }
        ensures linked { IsLinkedAt self.now v result }
        ensures graph { IsGraph self.now }
    {
        self.nodes[v as usize]
    }
}
