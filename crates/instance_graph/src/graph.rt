//! The graph of instances. Source: own.

use avr_model::listed::Listed;
use node_keys::{EdgeKind, InstKey};

/// A node with a closed stack pointer.
#[derive(Clone, Copy)]
pub struct ClosedNode {
    /// The number of the node.
    pub node: u32,
    /// The offset below the instance's base in bytes, at most 32,768.
    pub offset: u16,
}

/// How an instance lies below another one.
#[derive(Clone, Copy)]
pub enum GraphWay {
    /// A node enters it, by a call or an interrupt.
    Enters(EdgeKind),
    /// The root has it at the depth of its `recur` line.
    Recur,
}

/// An edge into another instance.
#[derive(Clone, Copy)]
pub struct Entered {
    /// The number of the node; of a recur edge, the number of all nodes.
    pub node: u32,
    /// How many bytes are below the instance's base there, at most 32,768.
    pub offset: u16,
    /// How it leads there.
    pub way: GraphWay,
    /// The number of the entered instance.
    pub into: u32,
}

/// One instance: the root, a call or an interrupt entry.
#[derive(Drop)]
pub struct GraphInst {
    /// The key.
    pub key: InstKey,
    /// The nodes with a closed stack pointer.
    pub offsets: Listed<ClosedNode>,
    /// The edges into instances.
    pub entered: Listed<Entered>,
}

/// The instances of a firmware. The root is instance 0.
#[derive(Drop)]
pub struct Graph {
    /// The instances, numbered by index.
    pub instances: Listed<GraphInst>,
}

/// One link of a chain of entries.
#[derive(Clone, Copy)]
pub struct Link {
    /// The number of the instance.
    pub inst: u32,
    /// The number of the node; at a recur edge, the number of all nodes.
    pub node: u32,
    /// How many bytes are below the root's base there.
    pub depth: u16,
    /// The way to the next instance; `None` at the end.
    pub way: Option<GraphWay>,
}
