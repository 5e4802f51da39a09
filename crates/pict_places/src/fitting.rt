// The nodes of a code, beside what they come from.

ghost use Rattle.std.specs.Prelude.{◌≡◌, ◌↔◌, ◌++◌, IsTrue, IfOk, OnOk, map};
ghost use Rattle.pict_core.specs.Plain.{plain_core};
ghost use Rattle.pict_places.specs.Nodes.{nodes_of, node_from, without_place, input_kind};

use crate::origin::{Node, NodeKind, Origin};
use pict_core::Core;
use std::alloc::{AllocError, Global};

/// Whether the nodes of a process' code come from these, one by one: as many, of the same kinds, with outputs at the same places.
/// The only error is want of memory.
pub fn fits(alloc: Global, process: &Core, origins: &[Origin]) -> Result<bool, AllocError>
    ensures { IfOk result (λ fit. IsTrue fit ↔ (map node_from origins.now ≡ nodes_of (plain_core process.now))) }
{
    let mut nodes = Vec::new(alloc);
    add_nodes(&mut nodes, process)?;
    let wanted = nodes_from(alloc, origins)?;
    Ok(wanted == nodes)
}

/// The nodes that come from these.
fn nodes_from(alloc: Global, origins: &[Origin]) -> Result<Vec<Node>, AllocError>
    ensures { IfOk result (λ nodes. nodes.items ≡ map node_from origins.now) }
{
    let mut nodes = Vec::new(alloc);
    for origin in origins {
        nodes.push(node_of(*origin))?;
    }
    Ok(nodes)
}

/// The node that comes from here.
fn node_of(origin: Origin) -> Node
    ensures { result ≡ node_from origin }
{
    let place = match origin.kind {
        NodeKind::Out => Some(origin.span),
        NodeKind::Zero
        | NodeKind::Par
        | NodeKind::New
        | NodeKind::In
        | NodeKind::Serve
        | NodeKind::If => None,
    };
    Node {
        kind: origin.kind,
        place,
    }
}

/// A node that has no place in the code.
fn node(kind: NodeKind) -> Node
    ensures { result ≡ without_place kind }
{
    Node { kind, place: None }
}

/// The kind of an input.
fn input(replicated: bool) -> NodeKind
    ensures { result ≡ input_kind replicated }
{
    if replicated {
        NodeKind::Serve
    } else {
        NodeKind::In
    }
}

/// Adds the nodes of a process.
fn add_nodes(nodes: &mut Vec<Node>, process: &Core) -> Result<(), AllocError>
    ensures { OnOk result (nodes.new.items ≡ nodes.old.items ++ nodes_of (plain_core process.now)) }
{
    match process {
        Core::Zero => nodes.push(node(NodeKind::Zero))?,
        Core::Par(left, right) => {
            nodes.push(node(NodeKind::Par))?;
            add_nodes(nodes, left.core())?;
            add_nodes(nodes, right.core())?;
        }
        Core::New(body) => {
            nodes.push(node(NodeKind::New))?;
            add_nodes(nodes, body.core())?;
        }
        Core::Out { at, .. } => nodes.push(Node {
            kind: NodeKind::Out,
            place: Some(*at),
        })?,
        Core::In {
            replicated,
            body,
            ..
        } => {
            nodes.push(node(input(*replicated)))?;
            add_nodes(nodes, body.core())?;
        }
        Core::If { yes, no, .. } => {
            nodes.push(node(NodeKind::If))?;
            add_nodes(nodes, yes.core())?;
            add_nodes(nodes, no.core())?;
        }
    }
    Ok(())
}
