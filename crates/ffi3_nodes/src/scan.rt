//! The first fault of nodes.
ghost use Rattle.std.specs.Prelude.{◌≡◌, ◌<◌, IfOk, IfErr, OnOk, length, Some, None};
ghost use Rattle.ffi3_nodes.specs.Faults.{fault_at, first_node_fault, open_after};
ghost use Rattle.ffi3_nodes.specs.Read.{node_fault_of};

use crate::open::Open;
use crate::{ARRAY, DEEPEST, Node, STRUCT};

/// What is wrong with nodes.
#[derive(Clone, Copy, Debug, PartialEq, Eq)]
pub enum NodeFault {
    /// They end where a type is wanted.
    Ended,
    /// Behind so many nodes stands one whose kind has no such number.
    UnknownKind(usize),
    /// Behind so many nodes stands one of a kind that has no count, and its count is not 0.
    BadCount(usize),
    /// Behind so many nodes a struct or an array begins inside 16 of them.
    TooDeep(usize),
}

/// Goes on behind a node, or says what is wrong with it; so many others stand before it.
fn step(inside: &mut Open, at: usize, node: Node) -> Result<(), NodeFault>
    ensures ok { OnOk result (fault_at (length inside.old) at node ≡ None) }
    ensures after { OnOk result (inside.new ≡ open_after inside.old node) }
    ensures err { IfErr result (λ f. fault_at (length inside.old) at node ≡ Some (node_fault_of f)) }
{
    if node.kind > ARRAY {
        return Err(NodeFault::UnknownKind(at));
    }
    if node.kind < STRUCT && node.count != 0 {
        return Err(NodeFault::BadCount(at));
    }
    if node.kind >= STRUCT && inside.depth() >= DEEPEST as usize {
        return Err(NodeFault::TooDeep(at));
    }
    inside.begin();
    if node.kind == STRUCT {
        inside.open(node.count);
    } else if node.kind == ARRAY {
        inside.open(1);
    }
    inside.close();
    Ok(())
}

/// Whether nodes are those of a signature, or else why not.
pub fn scan(nodes: &[Node]) -> Result<(), NodeFault>
    ensures ok { IfOk result (λ u. first_node_fault nodes.now ≡ None) }
    ensures err { IfErr result (λ f. first_node_fault nodes.now ≡ Some (node_fault_of f)) }
{
    if nodes.is_empty() {
        return Err(NodeFault::Ended);
    }
    let mut inside = Open::new();
    for i in 0..nodes.len() {
        if let Err(fault) = step(&mut inside, i, nodes[i]) {
            return Err(fault);
        }
    }
    if inside.depth() > 0 {
        return Err(NodeFault::Ended);
    }
    Ok(())
}
