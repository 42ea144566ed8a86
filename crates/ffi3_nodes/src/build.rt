//! The types that nodes without a fault are, from the last node on: a struct takes as many as it counts of those that
//! stand behind it.
ghost use Rattle.std.specs.Prelude.{◌≡◌, ◌<◌, ◌≤◌, ◌^◌, IfOk, OnOk, IfSome, List, Some, None, [], ◌∷◌, drop, take, length, slice_get};
ghost use Rattle.ffi3_type_spec.specs.Tree.{struct_of};
ghost use Rattle.ffi3_types.specs.TreeOf.{tree_of};
ghost use Rattle.ffi3_nodes.specs.Nodes.{AreWritten, leaves};
ghost use Rattle.ffi3_nodes.specs.Faults.{first_node_fault};
ghost use Rattle.ffi3_nodes.specs.Read.{Fits};
ghost use Rattle.ffi3_nodes.specs.declared.Node.{Node};

use crate::scalars::scalar;
use crate::{ARRAY, Node, STRUCT};
use ffi3_types::{FfiType, Fields, NoMemory};
use std::alloc::Global;
use std::marker::Model;

/// The types behind a node, the first one first.
#[derive(Debug, Drop)]
pub struct Behind {
    types: Vec<FfiType>,
}

impl Model for Behind {
    ghost use Rattle.std.specs.Prelude.{List, map, reverse};
    ghost use Rattle.ffi3_type_spec.specs.Tree.{Tree, tree_list_code};
    ghost use Rattle.ffi3_types.specs.TreeOf.{tree_of};

    ghost Value = { List Tree };

    ghost coded = { tree_list_code };

    ghost view = { λ b. reverse (map tree_of b.types.items) };
}

impl Behind {
    /// Behind the last node there are none. There is room for so many.
    fn with_capacity(alloc: Global, capacity: usize) -> Result<Behind, NoMemory>
        ensures { IfOk result (λ b. b ≡ []) }
    {
        Ok(Behind {
            types: Vec::with_capacity(alloc, capacity)?,
        })
    }

    /// One stands before them.
    fn put(&mut self, ty: FfiType) -> Result<(), NoMemory>
        ensures ok { OnOk result (self.new ≡ tree_of ty ∷ self.old) }
    {
        self.types.push(ty)?;
        Ok(())
    }

    /// How many they are.
    pub fn len(&self) -> usize
        ensures { result ≡ length self.now }
    {
        self.types.len()
    }

    /// The first of them.
    pub fn take_first(&mut self) -> Option<FfiType>
        ensures some { IfSome result (λ t. self.old ≡ tree_of t ∷ self.new) }
        ensures none { result ≡ None → self.old ≡ [] }
    {
        self.types.pop()
    }

    /// So many of them, from the first on.
    fn take(&mut self, alloc: Global, count: u32) -> Result<Fields, NoMemory>
        requires { count ≤ length self.old }
        ensures taken { IfOk result (λ ts. ts ≡ take count self.old) }
        ensures rest { OnOk result (self.new ≡ drop count self.old) }
    {
        let mut types = Fields::with_capacity(alloc, count as usize)?;
        for _i in 0..count {
            if let Some(ty) = self.types.pop() {
                types.push(ty)?;
            }
        }
        Ok(types)
    }

    /// All of them.
    pub fn take_all(mut self, alloc: Global) -> Result<Fields, NoMemory>
        requires { length self < 2 ^ 32 }
        ensures { IfOk result (λ ts. ts ≡ self) }
    {
        let count = self.types.len() as u32;
        self.take(alloc, count)
    }
}

/// A struct of two.
fn pair(alloc: Global, first: FfiType, second: FfiType) -> Result<FfiType, NoMemory>
    ensures { IfOk result (λ t. tree_of t ≡ struct_of (tree_of first ∷ tree_of second ∷ [])) }
{
    let mut parts = Fields::with_capacity(alloc, 2)?;
    parts.push(first)?;
    parts.push(second)?;
    Ok(FfiType::Struct(parts))
}

/// The type that is one node of this kind.
fn leaf(alloc: Global, kind: u32) -> Result<FfiType, NoMemory>
    requires { kind < STRUCT }
    ensures { IfOk result (λ t. slice_get leaves kind ≡ Some (tree_of t)) }
{
    if let Some(ty) = scalar(kind) {
        return Ok(ty);
    }
    Ok(match kind {
        13 => FfiType::Void,
        14 => pair(alloc, FfiType::Float, FfiType::Float)?,
        15 => pair(alloc, FfiType::Double, FfiType::Double)?,
        16 => FfiType::LongDouble,
        17 => FfiType::Complex,
        _ => FfiType::Vector,
    })
}

/// The type that begins with a node, where these stand behind it.
fn first_type(alloc: Global, node: Node, behind: &mut Behind) -> Result<FfiType, NoMemory>
    requires fits { Fits node behind.old }
    ensures { IfOk result (λ t. (ns : List Node) → AreWritten behind.old ns → AreWritten (tree_of t ∷ behind.new) (node ∷ ns)) }
{
    if node.kind == STRUCT {
        return Ok(FfiType::Struct(behind.take(alloc, node.count)?));
    }
    if node.kind == ARRAY {
        return Ok(FfiType::Array(behind.take(alloc, 1)?, node.count));
    }
    leaf(alloc, node.kind)
}

/// The types that the nodes are.
pub fn build(alloc: Global, nodes: &[Node]) -> Result<Behind, NoMemory>
    requires faultless { first_node_fault nodes.now ≡ None }
    requires few { length nodes.now < 2 ^ 32 }
    ensures { IfOk result (λ ts. AreWritten ts nodes.now) }
{
    let mut behind = Behind::with_capacity(alloc, nodes.len())?;
    for i in 0..nodes.len() {
        let ty = first_type(alloc, nodes[nodes.len() - 1 - i], &mut behind)?;
        behind.put(ty)?;
    }
    Ok(behind)
}
