//! Examples of types that hold lists of their own values: a struct, and an enum.
ghost use Rattle.std.specs.Prelude.{◌≡◌, ◌+◌, ◌-◌, ◌^◌, [], ◌∷◌, ◌++◌, IfErr, IsOk, OnErr, OnOk, min};
ghost use Rattle.thin_vec.specs.ThinVec.{HasRoomFor, IsNew};
ghost use Rattle.thin_examples.specs.Tree.{children_of, kind_of, node_count, number_count, painted};

use std::alloc::Global;
use thin_vec::{Rejected, ThinVec, ThinVecError};

/// A node of a syntax tree: its kind, and its children in order.
#[derive(Drop)]
pub struct Node {
    pub kind: u32,
    pub children: ThinVec<Node, Global>,
}

#[tactic(auto, using(crate::proofs::TreeLemmas::node_count_is))]
impl Node {
    /// Makes a node without children. This requests no memory.
    pub fn leaf(alloc: Global, kind: u32) -> Node
        ensures kind { kind_of result ≡ kind }
        ensures children { IsNew (children_of result) alloc }
        ensures count { node_count result ≡ 1 }
    {
        Node {
            kind,
            children: ThinVec::new(alloc),
        }
    }

    /// Appends `child` to the children of this node.
    ///
    /// # Errors
    ///
    /// Fails if there is no room for one more child. On failure, this node is unchanged, and the
    /// error contains `child`.
    pub fn add_child(&mut self, child: Node) -> Result<(), Rejected<Node>>
        ensures succeeds { HasRoomFor (children_of self.old) 1 → IsOk result }
        ensures kind { kind_of self.new ≡ kind_of self.old }
        ensures children { OnOk result ((children_of self.new).items ≡ (children_of self.old).items
            ++ child ∷ []) }
        ensures count { OnOk result (node_count self.new ≡ node_count self.old + node_count child) }
        ensures err { OnErr result (self.new ≡ self.old) }
        ensures value_returned { IfErr result (λ refused. refused.value ≡ child) }
    {
        self.children.push(child)
    }

    /// Returns the number of nodes in the tree whose root is this node. If there are more than
    /// `u64::MAX` nodes, returns `u64::MAX`.
    pub fn count(&self) -> u64
        ensures value { result ≡ min (node_count self.now) (2 ^ 64 - 1) }
    {
        let mut count = 1u64;
        for child in &self.children {
            count = count.saturating_add(child.count());
        }
        count
    }

    /// Sets the kind of each node of the tree to `kind`.
    pub fn paint(&mut self, kind: u32)
        ensures tree { self.new ≡ painted kind self.old }
    {
        self.kind = kind;
        let children = self.children.as_mut_slice();
        for i in 0..children.len() {
            children[i].paint(kind);
        }
    }

    /// Drops the tree whose root is this node, and no two levels of it at once. The drop of a node
    /// drops its children first, so that of a deep tree can run out of stack.
    ///
    /// # Errors
    ///
    /// Fails if there is no memory for the list of the nodes that are still to be dropped. On
    /// failure, these are dropped as usual.
    pub fn take_apart(self, alloc: Global) -> Result<(), ThinVecError> {
        let mut waiting = ThinVec::new(alloc);
        waiting.push(self)?;
        while let Some(node) = waiting.pop() {
            let mut children = node.children;
            waiting.append(&mut children)?;
        }
        Ok(())
    }
}

/// A value of a document: a number, or an array of values.
#[derive(Drop)]
pub enum Value {
    Number(u32),
    Array(ThinVec<Value>),
}

impl Value {
    /// Returns how many numbers the value has. If there are more than `u64::MAX`, returns
    /// `u64::MAX`.
    pub fn count(&self) -> u64
        ensures value { result ≡ min (number_count self.now) (2 ^ 64 - 1) }
    {
        let values = match self {
            Value::Number(_) => return 1,
            Value::Array(values) => values,
        };
        let mut count = 0u64;
        for value in values {
            count = count.saturating_add(value.count());
        }
        count
    }
}
