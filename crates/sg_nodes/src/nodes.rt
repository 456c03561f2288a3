ghost use Rattle.std.specs.Prelude.{◌≡◌, ◌≢◌, ℕ, ◌+◌, ◌-◌, ◌<◌, [], Some, None, IfSome, OnOk, OnErr, max, slice_get};
ghost use Rattle.std.specs.Option.{option_copied, option_map};
ghost use Rattle.sg_nodes.specs.declared.node.NodeKind.{NodeKind};
ghost use Rattle.sg_nodes.specs.declared.node.NodeBody.{NodeBody};
ghost use Rattle.sg_nodes.specs.Bodies.{fresh_body, HasKind};
ghost use Rattle.sg_nodes.specs.Forest.{IsForest, IsLive, IsChild, IsFrom, no_nodes, put, moved, freed, root_without, slot_of, key_of};
ghost use Rattle.sg_nodes.specs.Stored.{forest_of};

use crate::growth::extend;
use crate::lists::{clear, loosen};
use crate::node::{GroupNode, Node, NodeBody, NodeKind, RectNode, fresh_body};
use links::{Links, NodeKey};
use slab::Slab;
use std::alloc::{AllocError, Global};
use std::marker::Model;

/// Nodes under keys, each with its children in order. No node has two parents or stands above itself,
/// and at most one without a parent is the root. Contracts see the nodes and the lists of children by the
/// slots of the keys, and how many more nodes can be made.
///
/// Only `reserve` takes memory. Each other call but `release` takes the same time however many nodes
/// there are, and `release` as much more as the node has children.
#[derive(Drop)]
pub struct Nodes {
    // A node's key is the number of its cell, and of the list that has the cells of its children.
    nodes: Slab<Node>,
    links: Links,
    // How many numbers have a cell and a list.
    count: usize,
    root: Option<usize>,
    spare: usize,
}

impl Model for Nodes {
    ghost use Rattle.sg_nodes.specs.Stored.{StoredNodes, stored, stored_code, IsStored};

    ghost Value = { StoredNodes };

    ghost coded = { stored_code };

    ghost view = { λ n. stored n.nodes n.links n.root n.spare };

    ghost invariant = { λ n. IsStored n.nodes n.links n.root n.spare n.count };
}

impl Nodes {
    /// No node, and room for none.
    pub fn new(alloc: Global) -> Nodes
        ensures { forest_of result ≡ no_nodes }
    {
        Nodes {
            nodes: Slab::new(alloc),
            links: Links::new(alloc),
            count: 0,
            root: None,
            spare: 0,
        }
    }

    /// Makes room, so that at least so many more nodes can be made.
    ///
    /// # Errors
    ///
    /// Memory ran out. The nodes are as before, but room that they had may be lost.
    pub fn reserve(&mut self, n: usize) -> Result<(), AllocError>
        ensures ok { OnOk result (forest_of self.new ≡ record (forest_of self.old) {
          spare = max self.old.spare n;
        }) }
        ensures err { OnErr result (forest_of self.new ≡ record (forest_of self.old) {
          spare = self.new.spare;
        }) }
        ensures forest { IsForest (forest_of self.new) }
    {
        if n <= self.spare {
            return Ok(());
        }
        self.spare = 0;
        self.nodes.reserve(n)?;
        let count = self.nodes.capacity().max(self.count);
        extend(&mut self.links, self.count, count)?;
        self.count = count;
        self.spare = n;
        Ok(())
    }

    /// Makes a node of a kind for an item, without a parent and children, and gives its key, which no
    /// node had. It is at 0, 0 with no size; a group isn't shown and doesn't clip, and a rectangle has
    /// the colour 0.
    pub fn make(&mut self, kind: NodeKind, item: u64) -> NodeKey
        requires { 0 < self.old.spare }
        ensures fresh { (forest_of self.old).node result.slot ≡ None }
        ensures after { forest_of self.new ≡ record (forest_of self.old) {
          node = put (forest_of self.old).node result.slot
              (Some (record { item = item; body = fresh_body kind }));
          spare = self.old.spare - 1;
        } }
        ensures childless { (forest_of self.old).children result.slot ≡ [] }
        ensures no_parent { (parent : ℕ) → ¬ IsChild (forest_of self.old) parent result.slot }
        ensures not_root { self.old.root ≢ Some result.slot }
        ensures forest { IsForest (forest_of self.new) }
    {
        self.spare -= 1;
        let slot = self.nodes.insert_reserved(Node {
            item,
            body: fresh_body(kind),
        });
        NodeKey { slot }
    }

    /// Frees a node. It leaves its parent, its children have no parent afterwards, and where it was the
    /// root there is none.
    pub fn release(&mut self, key: NodeKey)
        requires { IsLive (forest_of self.old) key.slot }
        ensures after { forest_of self.new ≡ freed (forest_of self.old) key.slot }
        ensures forest { IsForest (forest_of self.new) }
    {
        loosen(&mut self.links, key.slot);
        clear(&mut self.links, key.slot);
        let _node = self.nodes.remove(key.slot);
        self.root = root_after(self.root, key.slot);
    }

    /// Moves a node among the children of a parent: right before the child `at`, or at the end where
    /// none is given. It leaves the parent that it had.
    pub fn insert_before(&mut self, key: NodeKey, parent: NodeKey, at: Option<NodeKey>)
        requires live { IsLive (forest_of self.old) key.slot }
        requires parent_live { IsLive (forest_of self.old) parent.slot }
        requires not_root { self.old.root ≢ Some key.slot }
        requires not_above { ¬ IsFrom (forest_of self.old) key.slot parent.slot }
        requires child { IfSome at (λ a. IsChild (forest_of self.old) parent.slot a.slot) }
        requires other { IfSome at (λ a. a.slot ≢ key.slot) }
        ensures after { forest_of self.new ≡ record (forest_of self.old) {
          children = moved (forest_of self.old).children key.slot parent.slot (option_map slot_of at);
        } }
        ensures forest { IsForest (forest_of self.new) }
    {
        loosen(&mut self.links, key.slot);
        match at {
            Some(at) => self.links.insert_before(key.slot, at.slot),
            None => self.links.push_back(parent.slot, key.slot),
        }
    }

    /// Gives a group another place, size and flags.
    pub fn set_group(&mut self, key: NodeKey, group: GroupNode)
        requires { HasKind (forest_of self.old) key.slot NodeKind.Group }
        ensures after { IfSome ((forest_of self.old).node key.slot) (λ node.
            forest_of self.new ≡ record (forest_of self.old) {
              node = put (forest_of self.old).node key.slot
                  (Some (record node { body = NodeBody.Group group }));
            }) }
        ensures forest { IsForest (forest_of self.new) }
    {
        let Some(node) = self.nodes.get_mut(key.slot) else {
            unreachable!()
        };
        node.body = NodeBody::Group(group);
    }

    /// Gives a rectangle another place, size and colour.
    pub fn set_rect(&mut self, key: NodeKey, rect: RectNode)
        requires { HasKind (forest_of self.old) key.slot NodeKind.Rect }
        ensures after { IfSome ((forest_of self.old).node key.slot) (λ node.
            forest_of self.new ≡ record (forest_of self.old) {
              node = put (forest_of self.old).node key.slot
                  (Some (record node { body = NodeBody.Rect rect }));
            }) }
        ensures forest { IsForest (forest_of self.new) }
    {
        let Some(node) = self.nodes.get_mut(key.slot) else {
            unreachable!()
        };
        node.body = NodeBody::Rect(rect);
    }

    /// The node of a key, or None where the key has none.
    pub fn get(&self, key: NodeKey) -> Option<&Node>
        ensures node { option_copied result ≡ (forest_of self.now).node key.slot }
        ensures forest { IsForest (forest_of self.now) }
    {
        self.nodes.get(key.slot)
    }

    /// Makes a node without a parent the root.
    pub fn set_root(&mut self, key: NodeKey)
        requires live { IsLive (forest_of self.old) key.slot }
        requires no_parent { (parent : ℕ) → ¬ IsChild (forest_of self.old) parent key.slot }
        ensures after { forest_of self.new ≡ record (forest_of self.old) { root = Some key.slot } }
        ensures forest { IsForest (forest_of self.new) }
    {
        self.root = Some(key.slot);
    }

    /// The key of the root, or None where there is none.
    pub fn root(&self) -> Option<NodeKey>
        ensures { result ≡ option_map key_of self.now.root }
    {
        let slot = self.root?;
        Some(NodeKey { slot })
    }

    /// The key of a node's first child, or None where it has none.
    pub fn first_child(&self, key: NodeKey) -> Option<NodeKey>
        ensures { result
            ≡ option_map key_of (slice_get ((forest_of self.now).children key.slot) 0) }
    {
        let slot = self.links.first(key.slot)?;
        Some(NodeKey { slot })
    }

    /// The key of the child after a node, or None where it is the last one, or has no parent.
    pub fn next_sibling(&self, key: NodeKey) -> Option<NodeKey>
        ensures next { (parent place : ℕ)
            → slice_get ((forest_of self.now).children parent) place ≡ Some key.slot
            → result
            ≡ option_map key_of (slice_get ((forest_of self.now).children parent) (place + 1)) }
        ensures no_parent { ((parent : ℕ) → ¬ IsChild (forest_of self.now) parent key.slot)
            → result ≡ None }
    {
        let slot = self.links.next(key.slot)?;
        Some(NodeKey { slot })
    }
}

/// The slot of the root once a slot has no node.
fn root_after(root: Option<usize>, slot: usize) -> Option<usize>
    ensures { result ≡ root_without slot root }
{
    if root == Some(slot) { None } else { root }
}
