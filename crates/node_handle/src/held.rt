//! A node, or none, behind a pointer.
#![tactic(auto)]

ghost use Rattle.std.specs.Prelude.{◌≡◌, None, Some, MatchOption, Option};
ghost use Rattle.node_handle.specs.Owned.{node_coded, node_owns};
ghost use Rattle.node_handle.specs.declared.held.HeldNode.{HeldNode as NodeOf};

use crate::loose::Loose;
use called_node::CalledNode;
use file_flash::NotedFlash;
use mesh_machine::MeshMachine;
use std::alloc::Global;
use std::marker::Model;
use std::mem;
use std::ptr::null_mut;

/// The calls of a node.
#[derive(Drop)]
pub struct HeldNode {
    /// Its calls.
    pub calls: CalledNode<MeshMachine, NotedFlash>,
}

/// A node, or none: where all its octets are 0 it holds none. Only these calls write it, and a copy of it isn't used.
#[repr(C)]
pub struct Meshnode {
    at: *mut u8,
    alloc: Global,
    pub ghost value: { Option NodeOf } by { node_coded },
}

impl Model for Meshnode {
    ghost also_owns = { λ h. node_owns h.alloc h.at h.value };
}

impl Drop for Meshnode {
    fn drop(self) {
        if let Some(loose) = self.into_loose() {
            drop(loose.into_box());
        }
    }
}

impl Meshnode {
    /// One that holds this node.
    fn of(loose: Loose<HeldNode, Global>) -> Meshnode
        ensures value { result.value ≡ Some loose.value }
    {
        let Loose { at, alloc } = loose;
        let at = at as *mut u8;
        Meshnode { at, alloc }
    }

    /// One that holds none.
    pub fn nothing(alloc: Global) -> Meshnode
        ensures value { result.value ≡ None }
    {
        Meshnode {
            at: null_mut(),
            alloc,
        }
    }

    /// What it holds.
    fn into_loose(self) -> Option<Loose<HeldNode, Global>>
        ensures value { MatchOption result (self.value ≡ None) (λ l. self.value ≡ Some l.value) }
    {
        let Meshnode { at, alloc } = self;
        if at.is_null() {
            None
        } else {
            let at = at as *mut HeldNode;
            Some(Loose { at, alloc })
        }
    }

    /// Takes the node out, if it holds one.
    pub(crate) fn take(&mut self, alloc: Global) -> Option<Box<HeldNode>>
        ensures value { MatchOption result (self.old.value ≡ None) (λ b. self.old.value ≡ Some b.value) }
        ensures left { self.new.value ≡ None }
    {
        match mem::replace(self, Meshnode::nothing(alloc)).into_loose() {
            Some(loose) => Some(loose.into_box()),
            None => None,
        }
    }

    /// Puts a node in. One that it held is freed.
    pub(crate) fn put(&mut self, node: Box<HeldNode>)
        ensures value { self.new.value ≡ Some node.value }
    {
        *self = Meshnode::of(Loose::of(node));
    }
}
