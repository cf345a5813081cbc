//! A memory object, and what it binds to.

ghost use Rattle.std.specs.Prelude.{◌≡◌, ◌<◌, IfSome, length};
ghost use Rattle.memory_object.specs.Managers.{manages, manager_of};

use stack_accept::{Kind, Mounted, NodeEntry};
use thiserror::Error;

/// A file as a view has it, which a client may map.
#[derive(Clone, Copy, Debug, PartialEq, Eq)]
pub struct MemoryObject {
    /// The node of the view.
    pub view: u32,
    /// The number of the file.
    pub file: u32,
}

/// What a memory object binds to: the file's pages in the cache of a virtual memory manager.
#[derive(Clone, Copy, Debug, PartialEq, Eq)]
pub struct CacheRights {
    /// The node of the manager.
    pub leaf: u32,
    /// The number of the file.
    pub file: u32,
}

/// No virtual memory manager of the machine stands on what serves the view there.
#[derive(Clone, Copy, Debug, PartialEq, Eq, Error)]
#[error("no manager")]
pub struct NoManager;

/// Whether the node is a manager of the machine that stands on the server.
fn manages(mounted: &Mounted, server: u32, machine: u32, node: &NodeEntry) -> bool
    ensures { result ≡ manages mounted.now.nodes server machine node.now }
{
    node.kind == Kind::Vmm
        && node.machine == machine
        && mounted.via(node.below, node.machine) == server
}

/// The place among the nodes of the first manager of the machine that stands on the server.
fn place_of(mounted: &Mounted, server: u32, machine: u32) -> Option<usize>
    ensures value { result ≡ manager_of mounted.now.nodes server machine }
    ensures inside { IfSome result (λ place. place < length mounted.now.nodes) }
{
    mounted
        .nodes()
        .iter()
        .position(|node| manages(mounted, server, machine, node))
}

impl MemoryObject {
    ghost use Rattle.std.specs.Prelude.{◌≡◌, ◌<◌, true, None, Some, IfOk, OnErr, MatchResult, length};
    ghost use Rattle.stack_accept.specs.Mount.{is_view_in};
    ghost use Rattle.memory_object.specs.Managers.{IsFirstManager, HasNoManager, rights_of};

    /// What the object binds to on a machine: the first virtual memory manager of the machine, in the order of the nodes,
    /// whose parent is the node that serves the view's pages there. It fails exactly if there is none, and takes no
    /// memory.
    pub fn bind(&self, mounted: &Mounted, machine: u32) -> Result<CacheRights, NoManager>
        requires view { is_view_in mounted.now.nodes self.now.view ≡ true }
        requires machine { machine < length mounted.now.machines }
        ensures value { MatchResult result (λ rights. rights_of mounted.now self.now machine ≡ Some rights) (λ _. rights_of mounted.now self.now machine ≡ None) }

        // What that means, by the tree.
        ensures first { IfOk result (λ rights. IsFirstManager mounted.now self.now.view machine rights.leaf) }
        ensures none { OnErr result (HasNoManager mounted.now self.now.view machine) }
    {
        let server = mounted.via(self.view, machine);
        match place_of(mounted, server, machine) {
            Some(leaf) => Ok(CacheRights {
                leaf: leaf as u32,
                file: self.file,
            }),
            None => Err(NoManager),
        }
    }
}
