//! The owner of the nodes' memory. It does not know about links: a node is a value at an address.
//!
//! Only these functions follow a pointer. A pool is not `Drop`: only `close` ends it, and only if it is empty.
ghost use Rattle.std.specs.Prelude.{◌≡◌, ℕ, ◌<◌, List, [], ◌∷◌, ⊤, Some, None, IsSome};
ghost use Rattle.std.specs.Borrow.{sem};
ghost use Rattle.core.specs.Mem.{type_size};
ghost use denote.RawPtr.{Ptr};
ghost use Rattle.dom_links.specs.Cells.{look, without};
ghost use Rattle.dom_links.specs.Pointers.{IsPlace};
ghost use Rattle.dom_links.specs.Ownership.{cells_own, cells_lent};

use std::alloc::{AllocError, Global};
use std::marker::{Model, PhantomData};
use std_alloc::room::Vacant;

/// The address of a node. It owns nothing.
pub struct NodePtr<N> {
    pub(crate) ptr: *mut N,
}

impl<N> Clone for NodePtr<N> {
    ghost is_clone = { λ x y. y ≡ x };

    ghost is_infallible = { λ _. ⊤ };

    fn clone(&self) -> Result<NodePtr<N>, AllocError> {
        Ok(*self)
    }
}

impl<N> Copy for NodePtr<N> {}

/// A block with room for one node. It is not `Drop`, and its field is private: only `Pool::put` and `free` end it.
pub struct Room<N> {
    vacant: Vacant<N, Global>,
}

impl<N> Room<N> {
    /// Allocates a block; returns the allocator if it is out of memory.
    pub fn take(alloc: Global) -> Result<Room<N>, Global> {
        match Vacant::take(alloc) {
            Ok(vacant) => Ok(Room { vacant }),
            Err(alloc) => Err(alloc),
        }
    }

    /// Frees the block.
    pub fn free(self) {
        let Room { vacant } = self;
        let _ = vacant.free();
    }
}

/// The owner of a block for each node that was put and not yet taken. It takes no space.
pub struct Pool<N> {
    mark: PhantomData<*mut N>,
    ghost cells: { List (Ptr × N) },
}

impl<N> Model for Pool<N> {
    ghost also_owns = { λ p. cells_own N.row p.cells };

    ghost also_shares = { λ p _ κ. cells_lent N.row p.cells κ };
}

impl<N> Pool<N> {
    ghost use Rattle.dom_links.specs.Borrows.{lends_item};

    /// Returns an empty pool. It takes no memory.
    pub fn new() -> Pool<N>
        ensures { result.cells ≡ [] }
    {
        Pool { mark: PhantomData }
    }

    /// Moves a node into a room. No other node has its address.
    pub fn put(&mut self, room: Room<N>, node: N) -> NodePtr<N>
        requires { 0 < type_size N.row }
        ensures cells { self.new.cells ≡ (result.ptr, node) ∷ self.old.cells }
        ensures fresh { look result.ptr self.old.cells ≡ None }
        ensures place { IsPlace result.ptr }
    {
        let Room { vacant } = room;
        self.put_vacant(vacant, node)
    }

    fn put_vacant(&mut self, room: Vacant<N, Global>, node: N) -> NodePtr<N>
        requires { 0 < type_size N.row }
        ensures cells { self.new.cells ≡ (result.ptr, node) ∷ self.old.cells }
        ensures fresh { look result.ptr self.old.cells ≡ None }
        ensures place { IsPlace result.ptr }
    {
        let Vacant { ptr, alloc: _ } = room;
        unsafe {
            ptr.write(node);
        }
        NodePtr { ptr }
    }

    /// Moves a node out, and returns its block as room.
    pub fn take(&mut self, node: NodePtr<N>, alloc: Global) -> (N, Room<N>)
        requires { IsSome (look node.ptr self.old.cells) }
        ensures node { look node.ptr self.old.cells ≡ Some result.0 }
        ensures cells { self.new.cells ≡ without node.ptr self.old.cells }
    {
        let (value, vacant) = self.take_vacant(node, alloc);
        (value, Room { vacant })
    }

    fn take_vacant(&mut self, node: NodePtr<N>, alloc: Global) -> (N, Vacant<N, Global>)
        requires { IsSome (look node.ptr self.old.cells) }
        ensures node { look node.ptr self.old.cells ≡ Some result.0 }
        ensures cells { self.new.cells ≡ without node.ptr self.old.cells }
    {
        let ptr = node.ptr;
        let value = unsafe { ptr.read() };
        (value, Vacant { ptr, alloc })
    }

    /// Borrows the node at an address in use.
    pub fn get(&self, node: NodePtr<N>) -> &N
        requires { IsSome (look node.ptr self.now.cells) }
        ensures { look node.ptr self.now.cells ≡ Some result.now }
    {
        unsafe { &*node.ptr }
    }

    /// Borrows the node at an address in use mutably. The other nodes stay unchanged.
    pub fn get_mut(&mut self, node: NodePtr<N>) -> &mut N
        requires { IsSome (look node.ptr self.old.cells) }
        ensures* writes_back { sem 𝓛 (lends_item N.row self.entry node.ptr result) }
        ensures value { look node.ptr self.old.cells ≡ Some result.now }
    {
        unsafe { &mut *node.ptr }
    }

    /// Ends an empty pool.
    pub fn close(self)
        requires { self.cells ≡ [] }
    {
        let Pool { mark: _ } = self;
    }
}
