//! A session behind a pointer that C holds, with the two `unsafe` blocks of the crate.
//!
//! A handle owns the block behind its pointer as a box does. So the session there can be lent, and
//! the box can be made again.
ghost use Rattle.lq_c.specs.declared.handle_target.Served.{Served};
ghost use Rattle.lq_c.specs.Handle.{lq_owns, served_coded};

use crate::handle_target::Served;
use std::alloc::{Allocator, Global};
use std::marker::Model;

/// What C sees behind the pointer: nothing that it may read.
#[repr(C)]
#[derive(Drop)]
pub struct Opaque {
    pub byte: u8,
}

/// The handle: the pointer in C's `struct lq`. Contracts see the session behind it (`served`).
///
/// It isn't `Drop`, and its parts aren't: a call that gets a handle by value can't forget it, but
/// has to make the box again.
#[repr(C)]
pub struct Lq {
    ptr: *mut Opaque,
    alloc: Global,
    pub ghost served: { Served } by { served_coded },
}

impl Model for Lq {
    ghost also_owns = { λ h. lq_owns h.alloc h.ptr h.served };
}

impl Lq {
    ghost use Rattle.std.specs.Prelude.{◌≡◌};
    ghost use types.Logic.{sem};
    ghost use Rattle.lq_c.specs.Lent.{LendsServed};

    /// The session behind the handle, lent.
    pub fn served_mut(&mut self) -> &mut Served
        ensures* writes_back { sem 𝓛 (LendsServed self.entry result) }
        ensures value { result.now ≡ self.old.served }
    {
        // The handle owns what its pointer points to, and is borrowed for as long as this is.
        unsafe { &mut *(self.ptr as *mut Served) }
    }

    /// The handle's pointer and the memory that it owns, as the parts of a box.
    pub fn into_parts(self) -> Parts<Served, Global>
        ensures { result.value ≡ self.served }
    {
        let Lq { ptr, alloc } = self;
        Parts {
            ptr: ptr as *mut Served,
            alloc,
        }
    }
}

/// A box's pointer and allocator, and what it holds.
pub struct Parts<T, A: Allocator> {
    pub(crate) ptr: *mut T,
    pub(crate) alloc: A,
    pub ghost value: { T },
}

impl<T, A: Allocator> Model for Parts<T, A> {
    ghost use Rattle.std.specs.Box.Ownership.{box_owns};

    ghost also_owns = { λ p. box_owns (A.dealloc_token p.alloc) T.row p.ptr p.value };
}

impl<T, A: Allocator> Parts<T, A> {
    ghost use Rattle.std.specs.Prelude.{◌≡◌};

    /// The box that has these parts.
    pub fn into_box(self) -> Box<T, A>
        ensures { result.value ≡ self.value }
    {
        let Parts { ptr, alloc } = self;
        // The parts own the block behind the pointer, which this allocator gave.
        unsafe { Box::from_raw(alloc, ptr) }
    }
}
