//! What a caller that is not Rattle holds.

ghost use Rattle.std.specs.Prelude.{◌≡◌, MatchOption, None, Some};
ghost use Rattle.simplex_handle.specs.Held.{Held, held_coded, holds};

use crate::auditor::AnyAuditor;
use crate::pointer::Pointer;
use std::alloc::Global;
use std::marker::Model;
use std::mem::replace;
use std::ptr::null_mut;

/// A pointer that owns an auditor, or null, which owns nothing. In C it is a struct with one pointer, at first null, that
/// only calls of this library change. A copy of it owns nothing, and is never used.
#[repr(C)]
pub struct Handle {
    at: *mut u8,
    alloc: Global,
    pub ghost held: { Held } by { held_coded },
}

impl Model for Handle {
    ghost also_owns = { λ h. holds h.alloc h.at h.held };
}

/// What it owns belongs to no thread.
unsafe impl Send for Handle {}

impl Handle {
    /// It owns nothing.
    pub fn empty(alloc: Global) -> Handle
        ensures { result.held ≡ None }
    {
        Handle {
            at: null_mut(),
            alloc,
        }
    }

    /// It owns an auditor.
    fn of(pointer: Pointer<AnyAuditor, Global>) -> Handle
        ensures { result.held ≡ Some pointer.value }
    {
        let Pointer { at, alloc } = pointer;
        Handle {
            at: at as *mut u8,
            alloc,
        }
    }

    /// What it owns.
    fn into_pointer(self) -> Option<Pointer<AnyAuditor, Global>>
        ensures { MatchOption result (self.held ≡ None) (λ p. self.held ≡ Some p.value) }
    {
        let Handle { at, alloc } = self;
        if at.is_null() {
            None
        } else {
            Some(Pointer {
                at: at as *mut AnyAuditor,
                alloc,
            })
        }
    }
}

impl Drop for Handle {
    fn drop(self) {
        if let Some(pointer) = self.into_pointer() {
            drop(pointer.into_box());
        }
    }
}

/// Takes what the handle owns out of it.
pub fn take(alloc: Global, handle: &mut Handle) -> Option<Box<AnyAuditor>>
    ensures taken { MatchOption result (handle.old.held ≡ None) (λ b. handle.old.held ≡ Some b.value) }
    ensures none { handle.new.held ≡ None }
{
    match replace(handle, Handle::empty(alloc)).into_pointer() {
        None => None,
        Some(pointer) => Some(pointer.into_box()),
    }
}

/// Has the handle own an auditor in place of what it owned.
pub fn put_back(handle: &mut Handle, boxed: Box<AnyAuditor>)
    ensures { handle.new.held ≡ Some boxed.value }
{
    *handle = Handle::of(Pointer::of(boxed));
}
