//! What C holds.
ghost use Rattle.std.specs.Prelude.{◌≡◌, Option, None, Some, option_map};
ghost use Rattle.wuleshomia.specs.declared.held.Held.{Held};
ghost use Rattle.wuleshomia.specs.Handles.{handle_owns, held_coded};

use crate::held::Held;
use crate::unboxed::Unboxed;
use std::alloc::Global;
use std::marker::{Model, Send};
use std::mem;
use std::ptr::null_mut;

/// An endpoint that C holds. If `live` is 1, its box is at `at`; if it is 0, there is none.
#[repr(C)]
pub struct EndpointHandle {
    at: *mut u8,
    live: u64,
    pub ghost held: { Option Held } by { held_coded },
}

impl Model for EndpointHandle {
    ghost also_owns = { λ e. handle_owns e.at e.live e.held };
}

impl EndpointHandle {
    /// Makes a handle that holds no endpoint.
    pub fn empty() -> EndpointHandle
        ensures { result.held ≡ None }
    {
        EndpointHandle {
            at: null_mut(),
            live: 0,
        }
    }

    /// Makes a handle that holds what a box did.
    fn of_unboxed(parts: Unboxed<Held, Global>) -> EndpointHandle
        ensures { result.held ≡ Some parts.value }
    {
        let Unboxed { ptr, alloc: _ } = parts;
        EndpointHandle {
            at: ptr as *mut u8,
            live: 1,
        }
    }

    /// Returns what it holds, as the parts of a box.
    fn into_unboxed(self, alloc: Global) -> Option<Unboxed<Held, Global>>
        ensures { option_map (λ p. p.value) result ≡ self.held }
    {
        let EndpointHandle { at, live } = self;
        if live == 0 {
            None
        } else {
            Some(Unboxed {
                ptr: at as *mut Held,
                alloc,
            })
        }
    }

    /// Returns what it holds.
    pub fn into_held(self, alloc: Global) -> Option<Box<Held>>
        ensures { option_map (λ b. b.value) result ≡ self.held }
    {
        match self.into_unboxed(alloc) {
            Some(parts) => Some(parts.boxed()),
            None => None,
        }
    }

    /// Takes out what it holds, and leaves nothing.
    pub fn take(&mut self, alloc: Global) -> Option<Box<Held>>
        ensures given { option_map (λ b. b.value) result ≡ self.old.held }
        ensures left { self.new.held ≡ None }
    {
        mem::replace(self, EndpointHandle::empty()).into_held(alloc)
    }

    /// Puts an endpoint in, and drops what was there.
    pub fn put(&mut self, alloc: Global, held: Box<Held>)
        ensures { self.new.held ≡ Some held.value }
    {
        let before = mem::replace(self, EndpointHandle::of_unboxed(Unboxed::of(held)));
        drop(before.into_held(alloc));
    }

    /// Puts an endpoint back. The handle must hold none.
    pub(crate) fn put_back(&mut self, alloc: Global, held: Box<Held>)
        requires { self.old.held ≡ None }
        ensures { self.new.held ≡ Some held.value }
    {
        let none = mem::replace(self, EndpointHandle::of_unboxed(Unboxed::of(held)));
        match none.into_unboxed(alloc) {
            None => {}
            Some(_) => unreachable!(),
        }
    }
}

unsafe impl Send for EndpointHandle {}
