// What C keeps of a value.
ghost use Rattle.std.specs.Prelude.{◌≡◌, None, Some, option_map};

use crate::held::BoxedPointer;
use crate::payload::Payload;
use std::alloc::Global;
use std::mem::replace;

/// An owner of a boxed payload or of nothing. It is laid out for C, so that memory of zeros owns
/// nothing.
#[repr(C)]
pub struct Owner {
    full: bool,
    held: BoxedPointer,
    ghost agrees: { full ≡ held.full },
}

impl Owner {
    ghost use Rattle.mezdruk_c.specs.Owned.{owned_payload};

    /// Creates an owner of nothing. Allocates nothing.
    pub fn empty(alloc: Global) -> Owner
        ensures { owned_payload result ≡ None }
    {
        Owner {
            full: false,
            held: BoxedPointer::none(alloc),
        }
    }

    /// Creates an owner that takes over the payload.
    pub fn of(payload: Box<Payload>) -> Owner
        ensures { owned_payload result ≡ Some payload.value }
    {
        Owner {
            full: true,
            held: BoxedPointer::of(payload),
        }
    }

    /// Consumes the owner and returns its payload, or `None` if it owns nothing.
    pub fn into_box(self) -> Option<Box<Payload>>
        ensures { option_map (λ b. b.value) result ≡ owned_payload self }
    {
        let Owner { full, held } = self;
        if full {
            Some(held.into_box())
        } else {
            held.discard();
            None
        }
    }

    /// Removes the payload and returns it, or returns `None` if there is none. Owns nothing
    /// afterwards.
    pub fn take(&mut self, alloc: Global) -> Option<Box<Payload>>
        ensures value { option_map (λ b. b.value) result ≡ owned_payload self.old }
        ensures left { owned_payload self.new ≡ None }
    {
        replace(self, Owner::empty(alloc)).into_box()
    }
}

impl Drop for Owner {
    fn drop(self) {
        drop(self.into_box());
    }
}
