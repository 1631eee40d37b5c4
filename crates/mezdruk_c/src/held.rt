// A boxed value to which a pointer that C keeps leads, or none.
ghost use Rattle.std.specs.Prelude.{◌≡◌, Bool, true, false};
ghost use Rattle.mezdruk_c.specs.declared.payload.Payload.{Payload};
ghost use Rattle.mezdruk_c.specs.Held.{payload_coded, held_owns};

use crate::parts::PointerParts;
use crate::payload::Payload;
use std::alloc::Global;
use std::marker::Model;
use std::ptr::null_mut;

/// A pointer that owns a boxed payload if its ghost field `full` is true, and else owns nothing.
#[repr(C)]
pub struct BoxedPointer {
    ptr: *mut u8,
    alloc: Global,
    pub ghost full: { Bool },
    pub ghost value: { Payload } by { payload_coded },
}

impl Model for BoxedPointer {
    ghost also_owns = { λ h. held_owns h.full h.alloc h.ptr h.value };
}

impl BoxedPointer {
    /// Creates a pointer that owns the payload.
    pub fn of(payload: Box<Payload>) -> BoxedPointer
        ensures full { result.full ≡ true }
        ensures value { result.value ≡ payload.value }
    {
        BoxedPointer::of_parts(PointerParts::of(payload))
    }

    /// Creates a null pointer, which owns nothing.
    pub fn none(alloc: Global) -> BoxedPointer
        ensures full { result.full ≡ false }
    {
        BoxedPointer {
            ptr: null_mut(),
            alloc,
        }
    }

    /// Returns the payload that the pointer owns. The pointer must own one.
    pub fn into_box(self) -> Box<Payload>
        requires { self.full ≡ true }
        ensures { result.value ≡ self.value }
    {
        self.into_parts().into_box()
    }

    /// Consumes a pointer that owns nothing.
    pub fn discard(self)
        requires { self.full ≡ false }
    {
        let BoxedPointer { ptr: _, alloc: _ } = self;
    }

    fn of_parts(parts: PointerParts<Payload, Global>) -> BoxedPointer
        ensures { (result.full ≡ true) × (result.value ≡ parts.value) }
    {
        let PointerParts { ptr, alloc } = parts;
        BoxedPointer {
            ptr: ptr as *mut u8,
            alloc,
        }
    }

    fn into_parts(self) -> PointerParts<Payload, Global>
        requires { self.full ≡ true }
        ensures { result.value ≡ self.value }
    {
        let BoxedPointer { ptr, alloc } = self;
        PointerParts {
            ptr: ptr as *mut Payload,
            alloc,
        }
    }
}
