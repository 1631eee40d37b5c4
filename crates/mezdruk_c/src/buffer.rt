// The bytes of a result.
ghost use Rattle.std.specs.Prelude.{◌≡◌, [], IfOk};
ghost use Rattle.mezdruk_c.specs.Shown.{shown_length, shown_at};

use crate::owner::Owner;
use crate::payload::Payload;
use json_io::Result;
use std::alloc::Global;
use std::ptr::null;

/// The bytes of a result: `length` bytes at the address `bytes`. They stay there until the buffer
/// is freed or receives another result. Memory of zeros is a buffer of no bytes.
#[repr(C)]
#[derive(Drop)]
pub struct ResultBuffer {
    bytes: *const u8,
    length: usize,
    owner: Owner,
    ghost counted: { length ≡ shown_length owner.held.full owner.held.value },
    ghost pointed: { bytes ≡ shown_at owner.held.full owner.held.value },
}

impl ResultBuffer {
    ghost use Rattle.json_io.specs.Errors.{OnlyNoMemory};
    ghost use Rattle.mezdruk_c.specs.Buffers.{buffer_bytes};

    /// Creates a buffer of no bytes. Allocates nothing.
    pub fn empty(alloc: Global) -> ResultBuffer
        ensures { buffer_bytes result ≡ [] }
    {
        ResultBuffer {
            bytes: null(),
            length: 0,
            owner: Owner::empty(alloc),
        }
    }

    /// Creates a buffer that owns the bytes of `vec`. Fails with `NoMemory` if memory runs out.
    pub fn of(alloc: Global, vec: Vec<u8>) -> Result<ResultBuffer>
        ensures ok { IfOk result (λ b. buffer_bytes b ≡ vec.items) }
        ensures only { OnlyNoMemory result }
    {
        let (bytes, length) = (vec.as_ptr(), vec.len());
        match Box::new(alloc, Payload::Bytes(vec)) {
            Ok(payload) => Ok(ResultBuffer {
                bytes,
                length,
                owner: Owner::of(payload),
            }),
            Err(error) => Err(error.into()),
        }
    }
}
