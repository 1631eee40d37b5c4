// A sink in memory that knows whether memory ran out.
ghost use Rattle.std.specs.Prelude.{◌≡◌, [], false, Some, None, IfSome};
ghost use Rattle.mezdruk_c.specs.ErrorSinks.{error_sink_state};

use json_io::{Sink, SinkError};
use std::alloc::Global;

/// The errors of lines, in memory. It knows whether memory ran out for one.
#[derive(Drop)]
pub struct ErrorSink {
    bytes: Vec<u8>,
    lacks: u64,
}

impl ErrorSink {
    /// A sink that has gained nothing.
    pub fn new(alloc: Global) -> ErrorSink
        ensures { ⟦<ErrorSink as Sink>⟧.state result
            ≡ record { gained = Some []; faults = 0; lacks = 0; unflushed = false; loan = None } }
    {
        ErrorSink {
            bytes: Vec::new(alloc),
            lacks: 0,
        }
    }

    /// Returns the bytes gained, or `None` if memory ran out for some.
    pub fn into_whole(self) -> Option<Vec<u8>>
        ensures bytes { IfSome result
            (λ v. (⟦<ErrorSink as Sink>⟧.state self).gained ≡ Some v.items) }
        ensures whole { IfSome result (λ v. (⟦<ErrorSink as Sink>⟧.state self).lacks ≡ 0) }
    {
        if self.lacks == 0 {
            Some(self.bytes)
        } else {
            None
        }
    }
}

impl Sink for ErrorSink {
    ghost state = { error_sink_state };

    fn write(&mut self, piece: &[u8]) -> Result<usize, SinkError> {
        match self.bytes.extend_from_slice(piece) {
            Ok(()) => Ok(piece.len()),
            Err(_) => {
                self.lacks = self.lacks.saturating_add(1);
                Err(SinkError::NoMemory)
            }
        }
    }

    fn flush(&mut self) -> Result<(), SinkError> {
        Ok(())
    }
}
