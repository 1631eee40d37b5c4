// The calls of a formatter that a serializer makes.
ghost use Rattle.std.specs.Prelude.{◌≡◌, None, Some};
ghost use Rattle.json_print.specs.Parts.{meaning};
ghost use Rattle.json_print.specs.Printer.{call};
ghost use Rattle.json_print.specs.Serializing.{StepsBy, out_of};
ghost use Rattle.json_print.specs.Steps.{stop_of};

use super::{Serializer, SerializerFailed, SerializerResult};
use crate::Formatter;
use crate::part::{Part, write_part};
use json_io::{Error, ErrorCode, Place, Sink};

// The error of a sink that has this code.
fn stop_of(code: ErrorCode) -> Error
    ensures { result ≡ stop_of code }
{
    match code {
        ErrorCode::NoMemory => Error {
            code: ErrorCode::NoMemory,
            place: Place::None,
        },
        _ => Error {
            code: ErrorCode::Io,
            place: Place::Writing,
        },
    }
}

impl<W: Sink, F: Formatter> Serializer<W, F> {
    // Keeps the error.
    #[cold]
    #[inline(never)]
    pub(super) fn halt(&mut self, error: Error) -> SerializerFailed
        ensures { self.new ≡ record self.old { failed = Some error } }
    {
        self.failed = Some(error);
        SerializerFailed
    }

    // Keeps the error of a sink. It is made here of its code, since an error that is passed on as a
    // whole is copied from level to level at each token, met or not.
    #[cold]
    #[inline(never)]
    pub(super) fn halt_by(&mut self, code: ErrorCode) -> SerializerFailed
        ensures { self.new ≡ record self.old { failed = Some (stop_of code) } }
    {
        self.failed = Some(stop_of(code));
        SerializerFailed
    }

    // A call of the formatter where members may wait: out of line, so that its answers are not
    // cleared at each token.
    #[inline(never)]
    pub(super) fn call_waiting(&mut self, part: Part<'_>) -> SerializerResult
        requires { self.old.failed ≡ None }
        ensures { StepsBy W.state self.old self.new
            (λ s. call F.form s (meaning part.entry)) result }
    {
        match self.objects.last_mut() {
            None => match write_part(&mut self.formatter, &mut self.writer, part) {
                Ok(()) => Ok(()),
                Err(error) => Err(self.halt(error)),
            },
            Some(object) => match object.call(&mut self.formatter, part) {
                Ok(()) => Ok(()),
                Err(error) => Err(self.halt(error)),
            },
        }
    }
}
