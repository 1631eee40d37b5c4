// Pieces put into a sink, answered as the sink answers: an answer that can hold a place in the
// input costs more.
ghost use Rattle.std.specs.Prelude.{◌≡◌, ◌≤◌, ℕ, List, length, drop};
ghost use Rattle.json_io.specs.Errors.{no_memory, writing_failed};
ghost use Rattle.json_io.specs.Outside.{SinkState};
ghost use Rattle.json_io.specs.Transfer.{Puts};
ghost use Rattle.json_layout.specs.Adding.{Adds, Sends};

use json_io::{Error, ErrorCode, Place, Result, Sink, SinkError, SinkResult};

// Sends the bytes from `sent` on to the sink, and says which it has.
#[cold]
#[inline(never)]
pub(crate) fn send<W: Sink>(sink: &mut W, bytes: &[u8], sent: &mut usize) -> SinkResult
    requires { sent.old ≤ length bytes.now }
    ensures { Sends (W.state sink.old) (W.state sink.new) bytes.now sent.old sent.new result }
{
    'rest: while *sent < bytes.len() {
        match sink.write(&bytes[*sent..]) {
            Ok(count) => *sent += count,
            Err(error) => return Err(error),
        }
    }
    Ok(())
}

/// Writes the whole piece to the sink, by as many calls as that takes; an empty piece makes no
/// call. Fails with the error of the sink, which has gained a prefix of the piece then.
#[inline(always)]
pub fn add<W: Sink>(sink: &mut W, piece: &[u8]) -> SinkResult
    ensures { Adds (W.state sink.old) (W.state sink.new) piece.now result }
{
    if piece.is_empty() {
        return Ok(());
    }
    match sink.write(piece) {
        Ok(count) if count == piece.len() => Ok(()),
        Ok(count) => add_rest(sink, piece, count),
        Err(error) => Err(error),
    }
}

// The piece from a place on.
#[cold]
#[inline(never)]
fn add_rest<W: Sink>(sink: &mut W, piece: &[u8], from: usize) -> SinkResult
    requires { from ≤ length piece.now }
    ensures { Adds (W.state sink.old) (W.state sink.new) (drop from piece.now) result }
{
    let mut sent = from;
    send(sink, piece, &mut sent)
}

// Why a call of the sink failed, to a caller. It is built in place: a result of a call would be
// cleared at each token.
#[inline(always)]
pub(crate) fn error_of_sink(error: SinkError) -> Error
    ensures failed { error ≡ SinkError.Failed → result ≡ writing_failed }
    ensures no_memory { error ≡ SinkError.NoMemory → result ≡ no_memory }
{
    match error {
        SinkError::Failed => Error {
            code: ErrorCode::Io,
            place: Place::Writing,
        },
        SinkError::NoMemory => Error {
            code: ErrorCode::NoMemory,
            place: Place::None,
        },
    }
}

/// Converts the result of a write to a sink into the library's [`Result`]. A call of the sink that
/// failed becomes the error `Io` at the place `Writing`, and memory that ran out becomes
/// `NoMemory`.
#[inline(always)]
pub fn into_result(added: SinkResult) -> Result<()>
    ensures { (old new : SinkState) (piece : List ℕ) → Adds old new piece added
        → Puts old new piece result }
{
    match added {
        Ok(()) => Ok(()),
        Err(error) => Err(error_of_sink(error)),
    }
}
