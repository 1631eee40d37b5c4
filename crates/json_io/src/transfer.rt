// Reads a source to its end, and puts a whole piece into a sink.
ghost use Rattle.std.specs.Prelude.{◌≡◌, ◌+◌, ◌<◌, ◌≤◌, [], length, take, drop, vec_len, IfOk, IfErr, IsErrOf};
ghost use Rattle.json_io.specs.Errors.{no_memory, reading_failed, writing_failed};
ghost use Rattle.json_io.specs.Known.{if_known};
ghost use Rattle.json_io.specs.Transfer.{Gives, ReadsWithin, ReadingCause, PieceCause, TakesAtMost, FlushesAll, Puts};

use crate::{Error, ErrorCode, Failed, Place, Result, Sink, SinkError, Source};
use std::alloc::Global;

// Reads ask for at most this many bytes at a time.
const PIECE: usize = 65536;

// There is room for this many bytes from the first read on, so that what was read is seldom moved.
const FIRST_ROOM: usize = 1048576;

/// Reads all bytes up to the end of the source, at most `limit`. Takes at most `limit + 1` bytes
/// from it.
///
/// Fails with `TooLarge` if the source has more, with `Io` at `Reading` if a read failed, and with
/// `NoMemory` if memory runs out.
pub fn read_all<S: Source>(alloc: Global, source: &mut S, limit: usize) -> Result<Vec<u8>>
    requires { limit < usize.MAX }

    ensures bytes { IfOk result (λ v.
        ReadsWithin limit (S.state source.old) (S.state source.new) v.items) }
    ensures cause { IfErr result (λ e.
        ReadingCause limit (S.state source.old) (S.state source.new) e.code e.place) }
    ensures read_error { (S.state source.old).faults < (S.state source.new).faults
        → IsErrOf result reading_failed }
    ensures taken { TakesAtMost (limit + 1) (S.state source.old) (S.state source.new) }
{
    let mut bytes = Vec::with_capacity(alloc, FIRST_ROOM.min(limit + 1))?;
    let mut filled = 0;
    'fill: while filled <= limit {
        let count = read_piece(source, &mut bytes, filled, limit - filled + 1)?;
        if count == 0 {
            bytes.truncate(filled);
            return Ok(bytes);
        }
        filled += count;
    }
    Err(Error {
        code: ErrorCode::TooLarge,
        place: Place::None,
    })
}

// One read of at most `most` bytes after the first `filled`. Room is made first, so that no byte is
// lost where there is none. What follows the bytes read is then room for more.
fn read_piece<S: Source>(
    source: &mut S,
    bytes: &mut Vec<u8>,
    filled: usize,
    most: usize,
) -> Result<usize>
    requires within { filled ≤ vec_len bytes.old }
    requires some { 0 < most }
    requires room { filled + most ≤ usize.MAX }

    ensures front { take filled bytes.new.items ≡ take filled bytes.old.items }
    ensures within { filled ≤ vec_len bytes.new }
    ensures few { IfOk result (λ n. n ≤ most) }
    ensures fits { IfOk result (λ n. filled + n ≤ vec_len bytes.new) }

    ensures gives { IfOk result (λ n.
        Gives (S.state source.old) (S.state source.new) (take n (drop filled bytes.new.items))) }
    ensures end { IfOk result (λ n.
        n ≡ 0 → (S.state source.new).left ≡ if_known (S.state source.old).left []) }
    ensures cause { IfErr result (λ e.
        PieceCause (S.state source.old) (S.state source.new) e.code e.place) }
{
    if bytes.len() == filled {
        bytes.resize(filled + PIECE.min(most), 0)?;
    }
    let room = most.min(bytes.len() - filled);
    read_at(source, bytes.as_mut_slice(), filled, room)
}

fn read_at<S: Source>(source: &mut S, buf: &mut [u8], at: usize, room: usize) -> Result<usize>
    requires some { 0 < room }
    requires fits { at + room ≤ length buf.old }

    ensures front { take at buf.new ≡ take at buf.old }
    ensures few { IfOk result (λ n. n ≤ room) }
    ensures gives { IfOk result (λ n.
        Gives (S.state source.old) (S.state source.new) (take n (drop at buf.new))) }
    ensures end { IfOk result (λ n.
        n ≡ 0 → (S.state source.new).left ≡ if_known (S.state source.old).left []) }
    ensures cause { IfErr result (λ e.
        PieceCause (S.state source.old) (S.state source.new) e.code e.place) }
{
    match source.read(&mut buf[at..at + room]) {
        Ok(count) => Ok(count),
        Err(Failed) => Err(Error {
            code: ErrorCode::Io,
            place: Place::Reading,
        }),
    }
}

#[cold]
#[inline(never)]
fn sink_refusal(error: SinkError) -> Error
    ensures failed { error ≡ SinkError.Failed → result ≡ writing_failed }
    ensures no_memory { error ≡ SinkError.NoMemory → result ≡ no_memory }
{
    match error {
        SinkError::Failed => Error {
            code: ErrorCode::Io,
            place: Place::Writing,
        },
        SinkError::NoMemory => Error {
            code: ErrorCode::NoMemory,
            place: Place::None,
        },
    }
}

/// Writes the whole piece to the sink. An empty piece makes no call.
///
/// Fails with `Io` at `Writing` if the sink failed, and with `NoMemory` if the sink found no
/// memory; the sink has then gained a prefix of the piece.
#[inline(always)]
pub fn put_all<K: Sink>(sink: &mut K, piece: &[u8]) -> Result<()>
    ensures { Puts (K.state sink.old) (K.state sink.new) piece.now result }
{
    if piece.is_empty() {
        return Ok(());
    }
    match sink.write(piece) {
        Ok(count) if count == piece.len() => Ok(()),
        Ok(count) => put_rest(sink, &piece[count..]),
        Err(error) => Err(sink_refusal(error)),
    }
}

// What one write did not take, by as many writes as it needs.
#[cold]
#[inline(never)]
fn put_rest<K: Sink>(sink: &mut K, piece: &[u8]) -> Result<()>
    ensures { Puts (K.state sink.old) (K.state sink.new) piece.now result }
{
    let mut at = 0;
    'drain: while at < piece.len() {
        match sink.write(&piece[at..]) {
            Ok(count) => at += count,
            Err(error) => return Err(sink_refusal(error)),
        }
    }
    Ok(())
}

/// Flushes what waits in the sink. Fails with `Io` at `Writing` and with `NoMemory` as [`put_all`]
/// does.
pub fn flush_all<K: Sink>(sink: &mut K) -> Result<()>
    ensures { FlushesAll (K.state sink.old) (K.state sink.new) result }
{
    match sink.flush() {
        Ok(()) => Ok(()),
        Err(error) => Err(sink_refusal(error)),
    }
}
