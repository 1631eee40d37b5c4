// Values read from texts and sources.
ghost use Rattle.std.specs.Prelude.{◌≡◌, ◌<◌, ◌≤◌, ◌^◌, length, true, IfOk, IfErr, IsErrOf, IsOkUnless, OnErr, OnOk, IsUtf8};
ghost use Rattle.json_io.specs.Errors.{no_memory, reading_failed, too_large as spec_too_large};
ghost use Rattle.json_text.specs.Ruled.{rules_of};
ghost use Rattle.json_io.specs.Transfer.{ReadsWithin, ReadingCause, TakesOneBeyond};
ghost use Rattle.json_data.specs.Reading.{gives};
ghost use Rattle.json_data.specs.Calls.{most, BytesRefused, RefusesTooLarge, ReadsTypedValue, FailsTypedReading, ReadsUnlessNoMemory};
ghost use Rattle.json_tokens.specs.TextValues.{IsPackedAtRoot};
ghost use Rattle.json_data.specs.Calls.{ReadsTypedText, TypedReadingFails, HasDatum, ReadsTextWith, TypedReadingFailsWith, ReadsSource, SourceFails};

use crate::deserialize::{Deserialize, DeserializeFrom};
use json_doc::read_document_with;
use json_io::{Error, ErrorCode, Place, Result, Source, check_utf8, place_of, read_all};
use json_scan::ws_run;
use json_text::Rules;
use json_tokens::{TextTokens, is_refusal};
use std::alloc::Global;
use std::str::from_utf8_unchecked;

/// The greatest number of bytes that a JSON text may have.
const MOST: usize = 4_294_967_295;

/// The greatest number of nested arrays and objects if the caller chooses none (RFC 8259, section
/// 9).
const LEVELS: u32 = 254;

// Returns the error of an input with more bytes than a text may have.
fn too_large_error() -> Error
    ensures { result ≡ spec_too_large }
{
    Error {
        code: ErrorCode::TooLarge,
        place: Place::None,
    }
}

// Returns the bytes as a text. Fails if they are too many or not UTF-8.
fn utf8_text(json: &[u8]) -> Result<&str>
    ensures same { IfOk result (λ text. text.now ≡ json.now) }
    ensures valid { IfOk result (λ _. IsUtf8 json.now) }
    ensures size { IfOk result (λ _. length json.now < 2 ^ 32) }
    ensures cause { IfErr result (λ e. BytesRefused json.now e.code e.place) }
    ensures large { RefusesTooLarge json.now result }
{
    if json.len() > MOST {
        return Err(too_large_error());
    }
    check_utf8(json)
}

// Returns the value of a text of at most `depth` levels.
fn read_text<'a, T: Deserialize<'a> + Drop>(alloc: Global, text: &'a str, depth: u32) -> Result<T>
    requires { depth ≤ 1024 }
    ensures ok { IfOk result (λ v. ReadsTypedText depth T.from_tree text.now (gives (T.datum v))) }
    ensures place { IfOk result (T.placed IsPackedAtRoot) }
    ensures err { IfErr result (λ e. TypedReadingFails depth T.from_tree text.now e.code e.place) }
{
    let mut tokens = TextTokens::new(text).depth(depth);
    match T::deserialize(alloc, &mut tokens) {
        Ok(value) => {
            tokens.finish()?;
            Ok(value)
        }
        Err(error) => {
            if !is_refusal(error.code) {
                let _failure = tokens.failure();
                return Err(error);
            }
            tokens.finish()?;
            let begin = ws_run(text.as_bytes(), 0);
            Err(Error {
                code: error.code,
                place: place_of(text.as_bytes(), begin),
            })
        }
    }
}

/// Reads a value of type `T` from a JSON text with at most 254 levels of nested arrays and objects
/// (RFC 8259). The value may borrow from the text; `alloc` is for what it owns.
///
/// Fails with `TooLarge` exactly if the text has more than 4,294,967,295 bytes. Otherwise fails
/// with the error of the text, if it is no valid JSON text. A valid text whose value is no `T` is
/// refused, at the beginning of the value: with `TypeUnmatched`, `NumberOutOfRange` or
/// `ExpectedNumericKey`. Fails with `NoMemory` if memory runs out.
pub fn from_str<'a, T: Deserialize<'a> + Drop>(alloc: Global, s: &'a str) -> Result<T>
    ensures ok { IfOk result (λ v. ReadsTypedText 254 T.from_tree s.now (gives (T.datum v))) }
    ensures place { IfOk result (T.placed IsPackedAtRoot) }
    ensures err { IfErr result (λ e. TypedReadingFails 254 T.from_tree s.now e.code e.place) }
    ensures complete { HasDatum 254 T.from_tree s.now → length s.now < 2 ^ 32
        → IsOkUnless result no_memory }
    ensures large { 2 ^ 32 ≤ length s.now → IsErrOf result spec_too_large }
{
    if s.len() > MOST {
        return Err(too_large_error());
    }
    read_text(alloc, s, LEVELS)
}

/// Reads a value of type `T` from the bytes of a JSON text. Fails with `InvalidUTF8` if they are
/// not UTF-8, before any other error of the text, and otherwise as [`from_str`] does.
pub fn from_slice<'a, T: Deserialize<'a> + Drop>(alloc: Global, json: &'a [u8]) -> Result<T>
    ensures ok { ReadsTypedValue T.from_tree T.datum json.now result }
    ensures place { IfOk result (T.placed IsPackedAtRoot) }
    ensures err { FailsTypedReading T.from_tree json.now result }
    ensures complete { ReadsUnlessNoMemory T.from_tree json.now result }
    ensures large { RefusesTooLarge json.now result }
{
    let text = utf8_text(json)?;
    read_text(alloc, text, LEVELS)
}

/// Reads a value of type `T` from the bytes of a JSON text that are known to be UTF-8, and does not
/// test that. Fails as [`from_str`] does.
pub fn from_slice_unchecked<'a, T: Deserialize<'a> + Drop>(
    alloc: Global,
    json: &'a [u8],
) -> Result<T>
    requires { IsUtf8 json.now }
    ensures ok { ReadsTypedValue T.from_tree T.datum json.now result }
    ensures place { IfOk result (T.placed IsPackedAtRoot) }
    ensures err { FailsTypedReading T.from_tree json.now result }
    ensures complete { ReadsUnlessNoMemory T.from_tree json.now result }
    ensures large { RefusesTooLarge json.now result }
{
    from_str(alloc, unsafe { from_utf8_unchecked(json) })
}

// Reads a value from a text in which the names of each object have to differ. They are compared in
// a pass of its own, which packs a document.
fn read_unique<'a, T: Deserialize<'a> + Drop>(
    alloc: Global,
    text: &'a str,
    rules: Rules,
) -> Result<T>
    requires unique { (rules_of rules).unique ≡ true }
    requires size { length text.now < 2 ^ 32 }
    ensures ok { IfOk result (λ v.
        ReadsTextWith (rules_of rules) T.from_tree text.now (gives (T.datum v))) }
    ensures place { IfOk result (T.placed IsPackedAtRoot) }
    ensures err { IfErr result (λ e.
        TypedReadingFailsWith (rules_of rules) T.from_tree text.now e.code e.place) }
{
    let _document = read_document_with(alloc, text, rules)?;
    read_text(alloc, text, rules.depth())
}

/// Reads a value of type `T` from the bytes of a JSON text by rules that the caller chooses: how
/// many levels the text may have, and whether the names within an object have to differ (RFC 8259,
/// sections 9 and 4).
///
/// Fails as [`from_slice`] does, but for these rules. If a bracket opens a level too many or a name
/// repeats, the first of them is reported; each may be reported before any other error.
pub fn from_slice_with<'a, T: Deserialize<'a> + Drop>(
    alloc: Global,
    json: &'a [u8],
    rules: Rules,
) -> Result<T>
    ensures ok { IfOk result (λ v.
        ReadsTextWith (rules_of rules) T.from_tree json.now (gives (T.datum v))) }
    ensures place { IfOk result (T.placed IsPackedAtRoot) }
    ensures err { IfErr result (λ e.
        TypedReadingFailsWith (rules_of rules) T.from_tree json.now e.code e.place) }
    ensures large { RefusesTooLarge json.now result }
{
    let text = utf8_text(json)?;
    if rules.unique() {
        read_unique(alloc, text, rules)
    } else {
        read_text(alloc, text, rules.depth())
    }
}

// Puts all that the source has left into the room, in place of what it had.
fn read_source<S: Source>(alloc: Global, source: &mut S, room: &mut Vec<u8>) -> Result<()>
    ensures bytes { OnOk result
        (ReadsWithin most (S.state source.old) (S.state source.new) room.new.items) }
    ensures kept { OnErr result (room.new ≡ room.old) }
    ensures cause { IfErr result (λ e.
        ReadingCause most (S.state source.old) (S.state source.new) e.code e.place) }
    ensures read_error { (S.state source.old).faults < (S.state source.new).faults
        → IsErrOf result reading_failed }
    ensures taken { TakesOneBeyond most (S.state source.old) (S.state source.new) }
{
    let bytes = read_all(alloc, source, MOST)?;
    *room = bytes;
    Ok(())
}

/// Reads all bytes that are left in `source`, and a value of type `T` from them as from a JSON
/// text. The bytes replace what `room` had; the value may borrow from `room`.
///
/// Fails with `Io` at `Reading` if the source failed, and with `TooLarge` if it has more than
/// 4,294,967,295 bytes; `room` is then as it was. Otherwise fails as [`from_slice`] does.
pub fn from_reader<'a, S: Source, T: Deserialize<'a> + Drop>(
    alloc: Global,
    source: &mut S,
    room: &'a mut Vec<u8>,
) -> Result<T>
    ensures ok { IfOk result (λ v.
        ReadsSource (S.state source.old) (S.state source.new) T.from_tree (gives (T.datum v))) }
    ensures place { IfOk result (T.placed IsPackedAtRoot) }
    ensures err { IfErr result (λ e.
        SourceFails (S.state source.old) (S.state source.new) T.from_tree e.code e.place) }
    ensures read_error { (S.state source.old).faults < (S.state source.new).faults
        → IsErrOf result reading_failed }
    ensures taken { TakesOneBeyond most (S.state source.old) (S.state source.new) }
{
    read_source(alloc, source, room)?;
    from_slice(alloc, room.as_slice())
}
