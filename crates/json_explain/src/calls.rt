// Values read with errors that say where.
ghost use Rattle.std.specs.Prelude.{◌≡◌, ◌≤◌, ◌<◌, ◌⊎◌, ℕ, List, false, true, Some, None, IfOk, IfErr, OnOk, OnErr, IsErr, IsErrOf};
ghost use Rattle.json_grammar.specs.Grammar.{is_text};
ghost use Rattle.json_grammar.specs.Tree.{Tree, depth as depth_of};
ghost use Rattle.json_io.specs.Errors.{no_memory, reading_failed};
ghost use Rattle.json_io.specs.Transfer.{ReadsWithin, ReadingCause, TakesOneBeyond};
ghost use Rattle.json_text.specs.Ruled.{rules_of};
ghost use Rattle.json_value.specs.Denotes.{tree_of};
ghost use Rattle.json_value.specs.ViewTargets.{whole_value};
ghost use Rattle.json_data.specs.Calls.{most, ReadsTypedText, TypedReadingFails, ReadsTextWith, TypedReadingFailsWith, ReadsSource, SourceFails};
ghost use Rattle.json_data.specs.ValueCalls.{TreeReadingFails};
ghost use Rattle.json_data.specs.Reading.{gives};
ghost use Rattle.json_tokens.specs.Refusals.{is_refusal as spec_is_refusal};
ghost use Rattle.json_tokens.specs.TextValues.{IsPackedAtRoot};
ghost use Rattle.json_tokens.specs.Values.{IsMadeOf};
ghost use Rattle.json_explain.specs.Explaining.{refused_of, refused_in, IsWithin, IsPlaced, IsExplained, FirstValueHolds, TextRefused, RefusedWhere};

use crate::explain::Explain;
use crate::explanation::Explanation;
use crate::place::offset_at_path;
use crate::refusal::Refusal;
use json_io::{Error, ErrorCode, Result, Source, check_utf8, place_of, read_all};
use json_text::Rules;
use json_tokens::{TextTokens, ValueTokens, error_without_place, is_refusal};
use json_value::Value;
use std::alloc::Global;

/// The greatest number of bytes that a JSON text may have.
const MOST: usize = 4_294_967_295;

/// The greatest number of nested arrays and objects if the caller chooses none (RFC 8259, section
/// 9).
const LEVELS: u32 = 254;

// Returns where the value of a text is refused, or `None` if it is not. Fails if memory runs out.
fn refusal_of<'a, T: Explain<&'a str>>(
    alloc: Global,
    text: &'a str,
    depth: u32,
) -> Result<Option<Refusal>>
    requires { depth ≤ 1024 }
    ensures { IfOk result (λ o. FirstValueHolds (λ t. RefusedWhere T.refused t (refused_in o)) text.now) }
{
    let mut tokens = TextTokens::new(text).depth(depth);
    match T::explain(alloc, &mut tokens) {
        Ok(refusal) => {
            let _end = tokens.index();
            Ok(refusal)
        }
        Err(error) => Err(error),
    }
}

// Returns an explanation of `error` with its refusal and the place of the value that is refused.
fn explained_at(text: &str, depth: u32, error: Error, refusal: Refusal) -> Explanation
    requires { depth ≤ 1024 }
    ensures error { result.error ≡ error }
    ensures refusal { result.refusal ≡ Some refusal }
    ensures place { (t : Tree) → is_text false t text.now → depth_of t ≤ depth
        → IsWithin t (refused_of refusal)
        → IsPlaced depth text.now t result.place (refused_of refusal) }
{
    match offset_at_path(text, depth, refusal.steps()) {
        Some(offset) => {
            let bytes = text.as_bytes();
            let within = offset.min(bytes.len());
            Explanation {
                error,
                refusal: Some(refusal),
                place: place_of(bytes, within),
            }
        }
        None => Explanation {
            error,
            refusal: Some(refusal),
            place: error.place,
        },
    }
}

// Returns an explanation of `error`, or that memory ran out.
fn explained<'a, T: Explain<&'a str>>(
    alloc: Global,
    text: &'a str,
    depth: u32,
    error: Error,
) -> Explanation
    requires { depth ≤ 1024 }
    ensures error { (result.error ≡ error) ⊎ (result.error ≡ no_memory) }
    ensures explained { (spec_is_refusal error.code ≡ true → (t : Tree) × is_text false t text.now
        × (depth_of t ≤ depth)) → IsExplained depth T.refused text.now result }
{
    if !is_refusal(error.code) {
        return Explanation::plain(error);
    }
    match refusal_of::<T>(alloc, text, depth) {
        Ok(Some(refusal)) => explained_at(text, depth, error, refusal),
        Ok(None) => Explanation::plain(error),
        Err(_) => Explanation::plain(error_without_place(ErrorCode::NoMemory)),
    }
}

// Returns an explanation of an error in the bytes of a text, or that memory ran out.
fn explained_bytes<'a, T: Explain<&'a str>>(
    alloc: Global,
    json: &'a [u8],
    depth: u32,
    error: Error,
) -> Explanation
    requires { depth ≤ 1024 }
    ensures error { (result.error ≡ error) ⊎ (result.error ≡ no_memory) }
    ensures explained { (spec_is_refusal error.code ≡ true → (t : Tree) × is_text false t json.now
        × (depth_of t ≤ depth)) → IsExplained depth T.refused json.now result }
{
    match check_utf8(json) {
        Ok(text) => explained::<T>(alloc, text, depth, error),
        Err(_) => Explanation::plain(error),
    }
}

/// Reads a value of type `T` from a JSON text with at most 254 levels of nested arrays and objects,
/// as `json_data::from_str` does.
///
/// If the value of the text is no `T`, the error says which value within it is refused: the path to
/// the innermost one, its line and column, what was found and what was wanted. Otherwise it is the
/// error of `json_data::from_str`. Fails with `NoMemory` if memory runs out, also while an error is
/// explained.
pub fn from_str<'a, T: Explain<&'a str>>(
    alloc: Global,
    text: &'a str,
) -> std::result::Result<T, Explanation>
    ensures ok { IfOk result (λ v. ReadsTypedText 254 T.from_tree text.now (gives (T.datum v))) }
    ensures place { IfOk result (T.placed IsPackedAtRoot) }
    ensures err { IfErr result (λ x.
        TypedReadingFails 254 T.from_tree text.now x.error.code x.error.place) }
    ensures explained { IfErr result (IsExplained 254 T.refused text.now) }
{
    match json_data::from_str::<T>(alloc, text) {
        Ok(value) => Ok(value),
        Err(error) => Err(explained::<T>(alloc, text, LEVELS, error)),
    }
}

/// Reads a value of type `T` from the bytes of a JSON text, as `json_data::from_slice` does. Errors
/// say which value is refused, as those of [`from_str`] do.
///
/// ```
/// use json_explain::from_slice;
/// let error = from_slice::<Vec<u8>>(alloc, b"[1,\n true]").err().ok_or("no error")?;
/// let shown = format!(in alloc; "{error}")?;
/// assert_eq!(rt; shown.as_str(), "line 2 column 2, path \"/1\": a boolean, where an integer from 0 to 255 is wanted");
/// ```
pub fn from_slice<'a, T: Explain<&'a str>>(
    alloc: Global,
    json: &'a [u8],
) -> std::result::Result<T, Explanation>
    ensures ok { IfOk result (λ v. ReadsTypedText 254 T.from_tree json.now (gives (T.datum v))) }
    ensures place { IfOk result (T.placed IsPackedAtRoot) }
    ensures err { IfErr result (λ x.
        TypedReadingFails 254 T.from_tree json.now x.error.code x.error.place) }
    ensures explained { IfErr result (IsExplained 254 T.refused json.now) }
{
    match json_data::from_slice::<T>(alloc, json) {
        Ok(value) => Ok(value),
        Err(error) => Err(explained_bytes::<T>(alloc, json, LEVELS, error)),
    }
}

/// Reads a value of type `T` from the bytes of a JSON text by rules that the caller chooses, as
/// `json_data::from_slice_with` does: how many levels the text may have, and whether the names
/// within an object have to differ. Errors say which value is refused, as those of [`from_str`] do.
///
/// ```
/// use json_explain::from_slice_with;
/// use json_text::Rules;
/// let rules = Rules::new(2, false).ok_or("too many levels")?;
/// let error = from_slice_with::<Vec<u8>>(alloc, b"[[]]", rules).err().ok_or("no error")?;
/// let shown = format!(in alloc; "{error}")?;
/// assert_eq!(rt; shown.as_str(), "line 1 column 2, path \"/0\": an array, where an integer from 0 to 255 is wanted");
/// ```
pub fn from_slice_with<'a, T: Explain<&'a str>>(
    alloc: Global,
    json: &'a [u8],
    rules: Rules,
) -> std::result::Result<T, Explanation>
    ensures ok { IfOk result (λ v.
        ReadsTextWith (rules_of rules) T.from_tree json.now (gives (T.datum v))) }
    ensures place { IfOk result (T.placed IsPackedAtRoot) }
    ensures err { IfErr result (λ x.
        TypedReadingFailsWith (rules_of rules) T.from_tree json.now x.error.code x.error.place) }
    ensures explained { IfErr result (IsExplained (rules_of rules).limit T.refused json.now) }
{
    match json_data::from_slice_with::<T>(alloc, json, rules) {
        Ok(value) => Ok(value),
        Err(error) => Err(explained_bytes::<T>(alloc, json, rules.depth(), error)),
    }
}

// Puts all that the source has left into the room, in place of what it had.
fn fill_room<S: Source>(alloc: Global, source: &mut S, room: &mut Vec<u8>) -> Result<()>
    ensures bytes { OnOk result
        (ReadsWithin most (S.state source.old) (S.state source.new) room.new.items) }
    ensures kept { OnErr result (room.new ≡ room.old) }
    ensures cause { IfErr result (λ e.
        ReadingCause most (S.state source.old) (S.state source.new) e.code e.place) }
    ensures read_error { (S.state source.old).faults < (S.state source.new).faults
        → IsErrOf result reading_failed }
    ensures taken { TakesOneBeyond most (S.state source.old) (S.state source.new) }
{
    let bytes = read_all(alloc, source, MOST)?;
    *room = bytes;
    Ok(())
}

/// Reads all bytes that are left in `source`, and a value of type `T` from them, as
/// `json_data::from_reader` does. The bytes replace what `room` had; the value may borrow from
/// `room`. Errors say which value is refused, as those of [`from_str`] do.
///
/// ```
/// use json_explain::from_reader;
/// let mut source: &[u8] = b"[1,\n true]";
/// let mut room = Vec::new(alloc);
/// let read = from_reader::<&[u8], Vec<u8>>(alloc, &mut source, &mut room);
/// let error = read.err().ok_or("no error")?;
/// assert_eq!(rt; (error.line(), error.column()), (Some(2), Some(2)));
/// ```
pub fn from_reader<'a, S: Source, T: Explain<&'a str>>(
    alloc: Global,
    source: &mut S,
    room: &'a mut Vec<u8>,
) -> std::result::Result<T, Explanation>
    ensures ok { IfOk result (λ v.
        ReadsSource (S.state source.old) (S.state source.new) T.from_tree (gives (T.datum v))) }
    ensures place { IfOk result (T.placed IsPackedAtRoot) }
    ensures err { IfErr result (λ x. SourceFails (S.state source.old) (S.state source.new)
        T.from_tree x.error.code x.error.place) }
    ensures refused { IfErr result (λ x. spec_is_refusal x.error.code ≡ true
        → (b : List ℕ) × ReadsWithin most (S.state source.old) (S.state source.new) b
        × TextRefused 254 T.refused b (refused_in x.refusal) x.place) }
    ensures plain { IfErr result (λ x. spec_is_refusal x.error.code ≡ false → x.refusal ≡ None) }
    ensures elsewhere { IfErr result (λ x. x.refusal ≡ None → x.place ≡ x.error.place) }
    ensures read_error { (S.state source.old).faults < (S.state source.new).faults
        → IsErr result × IfErr result (λ x. x.error ≡ reading_failed) }
    ensures taken { TakesOneBeyond most (S.state source.old) (S.state source.new) }
{
    match fill_room(alloc, source, room) {
        Ok(()) => from_slice(alloc, room.as_slice()),
        Err(error) => Err(Explanation::plain(error)),
    }
}

/// Reads a value of type `T` from a `Value`, as `json_data::from_value` does. If the `Value` is no
/// `T`, the error has the path to the innermost value that is refused, what was found and what was
/// wanted, but no line and no column. Fails with `NoMemory` if memory runs out.
///
/// ```
/// use json_explain::from_value;
/// use json_value::Value;
/// let value = Value::from_vec(vec![in alloc; Value::new_bool(true), Value::new_null()]?);
/// let error = from_value::<Vec<bool>>(alloc, &value).err().ok_or("no error")?;
/// let shown = format!(in alloc; "{error}")?;
/// assert_eq!(rt; shown.as_str(), "path \"/1\": null, where true or false is wanted");
/// ```
pub fn from_value<'a, T: Explain<&'a str>>(
    alloc: Global,
    value: &'a Value,
) -> std::result::Result<T, Explanation>
    ensures ok { IfOk result (λ v. T.from_tree (tree_of value.now) ≡ gives (T.datum v)) }
    ensures place { IfOk result (T.placed (IsMadeOf (whole_value value.now))) }
    ensures err { IfErr result (λ x.
        TreeReadingFails T.from_tree (tree_of value.now) x.error.code x.error.place) }
    ensures refused { IfErr result (λ x. spec_is_refusal x.error.code ≡ true
        → RefusedWhere T.refused (tree_of value.now) (refused_in x.refusal)) }
    ensures plain { IfErr result (λ x. spec_is_refusal x.error.code ≡ false → x.refusal ≡ None) }
    ensures unplaced { IfErr result (λ x. x.place ≡ x.error.place) }
{
    match json_data::from_value::<T>(alloc, value) {
        Ok(value) => Ok(value),
        Err(error) => Err(explained_value::<T>(alloc, value, error)),
    }
}

// Returns an explanation of an error of a value, or that memory ran out.
fn explained_value<'a, T: Explain<&'a str>>(
    alloc: Global,
    value: &'a Value,
    error: Error,
) -> Explanation
    ensures error { (result.error ≡ error) ⊎ (result.error ≡ no_memory) }
    ensures refused { spec_is_refusal result.error.code ≡ true
        → RefusedWhere T.refused (tree_of value.now) (refused_in result.refusal) }
    ensures plain { spec_is_refusal result.error.code ≡ false → result.refusal ≡ None }
    ensures unplaced { result.place ≡ result.error.place }
{
    if !is_refusal(error.code) {
        return Explanation::plain(error);
    }
    let mut tokens = ValueTokens::new(alloc, value.view());
    match T::explain(alloc, &mut tokens) {
        Ok(refusal) => Explanation {
            error,
            refusal,
            place: error.place,
        },
        Err(_) => Explanation::plain(error_without_place(ErrorCode::NoMemory)),
    }
}
