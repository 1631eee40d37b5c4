// Following the tokens of a pointer (RFC 6901, section 4).
ghost use Rattle.std.specs.Prelude.{◌≡◌, ◌≢◌, ◌<◌, ◌≤◌, ◌^◌, ℕ, Some, IfOk, map, string_bytes, MatchOption, option_map, ok_or};
ghost use Rattle.json_model.specs.Edit.{not_found};
ghost use Rattle.json_patch.specs.Pointer.{index_of_token, value_at_pointer};
ghost use Rattle.json_grammar.specs.Tree.{Tree};
ghost use Rattle.json_value.specs.Seen.{seen, elements_seen, list_of};
ghost use Rattle.json_value.specs.TargetParts.{elements_targets, target_elements};
ghost use Rattle.json_value.specs.ViewTargets.{ViewTarget, view_target};
ghost use Rattle.json_patch.specs.Lookups.{has_index_start, error_of_lookup, found_value, value_at_token};
ghost use Rattle.json_patch.specs.PointerTargets.{target_at_token, target_at_pointer};

use json_io::{Error, ErrorCode, Place};
use json_value::{ArrayView, View};

/// Why a reference token leads to no value.
#[derive(Clone, Copy)]
pub enum LookupError {
    /// The object has no such key, or the array no such index.
    NotFound,
    /// The value is neither an object nor an array.
    TypeUnmatched,
}

impl From<LookupError> for Error {
    ghost from_gives = { λ missing e. e ≡ error_of_lookup missing };

    fn from(missing: LookupError) -> Error {
        let code = match missing {
            LookupError::NotFound => ErrorCode::NotFound,
            LookupError::TypeUnmatched => ErrorCode::TypeUnmatched,
        };
        Error {
            code,
            place: Place::None,
        }
    }
}

// Returns whether the token is `0`, or begins with a digit from 1 to 9.
fn starts_like_index(digits: &str) -> bool
    ensures { result ≡ has_index_start digits.now }
{
    let bytes = digits.as_bytes();
    digits == "0" || !bytes.is_empty() && bytes[0] >= b'1' && bytes[0] <= b'9'
}

// Returns the index that the token is; `None` if it is no index, or one that no array has.
fn parse_index(token: &str) -> Option<usize>
    ensures { MatchOption result ((i : ℕ) → i < 2 ^ 64 → index_of_token token.now ≢ Some i)
        (λ i. index_of_token token.now ≡ Some i) }
{
    if !starts_like_index(token) {
        return None;
    }
    match token.parse::<usize>() {
        Ok(i) => Some(i),
        Err(_) => None,
    }
}

/// Returns the array index that `token` spells (RFC 6901, section 4). Returns `None` if it spells
/// none, or one greater than `last`.
pub fn index_at_most(last: usize, token: &str) -> Option<usize>
    ensures { MatchOption result ((i : ℕ) → index_of_token token.now ≡ Some i → last < i)
        (λ i. (index_of_token token.now ≡ Some i) × (i ≤ last)) }
{
    match parse_index(token) {
        Some(i) if i <= last => Some(i),
        _ => None,
    }
}

// Returns the value, or `NotFound` if there is none.
fn or_not_found<'a>(place: Option<View<'a>>) -> Result<View<'a>, LookupError>
    ensures tree { found_value result ≡ ok_or (option_map seen place.entry) not_found }
    ensures target { IfOk result (λ v. option_map view_target place.entry ≡ Some (view_target v)) }
{
    match place {
        Some(view) => Ok(view),
        None => Err(LookupError::NotFound),
    }
}

// Returns the element at the index that the token is.
fn find_element<'a>(token: &str, array: ArrayView<'a>) -> Result<View<'a>, LookupError>
    ensures tree { (t : Tree) → Some (elements_seen array.entry) ≡ list_of t
        → found_value result ≡ value_at_token token.now t }
    ensures target { (t : Tree) (s : ViewTarget) → Some (elements_seen array.entry) ≡ list_of t
        → Some (elements_targets array.entry) ≡ target_elements s
        → IfOk result (λ v. target_at_token token.now t s ≡ Some (view_target v)) }
{
    match index_at_most(array.len(), token) {
        Some(i) => or_not_found(array.get(i)),
        None => Err(LookupError::NotFound),
    }
}

/// Returns the value that `token` references in `here`: an element by its index, or the value of
/// the first member with that key.
///
/// Fails with `NotFound` if there is none, and with `TypeUnmatched` if `here` is neither an array
/// nor an object.
pub fn find_child<'a>(token: &str, here: View<'a>) -> Result<View<'a>, LookupError>
    ensures tree { found_value result ≡ value_at_token token.now (seen here.entry) }
    ensures target { IfOk result (λ v. target_at_token token.now (seen here.entry)
        (view_target here.entry) ≡ Some (view_target v)) }
{
    if let Some(array) = here.as_array() {
        return find_element(token, array);
    }
    match here.as_object() {
        Some(object) => or_not_found(object.get(token)),
        None => Err(LookupError::TypeUnmatched),
    }
}

/// Returns the value that the tokens reference in `root` (RFC 6901, section 4).
///
/// Fails with `NotFound` if there is none, and with `TypeUnmatched` if a token meets a value that
/// is neither an array nor an object.
pub fn find_value<'a>(tokens: &[String], root: View<'a>) -> Result<View<'a>, LookupError>
    ensures tree { found_value result
        ≡ value_at_pointer (map string_bytes tokens.now) (seen root.entry) }
    ensures target { IfOk result (λ v. target_at_pointer (map string_bytes tokens.now)
        (seen root.entry) (view_target root.entry) ≡ Some (view_target v)) }
{
    let mut here = root;
    for token in tokens {
        here = find_child(token, here)?;
    }
    Ok(here)
}
