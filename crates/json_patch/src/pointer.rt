// JSON Pointer (RFC 6901).
ghost use Rattle.std.specs.Prelude.{◌≡◌, ◌++◌, Some, None, OnOk, OnErr, IfOk, IfErr, IfSome, map, option_map, string_bytes, false, [], Ok};
ghost use Rattle.std.specs.Result.{result_ok};
ghost use Rattle.json_value.specs.Edits.{path_steps, FailsAs};
ghost use Rattle.json_value.specs.Seen.{seen};
ghost use Rattle.json_value.specs.ViewTargets.{view_target};
ghost use Rattle.json_patch.specs.Pointer.{pointer_of, pointer_text, unescaped_after, unescaped_tokens, split_at_slashes, value_at_pointer, escaped_token, tilde, Lacks, AppendsFrontOf, path_of_tokens};
ghost use Rattle.json_patch.specs.Errors.{PointerFails};
ghost use Rattle.json_patch.specs.Lookups.{pointer_tokens};
ghost use Rattle.json_patch.specs.PointerTargets.{target_at_pointer};
ghost use Rattle.json_io.specs.Errors.{OnlyNoMemory};

use crate::error::{PatchCode, PatchError};
use crate::lookup::find_value;
use crate::path::path_to;
use json_io::Result as TextResult;
use json_value::{Path, View};
use std::alloc::Global;

/// A JSON Pointer (RFC 6901): a list of reference tokens. Each token leads one level down, by the
/// key of a member or by the decimal digits of an element's index.
///
/// ```
/// use json_doc::read_document;
/// use json_patch::Pointer;
/// use json_value::View;
/// let doc = read_document(alloc, "{\"a/b\": [true, false]}")?;
/// let pointer = Pointer::parse(alloc, "/a~1b/1")?;
/// let found = pointer.find(View::packed(doc.view())).ok_or("nothing found")?;
/// assert_eq!(rt; found.as_bool(), Some(false));
/// assert_eq!(rt; pointer.to_text(alloc)?.as_str(), "/a~1b/1");
/// ```
#[derive(Drop)]
pub struct Pointer {
    pub(crate) tokens: Vec<String>,
}

fn bad_pointer() -> PatchError
    ensures { result ≡ record { code = PatchCode.BadPointer; op = None } }
{
    PatchError {
        code: PatchCode::BadPointer,
        op: None,
    }
}

// Returns the token of a part between two slashes, unescaped.
fn read_token(alloc: Global, part: &str) -> Result<String, PatchError>
    ensures ok { IfOk result (λ s. unescaped_after false part.now ≡ Some (string_bytes s)) }
    ensures refused { IfErr result (λ e. PointerFails (unescaped_after false part.now)
        e.code e.op) }
{
    let mut token = String::new(alloc);
    let mut remaining = part;
    'tildes: while let Some((plain, after)) = remaining.split_once('~') {
        token.push_str(plain)?;
        if let Some(rest) = after.strip_prefix('0') {
            token.push('~')?;
            remaining = rest;
        } else if let Some(rest) = after.strip_prefix('1') {
            token.push('/')?;
            remaining = rest;
        } else {
            return Err(bad_pointer());
        }
    }
    token.push_str(remaining)?;
    Ok(token)
}

// Returns the tokens of the parts between the slashes, unescaped.
fn read_tokens(alloc: Global, parts: &str) -> Result<Vec<String>, PatchError>
    ensures ok { IfOk result (λ v. unescaped_tokens (split_at_slashes parts.now)
        ≡ Some (map string_bytes v.items)) }
    ensures refused { IfErr result (λ e. PointerFails
        (unescaped_tokens (split_at_slashes parts.now)) e.code e.op) }
{
    let mut tokens = Vec::new(alloc);
    let mut remaining = parts;
    'parts: while let Some((part, after)) = remaining.split_once('/') {
        let token = read_token(alloc, part)?;
        tokens.push(token)?;
        remaining = after;
    }
    let last = read_token(alloc, remaining)?;
    tokens.push(last)?;
    Ok(tokens)
}

// Appends a part of a token that has no `~`, with `~1` for each `/`.
fn push_slashes(text: &mut String, part: &str) -> TextResult<()>
    requires { Lacks tilde part.now }
    ensures ok { OnOk result (string_bytes text.new
        ≡ string_bytes text.old ++ escaped_token part.now) }
    ensures kept { OnErr result (AppendsFrontOf (string_bytes text.old) (string_bytes text.new)
        (escaped_token part.now)) }
    ensures only { OnlyNoMemory result }
{
    let mut remaining = part;
    'slashes: while let Some((plain, after)) = remaining.split_once('/') {
        text.push_str(plain)?;
        text.push_str("~1")?;
        remaining = after;
    }
    text.push_str(remaining)?;
    Ok(())
}

/// Appends the token to `text`, with `~0` for each `~` and `~1` for each `/` (RFC 6901, section 3).
/// Fails with `NoMemory` if memory runs out; a prefix of the escaped token was then appended.
pub fn push_escaped(text: &mut String, token: &str) -> TextResult<()>
    ensures ok { OnOk result (string_bytes text.new
        ≡ string_bytes text.old ++ escaped_token token.now) }
    ensures kept { OnErr result (AppendsFrontOf (string_bytes text.old) (string_bytes text.new)
        (escaped_token token.now)) }
    ensures only { OnlyNoMemory result }
{
    let mut remaining = token;
    'tildes: while let Some((plain, after)) = remaining.split_once('~') {
        push_slashes(text, plain)?;
        text.push_str("~0")?;
        remaining = after;
    }
    push_slashes(text, remaining)
}

impl Pointer {
    /// Parses the text of a pointer (RFC 6901, section 3). The empty text is the pointer without
    /// tokens, which references the root. Any other text has a `/` before each token. In a token
    /// `~1` stands for `/` and `~0` for `~`.
    ///
    /// Fails with `BadPointer` if the text is not a pointer, and with `NoMemory` if memory runs
    /// out.
    pub fn parse(alloc: Global, text: &str) -> Result<Pointer, PatchError>
        ensures ok { IfOk result (λ p. pointer_of text.now ≡ Some (pointer_tokens p)) }
        ensures refused { IfErr result (λ e. PointerFails (pointer_of text.now) e.code e.op) }
    {
        if text.is_empty() {
            return Ok(Pointer {
                tokens: Vec::new(alloc),
            });
        }
        match text.strip_prefix('/') {
            Some(parts) => {
                let tokens = read_tokens(alloc, parts)?;
                Ok(Pointer { tokens })
            }
            None => Err(bad_pointer()),
        }
    }

    /// Returns a view of the value that the pointer references in `root` (RFC 6901, section 4), or
    /// `None` if there is none. If a key repeats, its first member is taken.
    ///
    /// Nothing is copied: the view is of the value within `root`, and is valid as long as `root`
    /// is.
    pub fn find<'a>(&self, root: View<'a>) -> Option<View<'a>>
        ensures tree { option_map seen result
            ≡ result_ok (value_at_pointer (pointer_tokens self.now) (seen root.entry)) }
        ensures target { IfSome result (λ v. target_at_pointer (pointer_tokens self.now)
            (seen root.entry) (view_target root.entry) ≡ Some (view_target v)) }
    {
        match find_value(self.tokens.as_slice(), root) {
            Ok(place) => Some(place),
            Err(_) => None,
        }
    }

    /// Returns the path, as edits of a value take it, that leads from `root` to the value that the
    /// pointer references. Each token becomes an index if it meets an array, and a key if it meets
    /// an object.
    ///
    /// Fails with `NotFound` if an array has no such element or an object no such member. Fails
    /// with `TypeUnmatched` if a token meets any other value, and with `NoMemory` if memory runs
    /// out.
    ///
    /// ```
    /// use json_doc::read_document;
    /// use json_patch::Pointer;
    /// use json_value::View;
    /// let doc = read_document(alloc, "{\"0\": [true]}")?;
    /// let path = Pointer::parse(alloc, "/0/0")?.path_in(alloc, View::packed(doc.view()))?;
    /// assert_eq!(rt; path.steps().len(), 2);
    /// ```
    pub fn path_in(&self, alloc: Global, root: View<'_>) -> TextResult<Path>
        ensures path { IfOk result (λ p. path_of_tokens (pointer_tokens self.now)
            (seen root.entry) ≡ Ok (path_steps p)) }
        ensures refused { FailsAs (path_of_tokens (pointer_tokens self.now) (seen root.entry))
            result }
    {
        let (path, _place) = path_to(alloc, self.tokens.as_slice(), root)?;
        Ok(path)
    }

    /// Returns the text of the pointer (RFC 6901, section 3), from which [`Pointer::parse`] reads
    /// the same tokens. Fails with `NoMemory` if memory runs out.
    pub fn to_text(&self, alloc: Global) -> TextResult<String>
        ensures text { IfOk result (λ s. string_bytes s ≡ pointer_text (pointer_tokens self.now)) }
        ensures parses { IfOk result (λ s. pointer_of (string_bytes s)
            ≡ Some (pointer_tokens self.now)) }
        ensures only { OnlyNoMemory result }
    {
        let mut text = String::new(alloc);
        for token in &self.tokens {
            text.push('/')?;
            push_escaped(&mut text, token.as_str())?;
        }
        Ok(text)
    }
}
