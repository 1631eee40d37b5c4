// Texts as a source of tokens lends them.
ghost use Rattle.std.specs.Prelude.{◌≡◌, ◌↔◌, ℕ, List, None, IsSome, IfOk, IfSome, string_bytes};
ghost use Rattle.std.specs.Cow.{cow_str_bytes, IsBorrowedStr};
ghost use Rattle.json_io.specs.Errors.{OnlyNoMemory};
ghost use Rattle.json_text.specs.Spelled.{NoEscape};
ghost use Rattle.json_tokens.specs.Pieces.{Says};

use crate::input_str::InputStr;
use json_io::{Error, ErrorCode, Place, Result};
use json_text::Span;
use std::alloc::{AllocError, Global};
use std::borrow::CowStr;
use std::str::from_utf8_unchecked;

/// A string or a key as a source of tokens lends it: its characters between the quotes. If escapes
/// are among them, these are not read yet.
///
/// ```
/// use json_tokens::Piece;
/// let piece = Piece::plain("Ada");
/// assert_eq!(rt; piece.lent(), Some("Ada"));
/// assert_eq!(rt; piece.copy(alloc)?.as_str(), "Ada");
/// ```
pub struct Piece<S: InputStr> {
    /// The characters between the quotes, as the source has them.
    pub text: S,
    /// `None` if the text has no escapes. Otherwise whether they are read in the lossy mode, in
    /// which the escape of a surrogate that is alone is U+FFFD (RFC 8259, section 8.2).
    pub escaped: Option<bool>,
    pub ghost spells: { ∥ ((s : List ℕ) × Says s escaped (S.bytes text)) ∥₁ },
    pub ghost marked: { IsSome escaped → ¬ (NoEscape (S.bytes text)) },
}

impl<S: InputStr> Clone for Piece<S> {
    ghost is_clone = { λ x y. y ≡ x };

    ghost is_infallible = { λ _. Unit {0} };

    fn clone(&self) -> std::result::Result<Piece<S>, AllocError> {
        Ok(*self)
    }
}

impl<S: InputStr> Copy for Piece<S> {}

impl<S: InputStr> Piece<S> {
    /// Creates a piece from a text that has no escapes: `text` is what it says.
    #[inline(always)]
    pub fn plain(text: S) -> Piece<S>
        ensures escaped { result.escaped ≡ None }
        ensures text { S.bytes result.text ≡ S.bytes text }
    {
        Piece {
            text,
            escaped: None,
        }
    }

    /// Returns the text as the source lends it, or `None` exactly if it has escapes.
    #[inline(always)]
    pub fn lent(self) -> Option<S>
        ensures text { IfSome result (λ t. (s : List ℕ) → Says s self.escaped (S.bytes self.text)
            → s ≡ S.bytes t) }
        ensures exactly { IsSome result ↔ (self.escaped ≡ None) }
    {
        if self.escaped.is_some() {
            None
        } else {
            Some(self.text)
        }
    }

    /// Returns the text with its escapes read: borrowed from the piece, or a string of its own if
    /// that needs memory. Fails with `NoMemory` if memory runs out.
    #[inline(always)]
    pub fn to_text(&self, alloc: Global) -> Result<CowStr<'_>>
        ensures ok { IfOk result (λ v. (s : List ℕ)
            → Says s self.now.escaped (S.bytes self.now.text) → s ≡ cow_str_bytes v) }
        ensures err { OnlyNoMemory result }
    {
        match self.escaped {
            None => Ok(CowStr::Borrowed(self.text.as_text())),
            Some(_) => Ok(CowStr::Owned(self.copy(alloc)?)),
        }
    }

    /// Returns the text, with its escapes read, as a string of its own. Fails with `NoMemory` if
    /// memory runs out.
    #[inline]
    pub fn copy(self, alloc: Global) -> Result<String>
        ensures ok { IfOk result (λ v. (s : List ℕ) → Says s self.escaped (S.bytes self.text)
            → s ≡ string_bytes v) }
        ensures err { OnlyNoMemory result }
    {
        let Some(lossy) = self.escaped else {
            return Ok(String::from_str(alloc, self.text.as_text())?);
        };
        let span = Span {
            raw: self.text.as_text(),
            escaped: true,
            lossy,
        };
        let mut bytes = Vec::with_capacity(alloc, span.raw_len())?;
        span.unescape_into(&mut bytes);
        // what a text spells is UTF-8, and mostly shorter: it takes no more room than it needs
        let text = unsafe { from_utf8_unchecked(bytes.as_slice()) };
        Ok(String::from_str(alloc, text)?)
    }
}

/// Returns the text of a piece with its escapes read: borrowed for `'a` exactly if it has no
/// escapes, and a string of its own otherwise. Fails with `NoMemory` if memory runs out.
#[inline]
pub fn lend<'a>(piece: Piece<&'a str>, alloc: Global) -> Result<CowStr<'a>>
    ensures ok { IfOk result (λ v. (s : List ℕ) → Says s piece.entry.escaped piece.entry.text.now
        → s ≡ cow_str_bytes v) }
    ensures lent { IfOk result (λ v. IsBorrowedStr v ↔ (piece.entry.escaped ≡ None)) }
    ensures err { OnlyNoMemory result }
{
    match piece.lent() {
        Some(text) => Ok(CowStr::Borrowed(text)),
        None => Ok(CowStr::Owned(piece.copy(alloc)?)),
    }
}
