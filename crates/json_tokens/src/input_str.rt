// What a source of tokens lends.
ghost use Rattle.std.specs.Prelude.{◌≡◌, ℕ, List};

/// How a source of tokens lends texts: a type of borrowed strings. `&'de str` is the one of this
/// library; it borrows from the input for `'de`.
///
/// ```
/// use json_tokens::InputStr;
/// let text: &str = "Ada";
/// assert_eq!(rt; text.as_text(), "Ada");
/// ```
pub trait InputStr: Copy {
    /// The bytes of the text.
    ghost bytes: { Self → List ℕ };

    /// Returns the text, for as long as `self` is borrowed.
    fn as_text(&self) -> &str
        ensures { result.now ≡ bytes self.now };
}

impl<'a> InputStr for &'a str {
    ghost bytes = { λ s. s.now };

    #[inline(always)]
    fn as_text(&self) -> &str {
        *self
    }
}
