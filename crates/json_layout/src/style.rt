// How a text is laid out.
ghost use Rattle.std.specs.Prelude.{option_map};
ghost use Rattle.json_model.specs.Print.{IsIndent};
ghost use Rattle.json_layout.specs.Indents.{indent_is_prop};

use json_scan::ws_run;

/// How a JSON text is printed. With an indent of whitespace each element and each member is on a
/// line of its own; without one there is no whitespace between the tokens. The members of each
/// object may be sorted by their keys.
///
/// ```
/// use json_layout::Style;
/// let style = Style::new(Some("  "), true).ok_or("no indent")?;
/// assert_eq!(rt; style.indent(), Some("  "));
/// assert!(rt; style.sorted());
/// assert!(rt; Style::new(Some("--"), false).is_none());
/// ```
#[derive(Clone, Copy, Debug)]
pub struct Style<'a> {
    indent: Option<&'a str>,
    sorted: bool,
    ghost whitespace: { IsIndent (option_map (λ s. s.now) indent) } by { indent_is_prop (option_map (λ s. s.now) indent) },
}

impl<'a> Style<'a> {
    ghost use Rattle.std.specs.Prelude.{◌≡◌, MatchOption};
    ghost use Rattle.json_layout.specs.Styles.{indent_of, is_sorted};

    /// Creates a style with this indent, or with no whitespace for `None`; `sorted` says whether
    /// members are sorted by their keys. Returns `None` exactly if a byte of the indent is no
    /// whitespace (RFC 8259, section 2).
    pub fn new(indent: Option<&'a str>, sorted: bool) -> Option<Style<'a>>
        ensures { let i = option_map (λ s. s.now) indent.entry in
            MatchOption result (¬ (IsIndent i)) (λ s. (indent_of s ≡ i) × (is_sorted s ≡ sorted)) }
    {
        match indent {
            Some(spaces) if ws_run(spaces.as_bytes(), 0) < spaces.len() => None,
            _ => Some(Style { indent, sorted }),
        }
    }

    /// Returns the indent of the style, or `None` if it has no whitespace between the tokens.
    pub fn indent(self) -> Option<&'a str>
        ensures same { option_map (λ s. s.now) result ≡ indent_of self.entry }
        ensures whitespace { IsIndent (option_map (λ s. s.now) result) }
    {
        self.indent
    }

    /// Returns whether the members of each object are sorted by their keys.
    pub fn sorted(self) -> bool
        ensures { result ≡ is_sorted self.entry }
    {
        self.sorted
    }
}
