// The layout that a text has.
ghost use Rattle.std.specs.Prelude.{◌≡◌, option_map};
ghost use Rattle.std.specs.List.{take_while};
ghost use Rattle.mezdruk_files.specs.FoundLayouts.{is_whitespace, after_whitespace, gap_before_first, gap_after_bracket, after_newline, found_indent, ends_line as line_ends, IsFoundStyle};
ghost use Rattle.json_grammar.specs.Grammar.{ws};

use json_layout::Style;
use json_scan::ws_run;
use memchr::memrchr;

// Returns the whitespace that the bytes begin with, and the bytes after it.
fn split_whitespace(bytes: &[u8]) -> (&[u8], &[u8])
    ensures gap { result.0.now ≡ take_while is_whitespace bytes.now }
    ensures rest { result.1.now ≡ after_whitespace bytes.now }
{
    bytes.split_at(ws_run(bytes, 0))
}

// Returns the whitespace before the first member or element, of the bytes after the bracket.
fn gap_before_first(bytes: &[u8]) -> &[u8]
    ensures { result.now ≡ gap_before_first bytes.now }
{
    let (gap, later) = split_whitespace(bytes);
    match later {
        [] | [b']' | b'}', ..] => &bytes[..0],
        _ => gap,
    }
}

// Returns the whitespace after the bracket that the bytes begin with; nothing if they begin with
// none.
fn gap_after_bracket(bytes: &[u8]) -> &[u8]
    ensures { result.now ≡ gap_after_bracket bytes.now }
{
    match bytes {
        [b'[' | b'{', rest @ ..] => gap_before_first(rest),
        _ => &bytes[..0],
    }
}

// Returns the bytes after the last newline, if there is one.
fn after_newline(bytes: &[u8]) -> Option<&[u8]>
    ensures { option_map (λ s. s.now) result ≡ after_newline bytes.now }
{
    match memrchr(b'\n', bytes) {
        Some(newline) => Some(&bytes[newline + 1..]),
        None => None,
    }
}

// Returns the text of whitespace.
fn whitespace_text(space: &[u8]) -> &str
    requires { ws space.now }
    ensures { result.now ≡ space.now }
{
    match str::from_utf8(space) {
        Ok(text) => text,
        Err(_) => unreachable!(),
    }
}

// Returns the whitespace before the first member or element of a text, if that is on a line of its
// own.
fn find_indent(bytes: &[u8]) -> Option<&str>
    ensures { option_map (λ s. s.now) result ≡ found_indent bytes.now }
{
    let (_, value) = split_whitespace(bytes);
    match after_newline(gap_after_bracket(value)) {
        Some(space) => Some(whitespace_text(space)),
        None => None,
    }
}

/// Returns the style that the JSON text in `bytes` has. If the first element or member of its value
/// is on a line of its own, the indent is the whitespace before it on that line. Else the style is
/// compact. The style sorts members if `sorted` is true.
///
/// ```
/// use mezdruk_files::find_style;
/// assert_eq!(rt; find_style(b"{\n\t\"a\": [\n\t\t1\n\t]\n}", false).indent(), Some("\t"));
/// assert_eq!(rt; find_style(b"{\"a\": 1}\n", false).indent(), None);
/// ```
pub fn find_style(bytes: &[u8], sorted: bool) -> Style<'_>
    ensures { IsFoundStyle bytes.now sorted result }
{
    match Style::new(find_indent(bytes), sorted) {
        Some(style) => style,
        None => unreachable!(),
    }
}

/// Returns whether the bytes end with a newline.
pub(crate) fn ends_line(bytes: &[u8]) -> bool
    ensures { result ≡ line_ends bytes.now }
{
    match bytes {
        [.., last] => *last == b'\n',
        [] => false,
    }
}
