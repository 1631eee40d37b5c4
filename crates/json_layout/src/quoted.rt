// Strings by std's formatting.
ghost use Rattle.std.specs.Prelude.{◌≡◌, Some, MatchOption};
ghost use Rattle.std.specs.Fmt.{WritesOnOk};
ghost use Rattle.json_model.specs.Print.{quoted, shown_byte, shown_bytes, unit_escape};
ghost use Rattle.json_scan.specs.Runs.{IsPlain};

use json_scan::plain_run;
use std::fmt;

/// A text that std's formatting, such as `format!`, shows as a JSON string (RFC 8259, section 7):
/// between quotes, and escaped where it has to be.
///
/// ```
/// use json_layout::Quoted;
/// let shown = format!(in alloc; "{}", Quoted("say \"hi\"\n"))?;
/// assert_eq!(rt; shown.as_str(), "\"say \\\"hi\\\"\\n\"");
/// ```
#[derive(Clone, Copy)]
pub struct Quoted<'a>(pub &'a str);

impl fmt::Display for Quoted<'_> {
    ghost output = { λ q. Some (quoted q.0.now) };

    fn fmt<W: fmt::Write>(&self, f: &mut fmt::Formatter<W>) -> fmt::Result {
        f.write_str("\"")?;
        write_escaped(self.0, f)?;
        f.write_str("\"")
    }
}

fn write_escaped<W: fmt::Write>(text: &str, f: &mut fmt::Formatter<W>) -> fmt::Result
    ensures { WritesOnOk W.write_str_gives f.old result (shown_bytes text.now) f.new }
{
    let bytes = text.as_bytes();
    let mut at = 0;
    'runs: loop {
        let end = plain_run(bytes, at);
        f.write_str(&text[at..end])?;
        if end == bytes.len() {
            return Ok(());
        }
        write_escape(bytes[end], f)?;
        at = end + 1;
    }
}

// Returns the backslash and the letter that denote the byte, if two characters do.
#[tactic(auto, using(crate::proofs::Escapes::control_shown), unfolding(json_model::specs::Print::shown_byte))]
fn shown_escape(byte: u8) -> Option<&'static str>
    requires { ¬ (IsPlain byte) }
    ensures { MatchOption result (shown_byte byte ≡ unit_escape byte)
        (λ escape. escape.now ≡ shown_byte byte) }
{
    match byte {
        b'"' => Some("\\\""),
        b'\\' => Some("\\\\"),
        0x08 => Some("\\b"),
        b'\t' => Some("\\t"),
        b'\n' => Some("\\n"),
        0x0c => Some("\\f"),
        b'\r' => Some("\\r"),
        _ => None,
    }
}

fn write_escape<W: fmt::Write>(byte: u8, f: &mut fmt::Formatter<W>) -> fmt::Result
    requires { ¬ (IsPlain byte) }
    ensures { WritesOnOk W.write_str_gives f.old result (shown_byte byte) f.new }
{
    match shown_escape(byte) {
        Some(escape) => f.write_str(escape),
        None => write!(f, "\\u00{byte:02x}"),
    }
}
