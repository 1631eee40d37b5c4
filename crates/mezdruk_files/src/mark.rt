// A byte order mark at the beginning of an input.
ghost use Rattle.std.specs.Prelude.{◌≡◌};
ghost use Rattle.mezdruk_files.specs.Marks.{begins_with_mark, without_mark};

// Returns whether the bytes begin with a byte order mark.
fn has_mark(bytes: &[u8]) -> bool
    ensures { result ≡ begins_with_mark bytes.now }
{
    matches!(bytes, [0xef, 0xbb, 0xbf, ..])
}

/// Puts three spaces in place of a byte order mark at the beginning of `bytes`: the bytes EF BB BF,
/// in hexadecimal. Changes nothing if there is none.
///
/// A reader may ignore the mark (RFC 8259, section 8.1), and spaces before a value mean nothing.
/// They leave each offset as it is, so errors are reported where they are in the input.
///
/// ```
/// use json_text::Rules;
/// use mezdruk_files::{read_value, skip_mark};
/// let mut bytes = b"\xef\xbb\xbf[1]".to_vec(alloc)?;
/// assert!(rt; read_value(alloc, &bytes, Rules::usual()).is_err());
/// skip_mark(bytes.as_mut_slice());
/// assert!(rt; read_value(alloc, &bytes, Rules::usual()).is_ok());
/// ```
#[tactic(auto, using(crate::proofs::Marks::mark_long, crate::proofs::Marks::mark_skipped, crate::proofs::Marks::no_mark))]
pub fn skip_mark(bytes: &mut [u8])
    ensures { bytes.new ≡ without_mark bytes.old }
{
    if has_mark(bytes) {
        bytes[0] = b' ';
        bytes[1] = b' ';
        bytes[2] = b' ';
    }
}
