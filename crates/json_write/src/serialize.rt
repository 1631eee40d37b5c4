// What can be written.
ghost use Rattle.std.specs.Prelude.{◌≡◌, option_map};
ghost use Rattle.json_print.specs.ExpectedEvents.{AcceptsValue};
ghost use Rattle.json_model.specs.Datum.{Datum, key_of};
ghost use Rattle.json_print.specs.Data.{parts};
ghost use Rattle.json_write.specs.Writing.{WritesDatumTokens};

use crate::KeyRoom;
use json_io::Result;
use json_print::Events;

/// A type whose values can be written as JSON. Each value stands for a datum: null, a boolean, an
/// integer, a string, the literal of a number, a list, or rows of keys and values.
///
/// ```
/// use json_write::to_string;
/// let rates: Vec<Option<u8>> = vec![in alloc; Some(7), None]?;
/// assert_eq!(rt; to_string(alloc, &rates)?.as_str(), "[7,null]");
/// ```
pub trait Serialize {
    /// The datum that a value stands for.
    ghost datum: { Self → Datum };

    /// Writes the value to `out`, token by token, and stops at the first error that `out` returns,
    /// which is returned. Fails with `SerExpectKeyIsStrOrNum` if a key has no text; the tokens
    /// before the first such key were then written. `out` has to be where a value may come. If a
    /// call of `out` failed before, returns that error again and writes nothing.
    fn serialize<E: Events>(&self, out: &mut E) -> Result<()>
        requires { AcceptsValue (E.failed out.old) (E.token_state (E.state out.old)) }
        ensures { WritesDatumTokens E.after E.stopped (E.state out.old) (E.state out.new)
            (E.failed out.old) (E.failed out.new)
            (parts (datum self.now)) result };

    /// Returns the text of the value as the key of a member: a string is its own text, an integer
    /// has its decimal text, and a boolean has `true` or `false`. Returns `None` for everything
    /// else. A text that is not the value's own is written into `room`, and is valid as long as
    /// `room` and the value are borrowed. Takes no memory.
    fn key<'k>(&'k self, room: &'k mut KeyRoom) -> Option<&'k str>
        ensures { option_map (λ s. s.now) result ≡ key_of (datum self.now) };
}
