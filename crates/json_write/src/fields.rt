// The members of a program's own type.
ghost use Rattle.std.specs.Prelude.{◌≡◌, None};
ghost use Rattle.json_model.specs.Datum.{Rows, no_rows, row_and, rows_datum, text_datum};
ghost use Rattle.json_print.specs.Data.{parts, rows_parts};
ghost use Rattle.json_print.specs.ExpectedEvents.{AcceptsValue};
ghost use Rattle.json_write.specs.FieldRows.{rows_append, AtKey};
ghost use Rattle.json_write.specs.Writing.{WritesDatumTokens};

use crate::Serialize;
use crate::event_calls::{begin_object, end_rows, give_key};
use json_io::Result;
use json_print::Events;

/// The members of an object in the order in which they are written: one [`Field`], or a pair of two
/// `Fields`, the second written after the first.
///
/// ```
/// use json_print::Serializer;
/// use json_text::VecSink;
/// use json_write::{Field, Fields, serialize_fields};
/// let mut out = Serializer::new(alloc, VecSink::new(alloc));
/// let (born, died) = (1815u16, 1852u16);
/// let fields = (Field { name: "born", value: &born }, Field { name: "died", value: &died });
/// serialize_fields(&fields, &mut out)?;
/// assert_eq!(rt; out.into_inner().as_slice(), b"{\"born\":1815,\"died\":1852}".as_slice());
/// ```
pub trait Fields {
    /// The keys and values of the members.
    ghost rows: { Self → Rows };

    /// Writes the members to `out`, and stops at the first error that `out` or a value returns,
    /// which is returned. `out` has to be where a key may come. If a call of `out` failed before,
    /// returns that error again and writes nothing.
    fn give<E: Events>(&self, out: &mut E) -> Result<()>
        requires { E.failed out.old ≡ None → AtKey (E.token_state (E.state out.old)) }
        ensures { WritesDatumTokens E.after E.stopped (E.state out.old) (E.state out.new)
            (E.failed out.old) (E.failed out.new) (rows_parts (rows self.now)) result };
}

/// A member of an object that is to be written: its key and its value.
///
/// ```
/// use json_print::Serializer;
/// use json_text::VecSink;
/// use json_write::{Field, serialize_fields};
/// let mut out = Serializer::new(alloc, VecSink::new(alloc));
/// serialize_fields(&Field { name: "ready", value: &true }, &mut out)?;
/// assert_eq!(rt; out.into_inner().as_slice(), b"{\"ready\":true}".as_slice());
/// ```
#[derive(Clone, Copy)]
pub struct Field<'k, 'v, V> {
    /// The key.
    pub name: &'k str,
    /// The value, which is written with its own [`Serialize`].
    pub value: &'v V,
}

impl<'k, 'v, V: Serialize> Fields for Field<'k, 'v, V> {
    ghost rows = { λ f. row_and (text_datum f.name.now) (V.datum f.value.now) no_rows };

    #[inline(always)]
    fn give<E: Events>(&self, out: &mut E) -> Result<()> {
        give_key(self.name, out)?;
        self.value.serialize(out)
    }
}

impl<A: Fields, B: Fields> Fields for (A, B) {
    ghost rows = { λ p. rows_append (A.rows p.0) (B.rows p.1) };

    #[inline(always)]
    fn give<E: Events>(&self, out: &mut E) -> Result<()> {
        self.0.give(out)?;
        self.1.give(out)
    }
}

/// Writes an object with these members to `out`: all that [`Serialize::serialize`] of a type with
/// fields has to do. Stops at the first error that `out` or a value returns, and returns it. `out`
/// has to be where a value may come.
#[inline(always)]
pub fn serialize_fields<F: Fields, E: Events>(fields: &F, out: &mut E) -> Result<()>
    requires { AcceptsValue (E.failed out.old) (E.token_state (E.state out.old)) }
    ensures { WritesDatumTokens E.after E.stopped (E.state out.old) (E.state out.new)
        (E.failed out.old) (E.failed out.new) (parts (rows_datum (F.rows fields.now))) result }
{
    begin_object(None, out)?;
    fields.give(out)?;
    end_rows(out)
}
