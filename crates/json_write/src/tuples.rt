// Tuples: arrays of a fixed number of elements.
ghost use Rattle.std.specs.Prelude.{List, [], ◌∷◌};
ghost use Rattle.json_print.specs.ExpectedEvents.{AcceptsValue};
ghost use Rattle.json_model.specs.Datum.{Datum, list_datum, list_data};
ghost use Rattle.json_print.specs.Data.{parts};
ghost use Rattle.json_write.specs.Elements.{AcceptsElement, elements_and_end};
ghost use Rattle.json_write.specs.Writing.{WritesDatumTokens};

use crate::event_calls::{begin_list, end_list};
use crate::{KeyRoom, Serialize};
use json_io::Result;
use json_print::Events;

/// The last elements of a tuple, each of a type of its own: a pair of one element and the elements
/// after it, or `()` where there are none.
trait WriteElements {
    /// What the elements mean.
    ghost datums: { Self → List Datum };

    /// Writes the elements and the end of their array to `out`, where an element may come. Fails
    /// with the first error that `out` or an element returns, and writes nothing after it.
    fn write<E: Events>(&self, out: &mut E) -> Result<()>
        requires { AcceptsElement (E.failed out.old) (E.token_state (E.state out.old)) }
        ensures { WritesDatumTokens E.after E.stopped (E.state out.old) (E.state out.new)
            (E.failed out.old) (E.failed out.new) (elements_and_end (datums self.now)) result };
}

impl WriteElements for () {
    ghost datums = { λ _. [] };

    #[inline(always)]
    fn write<E: Events>(&self, out: &mut E) -> Result<()> {
        end_list(out)
    }
}

impl<'a, A: Serialize, R: WriteElements> WriteElements for (&'a A, R) {
    ghost datums = { λ p. A.datum p.0.now ∷ R.datums p.1 };

    #[inline(always)]
    fn write<E: Events>(&self, out: &mut E) -> Result<()> {
        self.0.serialize(out)?;
        self.1.write(out)
    }
}

/// Writes an array of these elements to `out`, where a value may come. `count` is how many they
/// are. Fails with the first error that `out` or an element returns, and writes nothing after it.
#[inline(always)]
fn write_array<P: WriteElements, E: Events>(elements: &P, count: usize, out: &mut E) -> Result<()>
    requires { AcceptsValue (E.failed out.old) (E.token_state (E.state out.old)) }
    ensures { WritesDatumTokens E.after E.stopped (E.state out.old) (E.state out.new)
        (E.failed out.old) (E.failed out.new)
        (parts (list_datum (list_data (P.datums elements.now)))) result }
{
    begin_list(Some(count), out)?;
    elements.write(out)
}

impl<A: Serialize, B: Serialize> Serialize for (A, B) {
    ghost datum = { λ s. list_datum (list_data (A.datum s.0 ∷ B.datum s.1 ∷ [])) };

    fn serialize<Out: Events>(&self, out: &mut Out) -> Result<()> {
        let elements = (&self.0, (&self.1, ()));
        write_array(&elements, 2, out)
    }

    fn key<'k>(&'k self, room: &'k mut KeyRoom) -> Option<&'k str> {
        let _ = room;
        None
    }
}

impl<A: Serialize, B: Serialize, C: Serialize> Serialize for (A, B, C) {
    ghost datum = { λ s. list_datum (list_data (A.datum s.0 ∷ B.datum s.1 ∷ C.datum s.2 ∷ [])) };

    fn serialize<Out: Events>(&self, out: &mut Out) -> Result<()> {
        let elements = (&self.0, (&self.1, (&self.2, ())));
        write_array(&elements, 3, out)
    }

    fn key<'k>(&'k self, room: &'k mut KeyRoom) -> Option<&'k str> {
        let _ = room;
        None
    }
}

impl<A: Serialize, B: Serialize, C: Serialize, D: Serialize> Serialize for (A, B, C, D) {
    ghost datum = { λ s. list_datum (list_data (A.datum s.0 ∷ B.datum s.1 ∷ C.datum s.2
        ∷ D.datum s.3 ∷ [])) };

    fn serialize<Out: Events>(&self, out: &mut Out) -> Result<()> {
        let elements = (&self.0, (&self.1, (&self.2, (&self.3, ()))));
        write_array(&elements, 4, out)
    }

    fn key<'k>(&'k self, room: &'k mut KeyRoom) -> Option<&'k str> {
        let _ = room;
        None
    }
}

impl<A: Serialize, B: Serialize, C: Serialize, D: Serialize, E: Serialize> Serialize
    for (A, B, C, D, E) {
    ghost datum = { λ s. list_datum (list_data (A.datum s.0 ∷ B.datum s.1 ∷ C.datum s.2
        ∷ D.datum s.3 ∷ E.datum s.4 ∷ [])) };

    fn serialize<Out: Events>(&self, out: &mut Out) -> Result<()> {
        let elements = (&self.0, (&self.1, (&self.2, (&self.3, (&self.4, ())))));
        write_array(&elements, 5, out)
    }

    fn key<'k>(&'k self, room: &'k mut KeyRoom) -> Option<&'k str> {
        let _ = room;
        None
    }
}

impl<A: Serialize, B: Serialize, C: Serialize, D: Serialize, E: Serialize, F: Serialize> Serialize
    for (A, B, C, D, E, F) {
    ghost datum = { λ s. list_datum (list_data (A.datum s.0 ∷ B.datum s.1 ∷ C.datum s.2
        ∷ D.datum s.3 ∷ E.datum s.4 ∷ F.datum s.5 ∷ [])) };

    fn serialize<Out: Events>(&self, out: &mut Out) -> Result<()> {
        let elements = (
            &self.0,
            (&self.1, (&self.2, (&self.3, (&self.4, (&self.5, ()))))),
        );
        write_array(&elements, 6, out)
    }

    fn key<'k>(&'k self, room: &'k mut KeyRoom) -> Option<&'k str> {
        let _ = room;
        None
    }
}

impl<
    A: Serialize,
    B: Serialize,
    C: Serialize,
    D: Serialize,
    E: Serialize,
    F: Serialize,
    G: Serialize,
> Serialize for (A, B, C, D, E, F, G) {
    ghost datum = { λ s. list_datum (list_data (A.datum s.0 ∷ B.datum s.1 ∷ C.datum s.2
        ∷ D.datum s.3 ∷ E.datum s.4 ∷ F.datum s.5 ∷ G.datum s.6 ∷ [])) };

    fn serialize<Out: Events>(&self, out: &mut Out) -> Result<()> {
        let elements = (
            &self.0,
            (
                &self.1,
                (&self.2, (&self.3, (&self.4, (&self.5, (&self.6, ()))))),
            ),
        );
        write_array(&elements, 7, out)
    }

    fn key<'k>(&'k self, room: &'k mut KeyRoom) -> Option<&'k str> {
        let _ = room;
        None
    }
}

impl<
    A: Serialize,
    B: Serialize,
    C: Serialize,
    D: Serialize,
    E: Serialize,
    F: Serialize,
    G: Serialize,
    H: Serialize,
> Serialize for (A, B, C, D, E, F, G, H) {
    ghost datum = { λ s. list_datum (list_data (A.datum s.0 ∷ B.datum s.1 ∷ C.datum s.2
        ∷ D.datum s.3 ∷ E.datum s.4 ∷ F.datum s.5 ∷ G.datum s.6 ∷ H.datum s.7 ∷ [])) };

    fn serialize<Out: Events>(&self, out: &mut Out) -> Result<()> {
        let elements = (
            &self.0,
            (
                &self.1,
                (
                    &self.2,
                    (&self.3, (&self.4, (&self.5, (&self.6, (&self.7, ()))))),
                ),
            ),
        );
        write_array(&elements, 8, out)
    }

    fn key<'k>(&'k self, room: &'k mut KeyRoom) -> Option<&'k str> {
        let _ = room;
        None
    }
}
