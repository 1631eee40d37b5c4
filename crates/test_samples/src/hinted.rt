// Lists that hint a wrong length.
ghost use Rattle.std.specs.Prelude.{◌≡◌, pos, None};
ghost use Rattle.json_model.specs.Datum.{integer_datum, list_datum, no_data, datum_and};

use json_print::Events;
use json_text::Result;
use json_write::{KeyRoom, Serialize, begin_list, end_list};

/// A list of one integer, which hints that it has no element.
///
/// ```
/// use json_write::to_string;
/// use test_samples::hinted::Understated;
/// assert_eq!(rt; to_string(alloc, &Understated { n: 7 })?.as_str(), "[7]");
/// ```
#[derive(Clone, Copy)]
pub struct Understated {
    /// The element.
    pub n: u8,
}

impl Serialize for Understated {
    ghost datum = { λ s. list_datum (datum_and (integer_datum (pos s.n)) no_data) };

    fn serialize<E: Events>(&self, out: &mut E) -> Result<()> {
        begin_list(Some(0), out)?;
        self.n.serialize(out)?;
        end_list(out)
    }

    fn key<'k>(&'k self, room: &'k mut KeyRoom) -> Option<&'k str> {
        let _ = room;
        None
    }
}

/// A list without elements, which hints that nine follow.
///
/// ```
/// use json_write::to_string;
/// use test_samples::hinted::Overstated;
/// assert_eq!(rt; to_string(alloc, &Overstated)?.as_str(), "[]");
/// ```
#[derive(Clone, Copy)]
pub struct Overstated;

impl Serialize for Overstated {
    ghost datum = { λ _. list_datum no_data };

    fn serialize<E: Events>(&self, out: &mut E) -> Result<()> {
        begin_list(Some(9), out)?;
        end_list(out)
    }

    fn key<'k>(&'k self, room: &'k mut KeyRoom) -> Option<&'k str> {
        let _ = room;
        None
    }
}
