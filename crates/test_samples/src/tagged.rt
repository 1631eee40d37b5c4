// A program's own type.
ghost use Rattle.std.specs.Prelude.{codes, map, string_bytes};
ghost use Rattle.json_model.specs.Datum.{text_datum, list_datum, list_data, rows_datum, row_and, no_rows};

use json_print::Events;
use json_text::Result;
use json_write::{Field, KeyRoom, Serialize, serialize_fields};

/// A name with its tags: an object of the members `name` and `tags`, in this order.
///
/// ```
/// use json_write::to_string;
/// use test_samples::tagged::Tagged;
/// let mut tags = Vec::new(alloc);
/// tags.push("poet's daughter")?;
/// let ada = Tagged { name: "Ada", tags };
/// assert_eq!(rt; to_string(alloc, &ada)?.as_str(), "{\"name\":\"Ada\",\"tags\":[\"poet's daughter\"]}");
/// ```
#[derive(Drop)]
pub struct Tagged<'a> {
    /// The name.
    pub name: &'a str,
    /// What is said of it.
    pub tags: Vec<&'a str>,
}

impl Serialize for Tagged<'_> {
    ghost datum = { λ p. rows_datum (row_and (text_datum (codes "name")) (text_datum p.name.now)
        (row_and (text_datum (codes "tags")) (list_datum (list_data (map (λ s. text_datum s.now) p.tags.items)))
        no_rows)) };

    fn serialize<E: Events>(&self, out: &mut E) -> Result<()> {
        let fields = (
            Field {
                name: "name",
                value: &self.name,
            },
            Field {
                name: "tags",
                value: &self.tags,
            },
        );
        serialize_fields(&fields, out)
    }

    fn key<'k>(&'k self, room: &'k mut KeyRoom) -> Option<&'k str> {
        let _ = room;
        None
    }
}
