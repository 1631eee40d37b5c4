// Maps.
ghost use Rattle.std.specs.Prelude.{◌≡◌, None, map};
ghost use Rattle.json_model.specs.Datum.{rows_datum, list_rows, row_of};
ghost use Rattle.json_print.specs.Data.{parts};
ghost use Rattle.json_write.specs.Writing.{WritesDatumTokens};

use crate::event_calls::{begin_object, end_rows, give_key};
use crate::key_errors::key_error;
use crate::{KeyRoom, Serialize};
use json_io::Result;
use json_print::Events;
use std::collections::BTreeMap;

impl<K: Serialize + Ord, V: Serialize> Serialize for BTreeMap<K, V> {
    ghost datum = { λ m. rows_datum (list_rows (map (row_of K.datum V.datum) m.entries)) };

    fn serialize<E: Events>(&self, out: &mut E) -> Result<()> {
        let mut room = KeyRoom::new();
        begin_object(Some(self.len()), out)?;
        for (key, value) in self {
            match key.key(&mut room) {
                None => return Err(key_error()),
                Some(text) => give_key(text, out)?,
            }
            value.serialize(out)?;
        }
        end_rows(out)
    }

    fn key<'k>(&'k self, room: &'k mut KeyRoom) -> Option<&'k str> {
        let _ = room;
        None
    }
}
