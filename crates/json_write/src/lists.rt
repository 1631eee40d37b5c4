// Lists.
ghost use Rattle.std.specs.Prelude.{map};
ghost use Rattle.json_print.specs.ExpectedEvents.{AcceptsValue};
ghost use Rattle.json_model.specs.Datum.{list_datum, list_data};
ghost use Rattle.json_print.specs.Data.{parts};
ghost use Rattle.json_write.specs.Writing.{WritesDatumTokens};

use crate::event_calls::{begin_list, end_list};
use crate::{KeyRoom, Serialize};
use json_io::Result;
use json_print::Events;

fn serialize_list<T: Serialize, E: Events>(items: &[T], out: &mut E) -> Result<()>
    requires { AcceptsValue (E.failed out.old) (E.token_state (E.state out.old)) }
    ensures { WritesDatumTokens E.after E.stopped (E.state out.old) (E.state out.new)
        (E.failed out.old) (E.failed out.new)
        (parts (list_datum (list_data (map T.datum items.now)))) result }
{
    begin_list(Some(items.len()), out)?;
    for item in items {
        item.serialize(out)?;
    }
    end_list(out)
}

impl<T: Serialize> Serialize for &[T] {
    ghost datum = { λ s. list_datum (list_data (map T.datum s.now)) };

    fn serialize<E: Events>(&self, out: &mut E) -> Result<()> {
        serialize_list(*self, out)
    }

    fn key<'k>(&'k self, room: &'k mut KeyRoom) -> Option<&'k str> {
        let _ = room;
        None
    }
}

impl<T: Serialize> Serialize for Vec<T> {
    ghost datum = { λ s. list_datum (list_data (map T.datum s.items)) };

    fn serialize<E: Events>(&self, out: &mut E) -> Result<()> {
        serialize_list(self.as_slice(), out)
    }

    fn key<'k>(&'k self, room: &'k mut KeyRoom) -> Option<&'k str> {
        let _ = room;
        None
    }
}
