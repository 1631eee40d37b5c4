// What is written as the value that it holds.
ghost use Rattle.json_model.specs.Datum.{option_datum};

use crate::event_calls::write_null;
use crate::{KeyRoom, Serialize};
use json_io::Result;
use json_print::Events;

impl<T: Serialize> Serialize for &T {
    ghost datum = { λ s. T.datum s.now };

    #[inline(always)]
    fn serialize<E: Events>(&self, out: &mut E) -> Result<()> {
        (**self).serialize(out)
    }

    fn key<'k>(&'k self, room: &'k mut KeyRoom) -> Option<&'k str> {
        (**self).key(room)
    }
}

impl<T: Serialize> Serialize for Option<T> {
    ghost datum = { λ s. option_datum T.datum s };

    #[inline(always)]
    fn serialize<E: Events>(&self, out: &mut E) -> Result<()> {
        match self {
            None => write_null(out),
            Some(x) => x.serialize(out),
        }
    }

    fn key<'k>(&'k self, room: &'k mut KeyRoom) -> Option<&'k str> {
        match self {
            None => None,
            Some(x) => x.key(room),
        }
    }
}
