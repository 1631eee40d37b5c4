// Numbers.
ghost use Rattle.std.specs.Prelude.{◌≡◌, ◌∷◌, [], None, Some, option_map};
ghost use Rattle.std.specs.Fmt.{signed_decimal};
ghost use Rattle.json_number.specs.Literals.{raw_literal};
ghost use Rattle.json_number.specs.Numbers.{value_of};
ghost use Rattle.json_model.specs.Datum.{integer_datum, literal_datum};

use crate::event_calls::{give_int, give_literal, give_uint};
use crate::{KeyRoom, Serialize};
use json_io::Result;
use json_number::{Integer, Number, RawNumber};
use json_print::Events;

impl Serialize for Number {
    ghost datum = { λ n. integer_datum (value_of n) };

    fn serialize<E: Events>(&self, out: &mut E) -> Result<()> {
        match self.integer() {
            Integer::Unsigned(n) => give_uint(n as u128, out),
            Integer::Negative(n) => give_int(n as i128, out),
        }
    }

    fn key<'k>(&'k self, room: &'k mut KeyRoom) -> Option<&'k str> {
        Some(room.number(*self))
    }
}

impl Serialize for RawNumber {
    ghost datum = { λ r. literal_datum (raw_literal r) };

    fn serialize<E: Events>(&self, out: &mut E) -> Result<()> {
        give_literal(self.as_str(), out)
    }

    fn key<'k>(&'k self, room: &'k mut KeyRoom) -> Option<&'k str> {
        let _ = room;
        None
    }
}
