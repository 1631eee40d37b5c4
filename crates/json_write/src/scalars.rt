// Scalars.
ghost use Rattle.std.specs.Prelude.{encode_utf8, string_bytes, pos};
ghost use Rattle.std.specs.Cow.{cow_str_bytes};
ghost use Rattle.json_model.specs.Datum.{null_datum, boolean_datum, integer_datum, text_datum};

use crate::event_calls::{give_boolean, give_int, give_text, give_uint, write_null};
use crate::{KeyRoom, Serialize};
use json_io::Result;
use json_print::Events;
use std::borrow::CowStr;

impl Serialize for () {
    ghost datum = { λ _. null_datum };

    #[inline(always)]
    fn serialize<E: Events>(&self, out: &mut E) -> Result<()> {
        write_null(out)
    }

    fn key<'k>(&'k self, room: &'k mut KeyRoom) -> Option<&'k str> {
        let _ = room;
        None
    }
}

impl Serialize for bool {
    ghost datum = { λ b. boolean_datum b };

    #[inline(always)]
    fn serialize<E: Events>(&self, out: &mut E) -> Result<()> {
        give_boolean(*self, out)
    }

    fn key<'k>(&'k self, room: &'k mut KeyRoom) -> Option<&'k str> {
        let _ = room;
        Some(if *self { "true" } else { "false" })
    }
}

impl Serialize for char {
    ghost datum = { λ c. text_datum (encode_utf8 c) };

    #[inline(always)]
    fn serialize<E: Events>(&self, out: &mut E) -> Result<()> {
        give_text(self.encode_utf8(&mut [0; 4]), out)
    }

    fn key<'k>(&'k self, room: &'k mut KeyRoom) -> Option<&'k str> {
        Some(room.character(*self))
    }
}

impl Serialize for &str {
    ghost datum = { λ s. text_datum s.now };

    #[inline(always)]
    fn serialize<E: Events>(&self, out: &mut E) -> Result<()> {
        give_text(*self, out)
    }

    fn key<'k>(&'k self, room: &'k mut KeyRoom) -> Option<&'k str> {
        let _ = room;
        Some(*self)
    }
}

impl Serialize for String {
    ghost datum = { λ s. text_datum (string_bytes s) };

    #[inline(always)]
    fn serialize<E: Events>(&self, out: &mut E) -> Result<()> {
        give_text(self.as_str(), out)
    }

    fn key<'k>(&'k self, room: &'k mut KeyRoom) -> Option<&'k str> {
        let _ = room;
        Some(self.as_str())
    }
}

impl<'a> Serialize for CowStr<'a> {
    ghost datum = { λ s. text_datum (cow_str_bytes s) };

    #[inline(always)]
    fn serialize<E: Events>(&self, out: &mut E) -> Result<()> {
        give_text(self.as_str(), out)
    }

    fn key<'k>(&'k self, room: &'k mut KeyRoom) -> Option<&'k str> {
        let _ = room;
        Some(self.as_str())
    }
}
