// Integers.
ghost use Rattle.std.specs.Prelude.{pos};
ghost use Rattle.json_model.specs.Datum.{integer_datum};

use crate::event_calls::{give_int, give_uint};
use crate::{KeyRoom, Serialize};
use json_io::Result;
use json_print::Events;

impl Serialize for u8 {
    ghost datum = { λ n. integer_datum (pos n) };

    #[inline(always)]
    fn serialize<E: Events>(&self, out: &mut E) -> Result<()> {
        give_uint(*self as u128, out)
    }

    fn key<'k>(&'k self, room: &'k mut KeyRoom) -> Option<&'k str> {
        Some(room.integer(*self))
    }
}

impl Serialize for u16 {
    ghost datum = { λ n. integer_datum (pos n) };

    #[inline(always)]
    fn serialize<E: Events>(&self, out: &mut E) -> Result<()> {
        give_uint(*self as u128, out)
    }

    fn key<'k>(&'k self, room: &'k mut KeyRoom) -> Option<&'k str> {
        Some(room.integer(*self))
    }
}

impl Serialize for u32 {
    ghost datum = { λ n. integer_datum (pos n) };

    #[inline(always)]
    fn serialize<E: Events>(&self, out: &mut E) -> Result<()> {
        give_uint(*self as u128, out)
    }

    fn key<'k>(&'k self, room: &'k mut KeyRoom) -> Option<&'k str> {
        Some(room.integer(*self))
    }
}

impl Serialize for u64 {
    ghost datum = { λ n. integer_datum (pos n) };

    #[inline(always)]
    fn serialize<E: Events>(&self, out: &mut E) -> Result<()> {
        give_uint(*self as u128, out)
    }

    fn key<'k>(&'k self, room: &'k mut KeyRoom) -> Option<&'k str> {
        Some(room.integer(*self))
    }
}

impl Serialize for usize {
    ghost datum = { λ n. integer_datum (pos n) };

    #[inline(always)]
    fn serialize<E: Events>(&self, out: &mut E) -> Result<()> {
        give_uint(*self as u128, out)
    }

    fn key<'k>(&'k self, room: &'k mut KeyRoom) -> Option<&'k str> {
        Some(room.integer(*self))
    }
}

impl Serialize for u128 {
    ghost datum = { λ n. integer_datum (pos n) };

    #[inline(always)]
    fn serialize<E: Events>(&self, out: &mut E) -> Result<()> {
        give_uint(*self, out)
    }

    fn key<'k>(&'k self, room: &'k mut KeyRoom) -> Option<&'k str> {
        Some(room.integer(*self))
    }
}

impl Serialize for i8 {
    ghost datum = { λ n. integer_datum n };

    #[inline(always)]
    fn serialize<E: Events>(&self, out: &mut E) -> Result<()> {
        give_int(*self as i128, out)
    }

    fn key<'k>(&'k self, room: &'k mut KeyRoom) -> Option<&'k str> {
        Some(room.integer(*self))
    }
}

impl Serialize for i16 {
    ghost datum = { λ n. integer_datum n };

    #[inline(always)]
    fn serialize<E: Events>(&self, out: &mut E) -> Result<()> {
        give_int(*self as i128, out)
    }

    fn key<'k>(&'k self, room: &'k mut KeyRoom) -> Option<&'k str> {
        Some(room.integer(*self))
    }
}

impl Serialize for i32 {
    ghost datum = { λ n. integer_datum n };

    #[inline(always)]
    fn serialize<E: Events>(&self, out: &mut E) -> Result<()> {
        give_int(*self as i128, out)
    }

    fn key<'k>(&'k self, room: &'k mut KeyRoom) -> Option<&'k str> {
        Some(room.integer(*self))
    }
}

impl Serialize for i64 {
    ghost datum = { λ n. integer_datum n };

    #[inline(always)]
    fn serialize<E: Events>(&self, out: &mut E) -> Result<()> {
        give_int(*self as i128, out)
    }

    fn key<'k>(&'k self, room: &'k mut KeyRoom) -> Option<&'k str> {
        Some(room.integer(*self))
    }
}

impl Serialize for isize {
    ghost datum = { λ n. integer_datum n };

    #[inline(always)]
    fn serialize<E: Events>(&self, out: &mut E) -> Result<()> {
        give_int(*self as i128, out)
    }

    fn key<'k>(&'k self, room: &'k mut KeyRoom) -> Option<&'k str> {
        Some(room.integer(*self))
    }
}

impl Serialize for i128 {
    ghost datum = { λ n. integer_datum n };

    #[inline(always)]
    fn serialize<E: Events>(&self, out: &mut E) -> Result<()> {
        give_int(*self, out)
    }

    fn key<'k>(&'k self, room: &'k mut KeyRoom) -> Option<&'k str> {
        Some(room.integer(*self))
    }
}
