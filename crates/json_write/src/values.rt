// Values and views.
ghost use Rattle.std.specs.Prelude.{map, option_map};
ghost use Rattle.json_print.specs.ExpectedEvents.{AcceptsValue};
ghost use Rattle.json_number.specs.Numbers.{value_of};
ghost use Rattle.json_value.specs.Denotes.{tree_of, list_in, pairs_in};
ghost use Rattle.json_value.specs.Seen.{seen, elements_seen, members_seen};
ghost use Rattle.json_model.specs.Datum.{list_datum, list_data, rows_datum, list_rows, row_of, text_datum};
ghost use Rattle.json_print.specs.Data.{parts};
ghost use Rattle.json_write.specs.Writing.{WritesDatumTokens};
ghost use Rattle.json_write.specs.TreeDatum.{tree_datum};

use crate::event_calls::{begin_list, begin_object, end_list, end_rows, give_key};
use crate::{KeyRoom, Serialize};
use json_io::Result;
use json_print::Events;
use json_value::{ArrayView, Container, Keyed, ObjectView, Value, View};

impl Serialize for View<'_> {
    ghost datum = { λ v. tree_datum (seen v) };

    fn serialize<E: Events>(&self, out: &mut E) -> Result<()> {
        (*self).emit(out)
    }

    fn key<'k>(&'k self, room: &'k mut KeyRoom) -> Option<&'k str> {
        if let Some(text) = (*self).text() {
            return Some(text);
        }
        if let Some(number) = (*self).as_number() {
            return Some(room.number(number));
        }
        match (*self).as_bool() {
            Some(true) => Some("true"),
            Some(false) => Some("false"),
            None => None,
        }
    }
}

impl Serialize for Value {
    ghost datum = { λ v. tree_datum (tree_of v) };

    fn serialize<E: Events>(&self, out: &mut E) -> Result<()> {
        self.view().emit(out)
    }

    fn key<'k>(&'k self, room: &'k mut KeyRoom) -> Option<&'k str> {
        let view = self.view();
        if let Some(text) = view.text() {
            return Some(text);
        }
        if let Some(number) = view.as_number() {
            return Some(room.number(number));
        }
        match view.as_bool() {
            Some(true) => Some("true"),
            Some(false) => Some("false"),
            None => None,
        }
    }
}

fn serialize_elements<E: Events>(view: ArrayView<'_>, out: &mut E) -> Result<()>
    requires { AcceptsValue (E.failed out.old) (E.token_state (E.state out.old)) }
    ensures { WritesDatumTokens E.after E.stopped (E.state out.old) (E.state out.new)
        (E.failed out.old) (E.failed out.new)
        (parts (list_datum (list_data (map tree_datum (elements_seen view.entry))))) result }
{
    begin_list(Some(view.len()), out)?;
    'elements: for i in 0..view.len() {
        match view.get(i) {
            Some(element) => element.serialize(out)?,
            None => unreachable!(),
        }
    }
    end_list(out)
}

impl Serialize for Container<Value> {
    ghost datum = { λ a. list_datum (list_data (map tree_datum (list_in a))) };

    fn serialize<E: Events>(&self, out: &mut E) -> Result<()> {
        serialize_elements(self.view(), out)
    }

    fn key<'k>(&'k self, room: &'k mut KeyRoom) -> Option<&'k str> {
        let _ = room;
        None
    }
}

fn serialize_members<E: Events>(view: ObjectView<'_>, out: &mut E) -> Result<()>
    requires { AcceptsValue (E.failed out.old) (E.token_state (E.state out.old)) }
    ensures { WritesDatumTokens E.after E.stopped (E.state out.old) (E.state out.new)
        (E.failed out.old) (E.failed out.new)
        (parts (rows_datum (list_rows
        (map (row_of text_datum tree_datum) (members_seen view.entry))))) result }
{
    begin_object(Some(view.len()), out)?;
    'members: for i in 0..view.len() {
        match view.pair(i) {
            Some((key, value)) => {
                give_key(key, out)?;
                value.serialize(out)?;
            }
            None => unreachable!(),
        }
    }
    end_rows(out)
}

impl Serialize for Container<Keyed<Value>> {
    ghost datum = { λ o. rows_datum (list_rows (map (row_of text_datum tree_datum) (pairs_in o))) };

    fn serialize<E: Events>(&self, out: &mut E) -> Result<()> {
        serialize_members(self.view(), out)
    }

    fn key<'k>(&'k self, room: &'k mut KeyRoom) -> Option<&'k str> {
        let _ = room;
        None
    }
}
