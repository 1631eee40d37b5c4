// Places of an input whose text was repaired.
ghost use Rattle.std.specs.Prelude.{◌≡◌, ◌-◌, ◌≤◌, length, IfSome, option_copied};
ghost use Rattle.json_stream.specs.Streams.{added as spec_added, origin_place, in_input, PlaceIsWithin};

use json_io::{Error, Place};
use json_text::Repaired;

// Returns how many more bytes the repaired text has before `offset` than the input.
fn added(repaired: &Repaired, offset: usize) -> usize
    requires { offset ≤ length repaired.now.text }
    ensures { result ≡ spec_added repaired.now offset }
{
    offset.saturating_sub(repaired.origin(offset))
}

// Returns the place in the input of a place in its repaired text.
#[cold]
fn place_in_input(repaired: &Repaired, place: Place) -> Place
    requires { PlaceIsWithin repaired.now.text place }
    ensures { result ≡ origin_place repaired.now place }
{
    match place {
        Place::At {
            offset,
            line,
            column,
        } => {
            let line_start = offset.saturating_sub(column.saturating_sub(1));
            let more = added(repaired, offset).saturating_sub(added(repaired, line_start));
            Place::At {
                offset: repaired.origin(offset),
                line,
                column: column.saturating_sub(more),
            }
        }
        elsewhere => elsewhere,
    }
}

/// Returns an error of the text with its place in the input, which is another one if the text was
/// repaired.
pub(crate) fn at_input_place(repaired: Option<&Repaired>, error: Error) -> Error
    requires { IfSome repaired (λ r. PlaceIsWithin r.now.text error.place) }
    ensures { result ≡ record error {
      place = in_input (option_copied repaired.entry) error.place;
    } }
{
    match repaired {
        Some(repaired) => Error {
            place: place_in_input(repaired, error.place),
            ..error
        },
        None => error,
    }
}
