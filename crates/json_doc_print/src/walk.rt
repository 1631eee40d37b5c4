// How a walk over a tree ends. The events keep the error that they meet, and answer it to each
// later call. A walk passes on no more than that there is one: an error as a whole is copied from
// level to level at each token, met or not.
ghost use Rattle.std.specs.Prelude.{◌≡◌, is_ok};

use json_io::Result;

/// The error of a function that writes a value to an `Events`: a call of that failed. The `Events`
/// keeps the library's error and returns it to each later call.
#[derive(Clone, Copy)]
pub struct EventsFailed;

/// The result of a function that writes a value to an `Events` by its tokens.
pub type EventsResult = std::result::Result<(), EventsFailed>;

/// Converts the result of a call of an `Events`: `Ok` stays `Ok`, and any error becomes
/// [`EventsFailed`]. Fails with that alone.
#[inline(always)]
pub fn events_result(answer: Result<()>) -> EventsResult
    ensures { is_ok result ≡ is_ok answer }
{
    match answer {
        Ok(()) => Ok(()),
        Err(_) => Err(EventsFailed),
    }
}
