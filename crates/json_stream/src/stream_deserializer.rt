// The values of one input, up to the first that is refused.
ghost use Rattle.std.specs.Prelude.{◌≡◌, true, false, IfSome, IfOk, IfErr, IsErrAnd, MatchOption, IsUtf8};
ghost use Rattle.json_text.specs.Ends.{NothingLeft};
ghost use Rattle.json_data.specs.Reading.{gives};
ghost use Rattle.json_tokens.specs.TextValues.{IsPackedAtRoot};
ghost use Rattle.json_stream.specs.Streams.{parser_at, TakesNextValue, NextValueFails, TellsEnd};

use crate::deserializer::Deserializer;
use json_data::Deserialize;
use json_io::Result;
use std::alloc::Global;
use std::marker::{Model, PhantomData};

/// The values that are left of an input, each read as a `T`, one after another up to the first
/// error. It is created by [`Deserializer::into_stream`].
///
/// ```
/// use json_stream::Deserializer;
/// let mut numbers = Deserializer::from_str(" 1 ").into_stream::<u8>();
/// assert!(rt; matches!(numbers.next(alloc), Some(Ok(1))));
/// let end = numbers.next(alloc).and_then(|last| last.err());
/// assert_eq!(rt; end.and_then(|error| error.offset()), Some(3));
/// assert!(rt; numbers.next(alloc).is_none());
/// ```
#[derive(Drop)]
pub struct StreamDeserializer<'a, T> {
    input: Deserializer<'a>,
    ended: bool,
    values: PhantomData<T>,
}

impl<'a, T> Model for StreamDeserializer<'a, T> {
    ghost use Rattle.json_stream.specs.Streams.{StreamState};

    ghost Value = { StreamState };

    ghost view = { λ a. record { input = a.input; ended = a.ended } };
}

impl<'a, T: Deserialize<'a>> StreamDeserializer<'a, T> {
    /// Creates the stream of the values from where the reader is.
    pub(crate) fn new(input: Deserializer<'a>) -> StreamDeserializer<'a, T>
        ensures { result ≡ record { input = input.entry; ended = false } }
    {
        StreamDeserializer {
            input,
            ended: false,
            values: PhantomData,
        }
    }

    /// Returns the next value, or the error with which [`Deserializer::deserialize`] fails there.
    /// If only whitespace is left, that is `EofWhileParsing` at the end of the input, unless memory
    /// runs out. Returns `None` exactly if a call has returned an error before.
    pub fn next(&mut self, alloc: Global) -> Option<Result<T>>
        ensures none { MatchOption result (self.old.ended ≡ true) (λ _. self.old.ended ≡ false) }
        ensures after { result ≡ None → self.new ≡ self.old }
        ensures ok { IfSome result (λ r. IfOk r (λ v.
            TakesNextValue T.from_tree self.old.input (gives (T.datum v)) self.new.input
            × (self.new.ended ≡ false))) }
        ensures place { IfSome result (λ r. IfOk r (T.placed IsPackedAtRoot)) }
        ensures err { IfSome result (λ r. IfErr r (λ e.
            NextValueFails T.from_tree self.old.input e.code e.place self.new.input
            × (self.new.ended ≡ true))) }
        ensures clean { IsUtf8 self.old.input.text → NothingLeft (parser_at self.old.input)
            → IfSome result (λ r. IsErrAnd r (λ e. TellsEnd self.old.input e.code e.place)) }
    {
        if self.ended {
            return None;
        }
        let value = self.input.deserialize(alloc);
        self.ended = value.is_err();
        Some(value)
    }
}
