// Values of one input, one after another.
ghost use Rattle.std.specs.Prelude.{◌≡◌, ◌<◌, ◌^◌, length, true, false, IfSome, IfOk, IfErr, OnOk, OnErr, IsUtf8, option_copied};
ghost use Rattle.json_grammar.specs.declared.Kind.TheVariants as Kind;
ghost use Rattle.json_data.specs.Reading.{gives};
ghost use Rattle.json_tokens.specs.TextValues.{IsPackedAtRoot};
ghost use Rattle.json_text.specs.Ends.{NothingLeft, TrailsAt, LacksEnd};
ghost use Rattle.json_stream.specs.Streams.{InputState, parser_at, input_state, offset_in, TakesNextValue, NextValueFails, PassesEnd, EndFails};

use crate::input_place::at_input_place;
use crate::read_value::read_next_value;
use crate::stream_deserializer::StreamDeserializer;
use json_data::Deserialize;
use json_io::{Result, check_utf8};
use json_text::{Parser, Repaired};
use std::alloc::Global;
use std::marker::Model;

/// A reader of JSON values that follow one another in one input. There need be no whitespace
/// between them, and reading one does not look at what follows it. Errors have their places in the
/// whole input.
///
/// ```
/// use json_stream::Deserializer;
/// let mut input = Deserializer::from_str("{\"a\": 1, \"b\": 2}123");
/// let _object = input.deserialize::<json_data::IgnoredAny>(alloc)?;
/// assert_eq!(rt; input.index(), 16);
/// assert_eq!(rt; input.end().err().and_then(|error| error.offset()), Some(16));
/// ```
#[derive(Drop)]
pub struct Deserializer<'a> {
    bytes: &'a [u8],
    // the same bytes, or why they are no text
    text: Result<&'a str>,
    lossy: bool,
    // where it was repaired: what made the text, by which places of the input are found
    repaired: Option<&'a Repaired>,
    at: usize,
}

impl<'a> Model for Deserializer<'a> {
    ghost use Rattle.std.specs.Prelude.{◌≡◌, IsOk, MatchResult, IfSome, option_copied};
    ghost use Rattle.json_io.specs.Utf8.{Utf8Cause};
    ghost use Rattle.json_stream.specs.Streams.{InputState, IsTextAt};

    ghost Value = { InputState };

    ghost view = { λ a. record {
      text = a.bytes.now;
      index = a.at;
      lossy = a.lossy;
      repaired = option_copied a.repaired;
    } };

    ghost invariant = { λ a. IfSome a.repaired (λ r. (r.now.text ≡ a.bytes.now) × IsOk a.text)
        × MatchResult a.text
        (λ t. IsTextAt a.bytes.now a.at t.now)
        (λ e. Utf8Cause a.bytes.now e.code e.place) };
}

impl<'a> Deserializer<'a> {
    /// Creates a reader at the beginning of `s`, which has at most 4,294,967,295 bytes. Whether
    /// they are UTF-8 is tested here, once; if they are not, each later call that reads fails.
    pub fn from_slice(s: &'a [u8]) -> Deserializer<'a>
        requires { length s.now < 2 ^ 32 }
        ensures { result ≡ record { text = s.now; index = 0; lossy = false; repaired = None } }
    {
        Deserializer {
            bytes: s,
            text: check_utf8(s),
            lossy: false,
            repaired: None,
            at: 0,
        }
    }

    /// Creates a reader at the beginning of the text `s`, which has at most 4,294,967,295 bytes.
    pub fn from_str(s: &'a str) -> Deserializer<'a>
        requires { length s.now < 2 ^ 32 }
        ensures { result ≡ record { text = s.now; index = 0; lossy = false; repaired = None } }
    {
        Deserializer::of_text(s, false, None)
    }

    /// Creates a reader at the beginning of a repaired text: one that was made of any bytes, with
    /// U+FFFD for each ill-formed run of them. The text has at most 4,294,967,295 bytes, and is
    /// read in the lossy mode of [`Deserializer::utf8_lossy`]. Offsets, lines and columns are those
    /// of the bytes.
    pub fn from_repaired(r: &'a Repaired) -> Deserializer<'a>
        requires { length r.now.text < 2 ^ 32 }
        ensures state { result ≡ record {
          text = r.now.text;
          index = 0;
          lossy = true;
          repaired = Some r.now;
        } }
        ensures utf8 { IsUtf8 result.text }
    {
        Deserializer::of_text(r.as_str(), true, Some(r))
    }

    // Creates a reader at the beginning of the text, which may have been repaired.
    fn of_text(text: &'a str, lossy: bool, repaired: Option<&'a Repaired>) -> Deserializer<'a>
        requires { IfSome repaired (λ r. r.now.text ≡ text.now) }
        ensures { result ≡ input_state text.now lossy (option_copied repaired.entry) 0 }
    {
        Deserializer {
            bytes: text.as_bytes(),
            text: Ok(text),
            lossy,
            repaired,
            at: 0,
        }
    }

    /// Returns the reader unchanged. A number that is asked for as a `RawNumber` is read as its
    /// literal in any case, so that there is nothing to choose.
    pub fn use_rawnumber(self) -> Deserializer<'a>
        ensures { result ≡ self.entry }
    {
        self
    }

    /// Returns the reader in the lossy mode: an escape of a surrogate that is alone is no error,
    /// and is read as U+FFFD (RFC 8259, section 8.2). Bytes that are not UTF-8 are still an error.
    pub fn utf8_lossy(self) -> Deserializer<'a>
        ensures { result ≡ record self.entry { lossy = true } }
    {
        Deserializer {
            lossy: true,
            ..self
        }
    }

    /// Returns how far the reader is: the offset in bytes from the beginning of the input. If the
    /// text was repaired, this is the offset in the input, not in the repaired text.
    pub fn index(&self) -> usize
        ensures { result ≡ offset_in self.now.repaired self.now.index }
    {
        match self.repaired {
            None => self.at,
            Some(repaired) => repaired.origin(self.at),
        }
    }

    /// Reads the next value as a `T`. The value may borrow from the input; `alloc` is for what it
    /// owns. Afterwards the reader is after the value.
    ///
    /// Fails with `InvalidUTF8` exactly if the whole input is not UTF-8. Fails with a code from
    /// `EofWhileParsing` to `InvalidSurrogate`, or with `RecursionLimitExceeded`, if what is left
    /// begins with no JSON value of at most 254 levels. Fails with `NoMemory` if memory runs out.
    /// In these cases the reader stays where it was.
    ///
    /// A value that is no `T` is refused, at its first byte: with `TypeUnmatched`,
    /// `NumberOutOfRange` or `ExpectedNumericKey`. Then the reader is after that value, too.
    pub fn deserialize<T: Deserialize<'a>>(&mut self, alloc: Global) -> Result<T>
        ensures ok { IfOk result (λ v.
            TakesNextValue T.from_tree self.old (gives (T.datum v)) self.new) }
        ensures place { IfOk result (T.placed IsPackedAtRoot) }
        ensures err { IfErr result (λ e.
            NextValueFails T.from_tree self.old e.code e.place self.new) }
    {
        match self.text {
            Ok(text) => read_next_value(alloc, text, self.lossy, self.repaired, &mut self.at),
            Err(error) => Err(error),
        }
    }

    /// Checks that only whitespace is left, and does not move. Fails with `InvalidUTF8` if the
    /// whole input is not UTF-8. Otherwise fails with `TrailingCharacters` if something else is
    /// left, at the first byte of that (RFC 8259, section 2).
    pub fn end(&mut self) -> Result<()>
        ensures utf8 { OnOk result (IsUtf8 self.old.text) }
        ensures ok { OnOk result (NothingLeft (parser_at self.old)) }
        ensures err { IfErr result (EndFails self.old (TrailsAt (parser_at self.old))) }
        ensures kept { self.new ≡ self.old }
    {
        match self.text {
            Ok(text) => match Parser::at(text, self.at).end() {
                Ok(()) => Ok(()),
                Err(error) => Err(at_input_place(self.repaired, error)),
            },
            Err(error) => Err(error),
        }
    }

    /// Takes whitespace and `]`, for a caller that reads the elements of an array one by one (RFC
    /// 8259, section 5).
    ///
    /// Fails with `InvalidUTF8` if the whole input is not UTF-8, with `EofWhileParsing` if only
    /// whitespace is left, and with `ExpectedArrayCommaOrEnd` at any other byte that comes after
    /// the whitespace. The reader does not move then.
    pub fn end_seq(&mut self) -> Result<()>
        ensures ok { OnOk result (PassesEnd self.old Kind.Array self.new) }
        ensures err { IfErr result (EndFails self.old (LacksEnd (parser_at self.old) Kind.Array)) }
        ensures kept { OnErr result (self.new ≡ self.old) }
    {
        match self.text {
            Ok(text) => {
                let mut parser = Parser::at(text, self.at);
                match parser.end_seq() {
                    Ok(()) => {
                        self.at = parser.index();
                        Ok(())
                    }
                    Err(error) => Err(at_input_place(self.repaired, error)),
                }
            }
            Err(error) => Err(error),
        }
    }

    /// Takes whitespace and `}`, for a caller that reads the members of an object one by one (RFC
    /// 8259, section 4).
    ///
    /// Fails with `InvalidUTF8` if the whole input is not UTF-8, with `EofWhileParsing` if only
    /// whitespace is left, with `TrailingComma` at a comma after the whitespace, and with
    /// `ExpectedObjectCommaOrEnd` at any other byte there. The reader does not move then.
    pub fn end_map(&mut self) -> Result<()>
        ensures ok { OnOk result (PassesEnd self.old Kind.Object self.new) }
        ensures err { IfErr result (EndFails self.old (LacksEnd (parser_at self.old) Kind.Object)) }
        ensures kept { OnErr result (self.new ≡ self.old) }
    {
        match self.text {
            Ok(text) => {
                let mut parser = Parser::at(text, self.at);
                match parser.end_map() {
                    Ok(()) => {
                        self.at = parser.index();
                        Ok(())
                    }
                    Err(error) => Err(at_input_place(self.repaired, error)),
                }
            }
            Err(error) => Err(error),
        }
    }

    /// Returns the values that are left as a stream, each read as a `T`.
    pub fn into_stream<T: Deserialize<'a>>(self) -> StreamDeserializer<'a, T>
        ensures { result ≡ record { input = self.entry; ended = false } }
    {
        StreamDeserializer::new(self)
    }
}
