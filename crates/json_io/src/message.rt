// The text of a refusal, in a field of its own.
ghost use Rattle.std.specs.Prelude.{Some, ◌≡◌, ℕ, ◌+◌, ◌≤◌, List, [], ◌++◌, length, take, decimal};
ghost use Rattle.json_io.specs.FaultText.{text_of_place, message_of, text_of};
ghost use Rattle.json_io.specs.Errors.{name_of};

use crate::{Error, Place};
use itoa::Buffer;
use std::fmt;
use std::marker::Model;

const ROOM: usize = 128;

/// The text of a refusal, at most 128 bytes. Contracts see its bytes.
///
/// ```
/// use json_io::{Error, ErrorCode, Place, fault_text};
/// let error = Error { code: ErrorCode::Io, place: Place::Writing };
/// assert_eq!(rt; fault_text(&error).as_bytes(), b"Io while writing\n".as_slice());
/// ```
#[derive(Drop)]
pub struct FaultText {
    field: [u8; ROOM],
    used: usize,
}

impl Model for FaultText {
    ghost Value = { List ℕ };

    ghost view = { λ t. take t.used t.field };

    ghost invariant = { λ t. t.used ≤ 128 };
}

impl FaultText {
    fn new() -> FaultText
        ensures { result ≡ [] }
    {
        FaultText {
            field: [0; ROOM],
            used: 0,
        }
    }

    /// Returns the bytes of the text.
    pub fn as_bytes(&self) -> &[u8]
        ensures text { result.now ≡ self.now }
        ensures short { length result.now ≤ 128 }
    {
        &self.field[..self.used]
    }

    fn push(&mut self, piece: &[u8])
        requires { length self.old + length piece.now ≤ 128 }
        ensures { self.new ≡ self.old ++ piece.now }
    {
        let end = self.used + piece.len();
        self.field[self.used..end].copy_from_slice(piece);
        self.used = end;
    }

    fn push_number(&mut self, n: usize)
        requires { length self.old + 20 ≤ 128 }
        ensures text { self.new ≡ self.old ++ decimal n }
        ensures short { length self.new ≤ length self.old + 20 }
    {
        let mut buffer = Buffer::new();
        self.push(buffer.format(n).as_bytes());
    }
}

impl fmt::Display for Error {
    ghost output = { λ e. Some (message_of e) };

    fn fmt<W: fmt::Write>(&self, f: &mut fmt::Formatter<W>) -> fmt::Result {
        let name = self.code.name();
        match self.place {
            Place::None => write!(f, "{name}"),
            Place::At {
                offset,
                line,
                column,
            } => write!(f, "{name} at offset {offset}, line {line} column {column}"),
            Place::Reading => write!(f, "{name} while reading"),
            Place::Writing => write!(f, "{name} while writing"),
            Place::Edit(number) => write!(f, "{name} in edit {number}"),
        }
    }
}

impl std::error::Error for Error {}

/// Returns the name of the code, its place if it has one, and one byte 0A. Takes no memory.
pub fn fault_text(error: &Error) -> FaultText
    ensures { result ≡ text_of error.now }
{
    let mut text = FaultText::new();
    text.push(error.code.name().as_bytes());
    match error.place {
        Place::None => {}
        Place::At {
            offset,
            line,
            column,
        } => {
            text.push(b" at offset ");
            text.push_number(offset);
            text.push(b", line ");
            text.push_number(line);
            text.push(b" column ");
            text.push_number(column);
        }
        Place::Reading => text.push(b" while reading"),
        Place::Writing => text.push(b" while writing"),
        Place::Edit(number) => {
            text.push(b" in edit ");
            text.push_number(number as usize);
        }
    }
    text.push(b"\n");
    text
}
