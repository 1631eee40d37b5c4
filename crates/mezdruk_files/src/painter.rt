// The colors of JSON texts on a terminal.
ghost use Rattle.std.specs.Prelude.{◌≡◌, ◌∷◌, [], true, OnOk};
ghost use Rattle.mezdruk_files.specs.Colors.{is_sequence, AppendsPainted};

use std::alloc::{AllocError, Global};

// A color of a part of a text.
#[derive(Clone, Copy, PartialEq, Eq)]
enum Color {
    // that of the terminal, for whitespace
    Plain,
    // of null
    Null,
    // of false, true and numbers
    Scalar,
    // of strings that are values
    String,
    // of brackets, commas and colons
    Punctuation,
    // of keys
    Key,
}

impl Color {
    // Returns the escape sequence that has a terminal show what follows in this color.
    fn sequence(self) -> &'static [u8]
        ensures { is_sequence result.now ≡ true }
    {
        match self {
            Color::Plain => b"\x1b[0m",
            Color::Null => b"\x1b[1;30m",
            Color::Scalar => b"\x1b[0;39m",
            Color::String => b"\x1b[0;32m",
            Color::Punctuation => b"\x1b[1;39m",
            Color::Key => b"\x1b[34;1m",
        }
    }
}

// Where in a text the next byte is.
#[derive(Clone, Copy)]
enum Position {
    // outside of strings and other scalars
    Between,
    // in a number, null, true or false of this color
    InScalar(Color),
    // in a string of this color
    InString(Color),
    // after a backslash in such a string
    InEscape(Color),
}

// Returns whether a number, null, true or false ends before this byte.
fn ends_scalar(byte: u8) -> bool {
    matches!(
        byte,
        b' ' | b'\n' | b'\t' | b'\r' | b',' | b':' | b'[' | b']' | b'{' | b'}' | b'"'
    )
}

// Appends the escape sequence of a color, unless that color is shown already.
fn push_color(painted: &mut Vec<u8>, shown: Color, color: Color) -> Result<(), AllocError>
    ensures { OnOk result (AppendsPainted [] painted.old.items painted.new.items) }
{
    if color == shown {
        return Ok(());
    }
    painted.extend_from_slice(color.sequence())?;
    Ok(())
}

// Appends a byte.
fn push_byte(painted: &mut Vec<u8>, byte: u8) -> Result<(), AllocError>
    ensures { OnOk result (AppendsPainted (byte ∷ []) painted.old.items painted.new.items) }
{
    painted.push(byte)?;
    Ok(())
}

/// Adds to JSON texts the escape sequences by which a terminal shows their parts in colors: null,
/// the other literals and numbers, strings, keys, and the brackets, commas and colons.
///
/// It keeps its position in the text from one call to the next, so the text may come in pieces, and
/// several texts one after another. Each call begins and ends without a color.
///
/// ```
/// use mezdruk_files::Painter;
/// let mut painter = Painter::new(alloc);
/// let mut painted = Vec::new(alloc);
/// painter.paint(b"{\"a", &mut painted)?;
/// painter.paint(b"\":null}\n", &mut painted)?;
/// let expected = b"\x1b[1;39m{\x1b[34;1m\"a\x1b[0m\
///     \x1b[34;1m\"\x1b[1;39m:\x1b[1;30mnull\x1b[1;39m}\x1b[0m\n";
/// assert_eq!(rt; painted.as_slice(), expected.as_slice());
/// ```
#[derive(Drop)]
pub struct Painter {
    position: Position,
    // of each open container, from the outermost on, whether it is an object
    containers: Vec<bool>,
    // whether a string that begins here is a key
    expects_key: bool,
}

impl Painter {
    /// Creates a painter at the beginning of a text.
    pub fn new(alloc: Global) -> Painter {
        Painter {
            position: Position::Between,
            containers: Vec::new(alloc),
            expects_key: false,
        }
    }

    // Notes the beginning of an array or an object.
    fn open_container(&mut self, is_object: bool) -> Result<Color, AllocError> {
        self.containers.push(is_object)?;
        self.expects_key = is_object;
        Ok(Color::Punctuation)
    }

    // Notes the end of the innermost container.
    fn close_container(&mut self) -> Color {
        let _ = self.containers.pop();
        self.expects_key = false;
        Color::Punctuation
    }

    // Notes a comma, after which an object has a key.
    fn read_comma(&mut self) -> Color {
        self.expects_key = matches!(self.containers.last(), Some(true));
        Color::Punctuation
    }

    // Notes a colon, after which there is a value.
    fn read_colon(&mut self) -> Color {
        self.expects_key = false;
        Color::Punctuation
    }

    // Notes the beginning of a string, and returns its color.
    fn begin_string(&mut self) -> Color {
        let color = if self.expects_key {
            Color::Key
        } else {
            Color::String
        };
        self.position = Position::InString(color);
        color
    }

    // Notes the beginning of a number, null, true or false, and returns its color.
    fn begin_scalar(&mut self, byte: u8) -> Color {
        let color = if byte == b'n' {
            Color::Null
        } else {
            Color::Scalar
        };
        self.position = Position::InScalar(color);
        color
    }

    // Moves past a byte outside of strings and other scalars, and returns its color.
    fn begin_part(&mut self, byte: u8) -> Result<Color, AllocError> {
        self.position = Position::Between;
        match byte {
            b' ' | b'\n' | b'\t' | b'\r' => Ok(Color::Plain),
            b'{' => self.open_container(true),
            b'[' => self.open_container(false),
            b'}' | b']' => Ok(self.close_container()),
            b',' => Ok(self.read_comma()),
            b':' => Ok(self.read_colon()),
            b'"' => Ok(self.begin_string()),
            _ => Ok(self.begin_scalar(byte)),
        }
    }

    // Moves past the next byte, and returns its color.
    fn advance(&mut self, byte: u8) -> Result<Color, AllocError> {
        let (position, color) = match self.position {
            Position::InEscape(color) => (Position::InString(color), color),
            Position::InString(color) => match byte {
                b'\\' => (Position::InEscape(color), color),
                b'"' => (Position::Between, color),
                _ => (Position::InString(color), color),
            },
            Position::InScalar(color) if !ends_scalar(byte) => (Position::InScalar(color), color),
            _ => return self.begin_part(byte),
        };
        self.position = position;
        Ok(color)
    }

    /// Appends the next bytes of a text to `painted`, with the escape sequences of their colors. If
    /// the bytes have no ESC, they are what `painted` gains without its escape sequences. Printed
    /// JSON texts have none. Fails if memory runs out: `painted` has some of them then, and the
    /// painter has lost its position.
    pub fn paint(&mut self, bytes: &[u8], painted: &mut Vec<u8>) -> Result<(), AllocError>
        ensures { OnOk result (AppendsPainted bytes.now painted.old.items painted.new.items) }
    {
        let mut shown = Color::Plain;
        for byte in bytes {
            let color = self.advance(*byte)?;
            push_color(painted, shown, color)?;
            push_byte(painted, *byte)?;
            shown = color;
        }
        push_color(painted, shown, Color::Plain)
    }
}
