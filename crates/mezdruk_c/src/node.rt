// What is read of a node at once.
ghost use Rattle.std.specs.Prelude.{◌≡◌, ℕ, option_map};
ghost use Rattle.json_doc.specs.Readings.{bool_of, integer_in_tree};
ghost use Rattle.json_doc.specs.Seen.{view_tree};
ghost use Rattle.mezdruk_c.specs.Trees.{boolean_number, integer_shown, text_or_literal, length_shown};
ghost use Rattle.mezdruk_c.specs.Nodes.{ShowsTree};

use json_doc::DocView;
use json_number::Integer;

/// What the value or name at a node of a document is, as C reads it.
#[repr(C)]
#[derive(Clone, Copy)]
pub struct Node {
    /// The JSON kind: 0 for null, 1 boolean, 2 number, 3 string, 4 object, 5 array.
    pub kind: u8,
    /// 1 for the boolean true, and 0 for false and for every other kind.
    pub boolean: u8,
    /// Where an integer is: 1 if it is in `natural`, 2 if it is in `negative`, and 0 if the value
    /// is not an integer of 64 bits.
    pub form: u8,
    /// The integer, from 0 to 2^64 - 1, if `form` is 1. Else of no meaning.
    pub natural: u64,
    /// The integer, from -2^63 to -1, if `form` is 2. Else of no meaning.
    pub negative: i64,
    /// The number of elements of an array or members of an object, or the number of bytes of a
    /// string or of the literal of a number that is no integer of 64 bits. Else 0.
    pub length: usize,
}

// Returns the number of a boolean.
fn boolean_as(boolean: Option<bool>) -> u8
    ensures { result ≡ boolean_number boolean }
{
    match boolean {
        Some(true) => 1,
        _ => 0,
    }
}

// Returns the form of the integer of a number, and the integer.
fn integer_as(view: DocView<'_>) -> (u8, u64, i64)
    ensures { integer_shown result.0 result.1 result.2 ≡ integer_in_tree (view_tree view.entry) }
{
    match view.as_number() {
        Some(number) => match number.integer() {
            Integer::Unsigned(natural) => (1, natural, 0),
            Integer::Negative(negative) => (2, 0, negative),
        },
        None => (0, 0, 0),
    }
}

/// Returns the content of a string, or the literal of a number that is no integer of 64 bits;
/// `None` for every other value.
pub fn node_string(view: DocView<'_>) -> Option<&str>
    ensures { option_map (λ s. s.now) result ≡ text_or_literal (view_tree view.entry) }
{
    match view.text() {
        Some(text) => Some(text),
        None => view.literal(),
    }
}

// Returns how many elements, members or bytes there are.
fn length_of(view: DocView<'_>) -> usize
    ensures { result ≡ length_shown (view_tree view.entry) }
{
    match node_string(view) {
        Some(text) => text.len(),
        None => view.len(),
    }
}

/// Returns what the value at a document position is, as C reads it.
pub fn node_of(view: DocView<'_>) -> Node
    ensures { ShowsTree result (view_tree view.entry) }
{
    let (form, natural, negative) = integer_as(view);
    Node {
        kind: view.get_type() as u8,
        boolean: boolean_as(view.as_bool()),
        form,
        natural,
        negative,
        length: length_of(view),
    }
}
