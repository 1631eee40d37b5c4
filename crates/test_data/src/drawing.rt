// A drawing: a struct whose fields are tuples and lists of them.
mod json;

// json: derive
/// A drawing.
#[derive(Drop)]
pub struct Drawing {
    /// How many columns and rows of pixels it has.
    pub size: (u16, u16),
    /// The pixels that are not black: the column, the row, and how red, green and blue each is.
    pub pixels: Vec<(u16, u16, u8, u8, u8)>,
    /// Its title, whether that is shown, and a letter for it in lists.
    pub title: Option<(String, bool, char)>,
}
