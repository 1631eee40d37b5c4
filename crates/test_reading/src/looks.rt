// How tests look at what is answered.
use json_text::{ErrorCode, Event, Parser, Result};
use std::alloc::Global;
use std::process::Abort;

/// The code of a refusal and its offset, where one is known.
pub type Refused = Option<(ErrorCode, Option<usize>)>;

/// The next event, with none of what is promised of it, which each caller would carry.
pub fn next_of<'a>(parser: &mut Parser<'a>) -> Result<Event<'a>> {
    parser.next()
}

/// What is refused, and at which offset.
pub fn refused_at<T: Drop>(outcome: Result<T>) -> Refused {
    match outcome {
        Ok(_) => None,
        Err(error) => Some((error.code, error.offset())),
    }
}

/// Whether it is refused with this code at this offset.
pub fn is_refused<T: Drop>(outcome: Result<T>, code: ErrorCode, offset: usize) -> bool {
    match outcome {
        Ok(_) => false,
        Err(error) => error.code == code && error.offset() == Some(offset),
    }
}

/// A row of a table: a text, and what is expected of it.
pub trait Row {
    /// The text.
    fn text(&self) -> &'static str;

    /// Whether it has the expected result.
    fn holds(&self, alloc: Global) -> bool;
}

fn first_wrong<R: Row>(alloc: Global, rows: &[R]) -> Option<&'static str> {
    for row in rows {
        if !row.holds(alloc) {
            return Some(row.text());
        }
    }
    None
}

/// Fails with the text of the first row that has another result.
pub fn each_holds<R: Row>(rt: &impl Abort, alloc: Global, rows: &[R]) {
    let wrong = first_wrong(alloc, rows);
    assert!(rt; wrong.is_none(), "{wrong:?}");
}
