// How tests look at what is answered. No contract says what these return, so that tests carry none
// of what is promised of the calls.
use json_data::{Deserialize, from_str};
use json_text::{ErrorCode, Result, VecSink};
use json_write::{Serialize, to_string, to_string_pretty, to_value, to_vec, to_writer};
use std::alloc::Global;
use std::process::Abort;
use test_fixtures::shows;

/// The code of a refusal and its offset, where one is known.
pub type Refused = Option<(ErrorCode, Option<usize>)>;

/// Whether an answer is that all is right.
pub fn holds(answer: Result<bool>) -> bool {
    matches!(answer, Ok(true))
}

/// A row of a table: a text, and what is expected of it.
pub trait Row {
    /// The text.
    fn text(&self) -> &'static str;

    /// Whether it has the expected result.
    fn holds(&self, alloc: Global) -> bool;
}

fn first_wrong<R: Row>(alloc: Global, rows: &[R]) -> Option<&'static str> {
    for row in rows {
        if !row.holds(alloc) {
            return Some(row.text());
        }
    }
    None
}

/// Fails with the text of the first row that has another result.
pub fn each_holds<R: Row>(rt: &impl Abort, alloc: Global, rows: &[R]) {
    let wrong = first_wrong(alloc, rows);
    assert!(rt; wrong.is_none(), "{wrong:?}");
}

/// What is refused, and at which offset.
pub fn refused_at<T: Drop>(outcome: Result<T>) -> Refused {
    match outcome {
        Ok(_) => None,
        Err(error) => Some((error.code, error.offset())),
    }
}

/// The code of a refusal, none of an answer that is Ok.
pub fn code_of<T: Drop>(outcome: Result<T>) -> Option<ErrorCode> {
    match outcome {
        Ok(_) => None,
        Err(error) => Some(error.code),
    }
}

/// Whether this is refused, at this offset.
pub fn is_refused<T: Drop>(outcome: Result<T>, code: ErrorCode, offset: usize) -> bool {
    match outcome {
        Ok(_) => false,
        Err(error) => error.code == code && error.offset() == Some(offset),
    }
}

/// The value that is read of a text.
pub fn read<'a, T: Deserialize<'a> + Drop>(alloc: Global, text: &'a str) -> Result<T> {
    from_str(alloc, text)
}

fn is_vec<T: Serialize>(alloc: Global, value: &T, text: &str) -> bool {
    match to_vec(alloc, value) {
        Ok(bytes) => bytes.as_slice() == text.as_bytes(),
        Err(_) => false,
    }
}

/// Whether the text is written by `to_vec`, and by `to_writer` into a sink.
pub fn is_written<T: Serialize>(alloc: Global, value: &T, text: &str) -> Result<bool> {
    let mut sink = VecSink::new(alloc);
    to_writer(alloc, &mut sink, value)?;
    Ok(sink.as_slice() == text.as_bytes() && is_vec(alloc, value, text))
}

/// Whether the value that is made prints as this text.
pub fn is_value<T: Serialize>(alloc: Global, value: &T, text: &str) -> Result<bool> {
    shows(alloc, &to_value(alloc, value)?, text)
}

/// Whether `to_string` returns this text.
pub fn is_string<T: Serialize>(alloc: Global, value: &T, text: &str) -> Result<bool> {
    Ok(to_string(alloc, value)?.as_str() == text)
}

/// Whether `to_string_pretty` returns this text.
pub fn is_pretty<T: Serialize>(alloc: Global, value: &T, text: &str) -> Result<bool> {
    Ok(to_string_pretty(alloc, value)?.as_str() == text)
}

/// Whether the value is refused with this code as a value.
pub fn is_no_value<T: Serialize>(alloc: Global, value: &T, code: ErrorCode) -> bool {
    code_of(to_value(alloc, value)) == Some(code)
}

/// Whether the value is refused with this code as a text, in a sink, which then gained nothing, and
/// as a value.
pub fn is_unwritten<T: Serialize>(alloc: Global, value: &T, code: ErrorCode) -> bool {
    let mut sink = VecSink::new(alloc);
    code_of(to_vec(alloc, value)) == Some(code)
        && code_of(to_writer(alloc, &mut sink, value)) == Some(code)
        && sink.as_slice().is_empty()
        && is_no_value(alloc, value, code)
}
