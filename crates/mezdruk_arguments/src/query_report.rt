// What is reported of a query that is refused.
use json_query::{QueryCode, QueryError};
use std::alloc::{AllocError, Global};

// A longer query is not shown.
const MAX_SHOWN: usize = 200;

// Returns what is expected where the query is wrong, or what is wrong there.
fn fault_sentence(code: QueryCode) -> &'static str {
    match code {
        QueryCode::NoMemory => "memory ran out",
        QueryCode::ExpectedRoot => "`$` is expected",
        QueryCode::ExpectedSegment => "`.` or `[` is expected",
        QueryCode::ExpectedName => "a name or `*` is expected",
        QueryCode::ExpectedSelector => "a string, an index, a slice or `*` is expected",
        QueryCode::ExpectedCommaOrBracket => "`,` or `]` is expected",
        QueryCode::ExpectedDigit => "a digit from 1 to 9 is expected",
        QueryCode::IntegerOutOfRange => "the integer is beyond 9007199254740991",
        QueryCode::UnclosedString => "the string is not closed",
        QueryCode::ControlCharacter => "a control character has to be escaped",
        QueryCode::InvalidEscape => "the escape is none of a string",
        QueryCode::InvalidSurrogate => "the escape is half of a surrogate pair",
        QueryCode::Filter => "filters are not supported yet",
    }
}

// Returns whether the text is shown: it is short, and has no control characters of ASCII.
fn is_shown(text: &str) -> bool {
    text.len() <= MAX_SHOWN && text.bytes().all(|byte| byte >= b' ' && byte != 127)
}

// Appends a line with the text, and one with a caret below the character at the offset.
fn push_caret(report: &mut String, text: &str, offset: usize) -> Result<(), AllocError> {
    report.push('\n')?;
    report.push_str(text)?;
    report.push('\n')?;
    let mut left = offset;
    for character in text.chars() {
        if left == 0 {
            break;
        }
        report.push(' ')?;
        left = left.saturating_sub(character.len_utf8());
    }
    report.push('^')
}

// Appends a line that says how a query that does not begin with `$` may be meant.
fn push_hint(report: &mut String, text: &str) -> Result<(), AllocError> {
    match text.as_bytes() {
        [b'/', ..] => report.push_str("\nhint: `mezdruk get` takes a JSON Pointer"),
        [b'.' | b'[', _, ..] => {
            report.push_str("\nhint: did you mean `$")?;
            report.push_str(text)?;
            report.push_str("`?")
        }
        _ => Ok(()),
    }
}

/// Returns what is wrong with an operand that is no query: what is expected and at which offset,
/// and below it the text with a caret there.
pub(crate) fn query_problem(
    alloc: Global,
    text: &str,
    error: QueryError,
) -> Result<String, AllocError> {
    let (sentence, name) = (fault_sentence(error.code), error.code.name());
    let offset = error.offset;
    let mut report = format!(in alloc;
        "QUERY is no JSONPath query: {sentence} ({name}) at offset {offset}"
    )?;
    if is_shown(text) {
        push_caret(&mut report, text, offset)?;
        if error.code == QueryCode::ExpectedRoot {
            push_hint(&mut report, text)?;
        }
    }
    Ok(report)
}
