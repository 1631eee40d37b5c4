// Hints at the usual causes of errors.
ghost use Rattle.std.specs.Prelude.{◌≡◌, true, IfSome, option_map};
ghost use Rattle.mezdruk_files.specs.Sentences.{is_hint, HintFits};

use crate::document_error::DocumentError;
use crate::part::{DocumentPart, Scope, is_blank};
use json_io::{Error, ErrorCode};

// Returns whether the last byte before the offset that is no whitespace is a comma.
fn follows_comma(bytes: &[u8], offset: usize) -> bool {
    let Some(before) = bytes.get(..offset) else {
        return false;
    };
    let last = before
        .iter()
        .rev()
        .find(|byte| !matches!(**byte, b' ' | b'\t' | b'\n' | b'\r'));
    last == Some(&b',')
}

// Returns a hint at what the bytes begin with.
fn hint_at_start(bytes: &[u8]) -> Option<&'static str>
    ensures { IfSome result (λ h. is_hint h.now ≡ true) }
{
    match bytes {
        [0xef, 0xbb, 0xbf, ..] => {
            Some("the input begins with a byte order mark; `--bom` skips it")
        }
        [0xff, 0xfe, ..] | [0xfe, 0xff, ..] | [0, _, ..] | [_, 0, ..] => {
            Some("the input looks like UTF-16; JSON text is UTF-8")
        }
        _ => None,
    }
}

// Returns a hint at another value after the value.
fn hint_at_value(scope: Scope) -> &'static str
    ensures { is_hint result.now ≡ true }
{
    match scope {
        Scope::Document =>
            "`--lines` reads a document from each line, `--stream` one after another",
        _ => "`--stream` reads documents one after another",
    }
}

// Returns a hint at the bytes where a value is expected.
fn hint_at_no_value(bytes: &[u8]) -> Option<&'static str>
    ensures { IfSome result (λ h. is_hint h.now ≡ true) }
{
    match bytes {
        [b'T' | b'F', ..] | [b'N', b'u' | b'U' | b'o' | b'O', ..] => {
            Some("the literals are `null`, `true` and `false`, in lower case")
        }
        [b'N' | b'I', ..] => Some("JSON has no NaN and no Infinity"),
        [b'u', ..] => Some("JSON has no `undefined`"),
        [b'.', ..] => Some("a number has digits on both sides of its point"),
        [b'+', ..] => Some("a number has no plus sign"),
        [b'\'', ..] => Some("strings and keys have double quotes"),
        _ => None,
    }
}

// Returns whether the byte before the offset is a zero.
fn follows_zero(bytes: &[u8], offset: usize) -> bool {
    matches!(bytes.get(..offset), Some([.., b'0']))
}

// Returns a hint at the byte where the error is, outside of strings.
fn hint_at_byte(code: ErrorCode, byte: u8) -> Option<&'static str>
    ensures { IfSome result (λ h. is_hint h.now ≡ true) }
{
    match (code, byte) {
        (ErrorCode::InvalidNumber, b'0'..=b'9') => Some("a number has no leading zeros"),
        (ErrorCode::InvalidNumber, b'N' | b'I') => Some("JSON has no NaN and no Infinity"),
        (ErrorCode::InvalidNumber, b'.') => {
            Some("a number has digits on both sides of its point")
        }
        (ErrorCode::ExpectObjectKeyOrEnd, b'\'') => Some("strings and keys have double quotes"),
        (
            ErrorCode::InvalidJsonValue
            | ErrorCode::ExpectObjectKeyOrEnd
            | ErrorCode::ExpectedColon
            | ErrorCode::ExpectedArrayCommaOrEnd
            | ErrorCode::ExpectedObjectCommaOrEnd
            | ErrorCode::TrailingCharacters,
            b'/' | b'#',
        ) => Some("JSON has no comments"),
        _ => None,
    }
}

// Returns a hint at an error at an offset of the bytes.
fn hint_at(part: DocumentPart<'_>, code: ErrorCode, offset: usize) -> Option<&'static str>
    ensures { IfSome result (λ h. is_hint h.now ≡ true) }
{
    let rest = part.bytes.get(offset..)?;
    let byte = *rest.first()?;
    if let Some(hint) = hint_at_byte(code, byte) {
        return Some(hint);
    }
    match (code, byte) {
        (ErrorCode::TrailingComma, _) => Some("JSON has no comma before a closing bracket"),
        (ErrorCode::InvalidJsonValue, b']') if follows_comma(part.bytes, offset) => {
            Some("JSON has no comma before a closing bracket")
        }
        (ErrorCode::InvalidJsonValue, _) => hint_at_no_value(rest),
        (
            ErrorCode::TrailingCharacters
            | ErrorCode::ExpectedArrayCommaOrEnd
            | ErrorCode::ExpectedObjectCommaOrEnd,
            b'x' | b'X',
        ) if follows_zero(part.bytes, offset) => Some("JSON has no hexadecimal numbers"),
        (ErrorCode::TrailingCharacters, b'{' | b'[' | b'"' | b'-' | b'0'..=b'9') => {
            Some(hint_at_value(part.scope))
        }
        _ => None,
    }
}

// Returns a hint at an error at the end of the bytes.
fn hint_at_end(part: DocumentPart<'_>, code: ErrorCode) -> Option<&'static str>
    ensures { IfSome result (λ h. is_hint h.now ≡ true) }
{
    match code {
        ErrorCode::EofWhileParsing if part.bytes.is_empty() => Some("the input is empty"),
        ErrorCode::EofWhileParsing if is_blank(part.bytes) => {
            Some("the input has only whitespace")
        }
        _ => None,
    }
}

// Returns a hint at the usual cause of an error of an input.
fn hint_of_input(part: DocumentPart<'_>, error: &Error) -> Option<&'static str>
    ensures { IfSome result (λ h. is_hint h.now ≡ true) }
{
    let offset = error.offset()?;
    if offset <= 1 {
        let hint = hint_at_start(part.bytes);
        if hint.is_some() {
            return hint;
        }
    }
    if offset == part.bytes.len() {
        return hint_at_end(part, error.code);
    }
    hint_at(part, error.code, offset)
}

/// Returns a sentence about the usual cause of an error, if it has one.
pub(crate) fn hint_of(part: DocumentPart<'_>, error: &DocumentError) -> Option<&'static str>
    ensures { HintFits error.now (option_map (λ s. s.now) result) }
{
    match error {
        DocumentError::Input(error) => hint_of_input(part, error),
        DocumentError::Change(_) => None,
    }
}
