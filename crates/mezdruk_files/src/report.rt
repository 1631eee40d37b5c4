// The reports of errors.
ghost use Rattle.std.specs.Prelude.{◌≡◌, ◌≤◌, ◌+◌, ◌++◌, List, ℕ, true, Option, None, length, codes, decimal, IfOk, OnOk, IfSome, option_map};
ghost use Rattle.mezdruk_files.specs.Excerpts.{IsExcerpt};
ghost use Rattle.mezdruk_files.specs.Parts.{part_view, whole_part as spec_whole_part, HasFewLines};
ghost use Rattle.mezdruk_files.specs.Reports.{IsReport, IsHeadline, IsExcerptAt, location, error_place, document_error_name, change_name, report_offset, position_of};
ghost use Rattle.mezdruk_files.specs.Sentences.{input_sentence, is_lower_case, document_sentence, counted_word, scope_number as number_of, hint_line};
ghost use Rattle.json_io.specs.Errors.{name_of, OnlyNoMemory};

use crate::change_error::ChangeError;
use crate::document_error::DocumentError;
use crate::excerpt::push_excerpt;
use crate::hint::hint_of;
use crate::part::{DocumentPart, Scope, whole_part};
use itoa::Buffer;
use json_io::{Error, ErrorCode, FaultText, Place, Result, fault_text, place_of};
use std::alloc::Global;

// A line and a column, counted from 1.
#[derive(Clone, Copy)]
pub(crate) struct Position {
    pub(crate) line: usize,
    pub(crate) column: usize,
}

// Returns the sentence of a code.
fn sentence_of(code: ErrorCode) -> &'static str
    ensures { result.now ≡ input_sentence code }
{
    match code {
        ErrorCode::NoMemory => "memory ran out",
        ErrorCode::Io => "a read or a write failed",
        ErrorCode::TooLarge => "the input has more than 4,294,967,295 bytes",
        ErrorCode::InvalidUTF8 => "the input is not UTF-8",
        ErrorCode::EofWhileParsing => "the input ends before its value does",
        ErrorCode::InvalidLiteral => "only `null`, `true` and `false` are literals",
        ErrorCode::InvalidNumber => "the number is not complete or has a leading zero",
        ErrorCode::ExpectedColon => "a colon is expected after the key",
        ErrorCode::ExpectedArrayCommaOrEnd => "a comma or `]` is expected after the element",
        ErrorCode::ExpectedObjectCommaOrEnd => "a comma or `}` is expected after the member",
        ErrorCode::ExpectObjectKeyOrEnd => "a key in double quotes or `}` is expected",
        ErrorCode::TrailingComma => "a comma comes before `}`",
        ErrorCode::InvalidJsonValue => "a value is expected",
        ErrorCode::ControlCharacter => "a control character in a string has to be escaped",
        ErrorCode::InvalidEscape => "the escape is not valid",
        ErrorCode::InvalidSurrogate => "the escape of a surrogate is not part of a pair",
        ErrorCode::TrailingCharacters => "only whitespace may follow the value",
        ErrorCode::RecursionLimitExceeded => "the input has too many levels",
        ErrorCode::NotFound => "a key or an index is not there",
        ErrorCode::TypeUnmatched => "a key meets no object, or an index no array",
        ErrorCode::NumberOutOfRange => "the number is out of range",
        ErrorCode::SerExpectKeyIsStrOrNum => "the key is no string, number or boolean",
        ErrorCode::ExpectedNumericKey => "the key is no number",
        ErrorCode::BadWords => "the arguments are not valid",
        ErrorCode::DuplicateKey => "the key occurs twice in its object",
    }
}

// Appends a number in decimal.
fn push_count(text: &mut Vec<u8>, n: usize) -> Result<()>
    ensures ok { OnOk result (text.new.items ≡ text.old.items ++ decimal n) }
    ensures only { OnlyNoMemory result }
{
    let mut buffer = Buffer::new();
    text.extend_from_slice(buffer.format(n).as_bytes())?;
    Ok(())
}

// Appends the line and the column, if they are known.
fn push_position(text: &mut Vec<u8>, position: Option<Position>) -> Result<()>
    ensures ok { OnOk result (text.new.items ≡ location text.old.items position) }
    ensures only { OnlyNoMemory result }
{
    match position {
        Some(position) => {
            text.extend_from_slice(b":")?;
            push_count(text, position.line)?;
            text.extend_from_slice(b":")?;
            push_count(text, position.column)?;
            Ok(())
        }
        None => Ok(()),
    }
}

// Returns the first line of a report.
fn headline(
    alloc: Global,
    name: &str,
    position: Option<Position>,
    sentence: &[u8],
    code: &[u8],
) -> Result<Vec<u8>>
    ensures ok { IfOk result (λ line. IsHeadline name.now position sentence.now code.now
        line.items) }
    ensures only { OnlyNoMemory result }
{
    let mut text = name.as_bytes().to_vec(alloc)?;
    push_position(&mut text, position)?;
    text.extend_from_slice(b": ")?;
    text.extend_from_slice(sentence)?;
    text.extend_from_slice(b" (")?;
    text.extend_from_slice(code)?;
    text.extend_from_slice(b")\n")?;
    Ok(text)
}

// Returns the text of an error of this code without a place: the name of the code and a newline.
fn name_line(code: ErrorCode) -> FaultText
    ensures { result ≡ name_of code ++ codes "\n" }
{
    fault_text(&Error {
        code,
        place: Place::None,
    })
}

// Returns the first line of the report of an input.
fn input_headline(
    alloc: Global,
    name: &str,
    position: Option<Position>,
    code: ErrorCode,
) -> Result<Vec<u8>>
    ensures ok { IfOk result (λ line. IsHeadline name.now position (input_sentence code)
        (name_of code) line.items) }
    ensures only { OnlyNoMemory result }
{
    let line = name_line(code);
    let (name_of_code, _newline) = line.as_bytes().split_at(line.as_bytes().len() - 1);
    headline(
        alloc,
        name,
        position,
        sentence_of(code).as_bytes(),
        name_of_code,
    )
}

// Appends a word, a number and `: `, if there is a number.
fn push_counted(text: &mut Vec<u8>, word: &str, number: Option<usize>) -> Result<()>
    ensures ok { OnOk result (text.new.items ≡ text.old.items ++ counted_word word.now number) }
    ensures only { OnlyNoMemory result }
{
    match number {
        Some(number) => {
            text.extend_from_slice(word.as_bytes())?;
            text.extend_from_slice(b" ")?;
            push_count(text, number)?;
            text.extend_from_slice(b": ")?;
            Ok(())
        }
        None => Ok(()),
    }
}

// Returns the number of the value of a stream.
fn scope_number(scope: Scope) -> Option<usize>
    ensures { result ≡ number_of scope }
{
    match scope {
        Scope::Value(number) => Some(number),
        _ => None,
    }
}

// Returns the number of the part of the change that does not apply.
fn part_number(error: &ChangeError) -> Option<usize>
    ensures { result ≡ error.now.number }
{
    match error.number {
        Some(number) => Some(number as usize),
        None => None,
    }
}

// Returns the sentence about a change: which value of the document, which part of the change, and
// why it does not apply.
fn change_sentence(
    alloc: Global,
    scope: Scope,
    part_name: &str,
    error: &ChangeError,
) -> Result<Vec<u8>>
    ensures ok { IfOk result (λ text. text.items
        ≡ document_sentence scope part_name.now (DocumentError.Change error.now)) }
    ensures only { OnlyNoMemory result }
{
    let mut text = Vec::new(alloc);
    push_counted(&mut text, "value", scope_number(scope))?;
    push_counted(&mut text, part_name, part_number(error))?;
    text.extend_from_slice(error.code.sentence().as_bytes())?;
    Ok(text)
}

// Returns the place of an error in a part of a document.
fn place_of_error(scope: Scope, error: &DocumentError) -> Place
    ensures { result ≡ error_place scope error.now }
{
    match (error, scope) {
        (DocumentError::Input(error), _) => error.place,
        (DocumentError::Change(_), Scope::Line) => Place::At {
            offset: 0,
            line: 1,
            column: 1,
        },
        (DocumentError::Change(_), _) => Place::None,
    }
}

// Returns the offset of a place in the bytes.
fn find_offset(bytes: &[u8], place: Place) -> Option<usize>
    ensures offset { result ≡ report_offset bytes.now place }
    ensures within { IfSome result (λ offset. offset ≤ length bytes.now) }
{
    match place {
        Place::At { offset, .. } if offset <= bytes.len() => Some(offset),
        _ => None,
    }
}

// Returns the line and the column of an offset.
#[tactic(auto, unfolding(json_io::specs::Positions::place_at))]
fn find_position(part: DocumentPart<'_>, offset: Option<usize>) -> Option<Position>
    requires few { HasFewLines (part_view part) }
    requires within { IfSome offset (λ offset. offset ≤ length (part_view part).bytes) }
    ensures { result
        ≡ position_of (part_view part.entry).before (part_view part.entry).bytes offset }
{
    match offset {
        Some(offset) => match place_of(part.bytes, offset) {
            Place::At { line, column, .. } => Some(Position {
                line: part.before + line,
                column,
            }),
            _ => unreachable!(),
        },
        None => None,
    }
}

// Appends the excerpt at an offset, if there is one.
fn push_excerpt_at(text: &mut Vec<u8>, bytes: &[u8], offset: Option<usize>) -> Result<()>
    requires { IfSome offset (λ offset. offset ≤ length bytes.now) }
    ensures ok { OnOk result ((excerpt : List ℕ) × IsExcerptAt bytes.now offset excerpt
        × (text.new.items ≡ text.old.items ++ excerpt)) }
    ensures only { OnlyNoMemory result }
{
    match offset {
        Some(offset) => push_excerpt(text, bytes, offset),
        None => Ok(()),
    }
}

// Appends a hint, if there is one.
fn push_hint(text: &mut Vec<u8>, hint: Option<&str>) -> Result<()>
    ensures ok { OnOk result (text.new.items
        ≡ text.old.items ++ hint_line (option_map (λ s. s.now) hint.entry)) }
    ensures only { OnlyNoMemory result }
{
    match hint {
        Some(hint) => {
            text.extend_from_slice(b"hint: ")?;
            text.extend_from_slice(hint.as_bytes())?;
            text.extend_from_slice(b"\n")?;
            Ok(())
        }
        None => Ok(()),
    }
}

// Returns the first line of the report of a document.
fn document_headline(
    alloc: Global,
    part: DocumentPart<'_>,
    position: Option<Position>,
    error: &DocumentError,
    part_name: &str,
) -> Result<Vec<u8>>
    ensures ok { IfOk result (λ line. IsHeadline (part_view part.entry).name position
        (document_sentence (part_view part.entry).scope part_name.now error.now)
        (document_error_name error.now) line.items) }
    ensures only { OnlyNoMemory result }
{
    match error {
        DocumentError::Input(error) => input_headline(alloc, part.name, position, error.code),
        DocumentError::Change(error) => {
            let sentence = change_sentence(alloc, part.scope, part_name, error)?;
            let code = error.code.name().as_bytes();
            headline(alloc, part.name, position, &sentence, code)
        }
    }
}

/// Returns the report of an error of a part of a document: a line that says what is wrong and
/// where, the line of the document with a caret, and a hint. `part_name` is the word for a part of
/// the change. Fails with `NoMemory` if memory runs out.
pub(crate) fn document_report(
    alloc: Global,
    part: DocumentPart<'_>,
    error: &DocumentError,
    part_name: &str,
) -> Result<Vec<u8>>
    requires few { HasFewLines (part_view part) }
    requires word { is_lower_case part_name.now ≡ true }
    ensures ok { IfOk result (λ report. IsReport (part_view part.entry) error.now report.items) }
    ensures only { OnlyNoMemory result }
{
    let offset = find_offset(part.bytes, place_of_error(part.scope, error));
    let position = find_position(part, offset);
    let mut text = document_headline(alloc, part, position, error, part_name)?;
    push_excerpt_at(&mut text, part.bytes, offset)?;
    push_hint(&mut text, hint_of(part, error))?;
    Ok(text)
}

/// Returns the report of an error in the document of this name, whose text `bytes` are: a line
/// `NAME:LINE:COLUMN: sentence (CodeName)`, without a line and a column if the error has no place
/// in the text. If it has one, the line of the text there follows, cut to 76 bytes, with a caret
/// below the byte, and then a hint if the cause is a usual one. Fails with `NoMemory` if memory runs
/// out.
///
/// ```
/// use json_text::{check_utf8, place_of, Error, ErrorCode};
/// use mezdruk_files::input_report;
/// let place = place_of(b"[1,]", 3);
/// let error = Error { code: ErrorCode::InvalidJsonValue, place };
/// let report = input_report(alloc, "a.json", b"[1,]", &error)?;
/// let expected = b"a.json:1:4: a value is expected (InvalidJsonValue)\n[1,]\n   ^\n\
///     hint: JSON has no comma before a closing bracket\n";
/// assert_eq!(rt; report.as_slice(), expected.as_slice());
/// ```
pub fn input_report(alloc: Global, name: &str, bytes: &[u8], error: &Error) -> Result<Vec<u8>>
    ensures ok { IfOk result (λ report. IsReport (spec_whole_part name.now bytes.now)
        (DocumentError.Input error.now) report.items) }
    ensures only { OnlyNoMemory result }
{
    let part = whole_part(name, bytes);
    document_report(alloc, part, &DocumentError::Input(*error), "")
}

/// Returns the report of a file that could not be read or written: the line `NAME: REASON (Io)` and
/// a newline. `name` is that of the file, and `reason` is what the system says. Fails with
/// `NoMemory` if memory runs out.
///
/// ```
/// use mezdruk_files::file_report;
/// let report = file_report(alloc, "a.json", "there is no such file")?;
/// assert_eq!(rt; report.as_slice(), b"a.json: there is no such file (Io)\n".as_slice());
/// ```
pub fn file_report(alloc: Global, name: &str, reason: &str) -> Result<Vec<u8>>
    ensures ok { IfOk result (λ line. IsHeadline name.now None reason.now (codes "Io")
        line.items) }
    ensures only { OnlyNoMemory result }
{
    headline(alloc, name, None, reason.as_bytes(), b"Io")
}
