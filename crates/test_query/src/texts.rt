// Queries that are read from their texts, with what they select, and texts that are none.
use crate::queries::{BOOKSTORE, LETTERS, selects};
use json_query::{Query, QueryCode};
use json_text::Result;
use std::alloc::Global;

// Queries of the bookstore of RFC 9535, section 1.5, with the values that they select, if any.
const OF_THE_BOOKSTORE: &str =
    r#"$.store.book[*].author → "Nigel Rees" "Evelyn Waugh" "Herman Melville" "J. R. R. Tolkien"
$..author → "Nigel Rees" "Evelyn Waugh" "Herman Melville" "J. R. R. Tolkien"
$.store..price → 8.95 12.99 8.99 22.99 399
$..book[2].author → "Herman Melville"
$..book[2].publisher
$..book[-1].title → "The Lord of the Rings"
$..book[0,1].title → "Sayings of the Century" "Sword of Honour"
$..book[:2].title → "Sayings of the Century" "Sword of Honour"
$['store']["bicycle"].* → "red" 399"#;

// The document of section 2.3.1.3, and names by escapes and beyond ASCII.
const NAMES: &str =
    r#"{"o": {"j j": {"k.k": 3}}, "'": {"@": 2}, "☺": 4, "𝄞": 5, "a\"b'": 6, "\\/\b\t": 7, "_1": 8}"#;

const OF_NAMES: &str = r#"$.o['j j'] → {"k.k":3}
$.o['j j']['k.k'] → 3
$.o["j j"]["k.k"] → 3
$["'"]["@"] → 2
$['\'']['@'] → 2
$.☺ → 4
$["\u263a"] → 4
$['\u263A', '☺'] → 4 4
$.𝄞 → 5
$['\uD834\udd1e'] → 5
$["a\"b'"] → 6
$['a"b\''] → 6
$["\\\/\b\t"] → 7
$._1 → 8"#;

// The document of section 2.3.2.3 with more elements, as in section 2.5.2.3.
const NESTED: &str = r#"{"o": {"j": 1, "k": 2}, "a": [5, 3, [{"j": 4}, {"k": 6}]]}"#;

const OF_NESTED: &str = r#"$.o[*] → 1 2
$.o[*, *] → 1 2 1 2
$.o.* → 1 2
$.a[*] → 5 3 [{"j":4},{"k":6}]
$..j → 1 4
$..[0] → 5 {"j":4}
$..o → {"j":1,"k":2}
$.o..[*, *] → 1 2 1 2
$.a..[0, 1] → 5 3 {"j":4} {"k":6}
$.a[2].*.* → 4 6
$..*.k → 2 6
$ .o  ["k" ,'j' ] → 2 1
$..['j', 'k'] → 1 2 4 6"#;

// Of the letters, as in sections 2.3.3.3, 2.3.4.3 and 2.5.1.3.
const OF_LETTERS: &str = r#"$[1] → "b"
$[-2] → "f"
$[9007199254740991]
$[1:3] → "b" "c"
$[5:] → "f" "g"
$[1:5:2] → "b" "d"
$[5:1:-2] → "f" "d"
$[::-1] → "g" "f" "e" "d" "c" "b" "a"
$[:] → "a" "b" "c" "d" "e" "f" "g"
$[-9007199254740991:2] → "a" "b"
$[ 1 : 5 : 2 ] → "b" "d"
$[ : : 3 ] → "a" "d" "g"
$[0, 3] → "a" "d"
$[0:2, 5] → "a" "b" "f"
$[0, 0] → "a" "a""#;

// Returns the two parts of a row.
fn parts(row: &str) -> (&str, &str) {
    row.split_once(" → ").unwrap_or((row, ""))
}

// Whether the text is a query that selects values with these texts.
fn text_selects(alloc: Global, document: &str, text: &str, want: &str) -> Result<bool> {
    match Query::parse(alloc, text) {
        Ok(query) => selects(alloc, document, &query, want),
        Err(_) => Ok(false),
    }
}

// Returns the number of the first row, counted from 1, that does not hold.
fn first_other(alloc: Global, document: &str, rows: &str) -> Result<Option<usize>> {
    for (i, row) in rows.lines().enumerate() {
        let (text, want) = parts(row);
        if !text_selects(alloc, document, text, want)? {
            return Ok(Some(i + 1));
        }
    }
    Ok(None)
}

#[test]
fn texts_of_queries_select_values(rt: HostRuntime) {
    assert!(rt;
        matches!(
            first_other(rt.alloc(), BOOKSTORE, OF_THE_BOOKSTORE),
            Ok(None)
        )
    );
    assert!(rt; matches!(first_other(rt.alloc(), NAMES, OF_NAMES), Ok(None)));
    assert!(rt; matches!(first_other(rt.alloc(), NESTED, OF_NESTED), Ok(None)));
    assert!(rt; matches!(first_other(rt.alloc(), LETTERS, OF_LETTERS), Ok(None)));
}

// A text that is no query, with the code and the offset of its error.
type Refused = (&'static str, QueryCode, usize);

const OF_SEGMENTS: [Refused; 15] = [
    ("", QueryCode::ExpectedRoot, 0),
    ("a", QueryCode::ExpectedRoot, 0),
    (" $", QueryCode::ExpectedRoot, 0),
    ("$ ", QueryCode::ExpectedSegment, 2),
    ("$.a ", QueryCode::ExpectedSegment, 4),
    ("$a", QueryCode::ExpectedSegment, 1),
    ("$.a-b", QueryCode::ExpectedSegment, 3),
    ("$é", QueryCode::ExpectedSegment, 1),
    ("$.", QueryCode::ExpectedName, 2),
    ("$. a", QueryCode::ExpectedName, 2),
    ("$.1a", QueryCode::ExpectedName, 2),
    ("$.['a']", QueryCode::ExpectedName, 2),
    ("$..", QueryCode::ExpectedName, 3),
    ("$...a", QueryCode::ExpectedName, 3),
    ("$.é.é.", QueryCode::ExpectedName, 8),
];

const OF_SELECTORS: [Refused; 19] = [
    ("$[", QueryCode::ExpectedSelector, 2),
    ("$[]", QueryCode::ExpectedSelector, 2),
    ("$[a]", QueryCode::ExpectedSelector, 2),
    ("$[1,]", QueryCode::ExpectedSelector, 4),
    ("$[1", QueryCode::ExpectedCommaOrBracket, 3),
    ("$[1 2]", QueryCode::ExpectedCommaOrBracket, 4),
    ("$['a'", QueryCode::ExpectedCommaOrBracket, 5),
    ("$[01]", QueryCode::ExpectedCommaOrBracket, 3),
    ("$[1.0]", QueryCode::ExpectedCommaOrBracket, 3),
    ("$[1:a]", QueryCode::ExpectedCommaOrBracket, 4),
    ("$[1:2:3:4]", QueryCode::ExpectedCommaOrBracket, 7),
    ("$[-0]", QueryCode::ExpectedDigit, 3),
    ("$[-]", QueryCode::ExpectedDigit, 3),
    ("$[- 1]", QueryCode::ExpectedDigit, 3),
    ("$[9007199254740992]", QueryCode::IntegerOutOfRange, 17),
    ("$[-9007199254740992]", QueryCode::IntegerOutOfRange, 18),
    ("$[::90071992547409910]", QueryCode::IntegerOutOfRange, 20),
    ("$[?@.a]", QueryCode::Filter, 2),
    ("$.a[*, ?", QueryCode::Filter, 7),
];

const OF_STRINGS: [Refused; 12] = [
    ("$['a", QueryCode::UnclosedString, 4),
    ("$['a\"", QueryCode::UnclosedString, 5),
    ("$['a\\'", QueryCode::UnclosedString, 6),
    ("$[\"\n\"]", QueryCode::ControlCharacter, 3),
    (r#"$['\"']"#, QueryCode::InvalidEscape, 4),
    (r#"$["\'"]"#, QueryCode::InvalidEscape, 4),
    (r#"$["\u12g4"]"#, QueryCode::InvalidEscape, 7),
    (r#"$["\U0041"]"#, QueryCode::InvalidEscape, 4),
    (r#"$["\uDC00"]"#, QueryCode::InvalidSurrogate, 6),
    (r#"$["\uD834"]"#, QueryCode::InvalidSurrogate, 9),
    (r#"$["\uD834\n"]"#, QueryCode::InvalidSurrogate, 10),
    (r#"$["\uD834\u0041"]"#, QueryCode::InvalidSurrogate, 11),
];

// Whether the text is refused with this code at this offset.
fn is_refused(alloc: Global, text: &str, code: QueryCode, offset: usize) -> bool {
    match Query::parse(alloc, text) {
        Ok(_) => false,
        Err(error) => error.code == code && error.offset == offset,
    }
}

// Returns the text of the first row that does not hold.
fn first_not_refused(alloc: Global, rows: &[Refused]) -> Option<&'static str> {
    for (text, code, offset) in rows {
        if !is_refused(alloc, *text, *code, *offset) {
            return Some(*text);
        }
    }
    None
}

#[test]
fn texts_that_are_no_queries(rt: HostRuntime) {
    assert_eq!(rt; first_not_refused(rt.alloc(), &OF_SEGMENTS), None);
    assert_eq!(rt; first_not_refused(rt.alloc(), &OF_SELECTORS), None);
    assert_eq!(rt; first_not_refused(rt.alloc(), &OF_STRINGS), None);
}

#[test]
fn names_of_codes(rt: HostRuntime) {
    assert_eq!(rt; QueryCode::IntegerOutOfRange.name(), "IntegerOutOfRange");
    assert_eq!(rt; QueryCode::Filter.name(), "Filter");
}
