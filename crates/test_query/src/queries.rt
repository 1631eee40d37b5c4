// Queries, and the values that they select.
use json_query::{Query, Segment, Selector, Slice};
use json_text::Result;
use json_value::View;
use std::alloc::Global;
use test_fixtures::{first_wrong, read};

// The bookstore of RFC 9535, section 1.5.
pub(crate) const BOOKSTORE: &str = r#"{"store": {"book": [
{"category": "reference", "author": "Nigel Rees", "title": "Sayings of the Century", "price": 8.95},
{"category": "fiction", "author": "Evelyn Waugh", "title": "Sword of Honour", "price": 12.99},
{"category": "fiction", "author": "Herman Melville", "title": "Moby Dick", "isbn": "0-553-21311-3", "price": 8.99},
{"category": "fiction", "author": "J. R. R. Tolkien", "title": "The Lord of the Rings", "isbn": "0-395-19395-8", "price": 22.99}
], "bicycle": {"color": "red", "price": 399}}}"#;

pub(crate) const LETTERS: &str = r#"["a", "b", "c", "d", "e", "f", "g"]"#;

// Returns a selector of the name.
fn name(alloc: Global, name: &str) -> Result<Selector> {
    Ok(Selector::Name(String::from_str(alloc, name)?))
}

// Returns a slice.
fn slice(start: Option<i64>, end: Option<i64>, step: i64) -> Selector {
    Selector::Slice(Slice { start, end, step })
}

// Returns a segment with one selector, of children.
fn child(alloc: Global, selector: Selector) -> Result<Segment> {
    let mut selectors = Vec::new(alloc);
    selectors.push(selector)?;
    Ok(Segment::Child(selectors))
}

// Returns a segment with one selector, of all that is below.
fn below(alloc: Global, selector: Selector) -> Result<Segment> {
    let mut selectors = Vec::new(alloc);
    selectors.push(selector)?;
    Ok(Segment::Descendant(selectors))
}

// Returns a query of one segment.
fn one(alloc: Global, segment: Segment) -> Result<Query> {
    let mut segments = Vec::new(alloc);
    segments.push(segment)?;
    Ok(Query::new(segments))
}

// Returns a query of two segments.
fn two(alloc: Global, first: Segment, second: Segment) -> Result<Query> {
    let mut segments = Vec::new(alloc);
    segments.push(first)?;
    segments.push(second)?;
    Ok(Query::new(segments))
}

// Returns the texts of the values, with a space between them.
fn texts_of(alloc: Global, found: &[View<'_>]) -> Result<String> {
    let mut texts = String::new(alloc);
    for view in found {
        let value = view.to_value(alloc)?;
        let text = value.to_string(alloc)?;
        if !texts.is_empty() {
            texts.push(' ')?;
        }
        texts.push_str(text.as_str())?;
    }
    Ok(texts)
}

// Whether the query selects values with these texts.
pub(crate) fn selects(alloc: Global, document: &str, query: &Query, want: &str) -> Result<bool> {
    let document = read(alloc, document)?;
    let found = query.select(alloc, View::packed(document.view()))?;
    let texts = texts_of(alloc, found.as_slice())?;
    Ok(texts.as_str() == want)
}

// `$`.
fn root(alloc: Global) -> Result<bool> {
    let query = Query::new(Vec::new(alloc));
    selects(alloc, r#"{"k": "v"}"#, &query, r#"{"k":"v"}"#)
}

// `$.store.*`, of which the second is an object.
fn wildcard(alloc: Global) -> Result<bool> {
    let store = child(alloc, name(alloc, "store")?)?;
    let query = two(alloc, store, child(alloc, Selector::Wildcard)?)?;
    let want = r#"[1,2] {"b":3}"#;
    selects(
        alloc,
        r#"{"store": {"x": [1, 2], "y": {"b": 3}}}"#,
        &query,
        want,
    )
}

// `$..price`.
fn prices(alloc: Global) -> Result<bool> {
    let query = one(alloc, below(alloc, name(alloc, "price")?)?)?;
    selects(alloc, BOOKSTORE, &query, "8.95 12.99 8.99 22.99 399")
}

// `$..book[-1]..author`, without its first segment.
fn last_author(alloc: Global) -> Result<bool> {
    let last = below(alloc, Selector::Index(-1))?;
    let query = two(alloc, last, below(alloc, name(alloc, "author")?)?)?;
    selects(alloc, BOOKSTORE, &query, r#""J. R. R. Tolkien""#)
}

// `$[5:1:-2]`.
fn backwards(alloc: Global) -> Result<bool> {
    let query = one(alloc, child(alloc, slice(Some(5), Some(1), -2))?)?;
    selects(alloc, LETTERS, &query, r#""f" "d""#)
}

// `$[-3:9007199254740991]`.
fn last_three(alloc: Global) -> Result<bool> {
    let query = one(
        alloc,
        child(alloc, slice(Some(-3), Some(9_007_199_254_740_991), 1))?,
    )?;
    selects(alloc, LETTERS, &query, r#""e" "f" "g""#)
}

// `$[::i]` with the least `i64`, and `$[::0]`.
fn steps(alloc: Global) -> Result<bool> {
    let far = one(alloc, child(alloc, slice(None, None, i64::MIN))?)?;
    let none = one(alloc, child(alloc, slice(None, None, 0))?)?;
    Ok(selects(alloc, LETTERS, &far, r#""g""#)? && selects(alloc, LETTERS, &none, "")?)
}

// `$.a`, with a name that repeats.
fn repeated(alloc: Global) -> Result<bool> {
    let query = one(alloc, child(alloc, name(alloc, "a")?)?)?;
    selects(alloc, r#"{"a": 1, "b": null, "a": 2}"#, &query, "1 2")
}

// `$["é"]` of a name with an escape.
fn escaped(alloc: Global) -> Result<bool> {
    let query = one(alloc, child(alloc, name(alloc, "é")?)?)?;
    selects(alloc, r#"{"\u00e9": 1}"#, &query, "1")
}

#[test]
fn queries_select_values(rt: HostRuntime) {
    let alloc = rt.alloc();
    let rows = [
        ("root", matches!(root(alloc), Ok(true))),
        ("wildcard", matches!(wildcard(alloc), Ok(true))),
        ("prices", matches!(prices(alloc), Ok(true))),
        ("last_author", matches!(last_author(alloc), Ok(true))),
        ("backwards", matches!(backwards(alloc), Ok(true))),
        ("last_three", matches!(last_three(alloc), Ok(true))),
        ("steps", matches!(steps(alloc), Ok(true))),
        ("repeated", matches!(repeated(alloc), Ok(true))),
        ("escaped", matches!(escaped(alloc), Ok(true))),
    ];
    assert_eq!(rt; first_wrong(&rows), None);
}
