// Reading the text of a query (RFC 9535, section 2.1 and appendix A).
ghost use Rattle.std.specs.Prelude.{◌≡◌, ℕ, ◌<◌, ◌≤◌, List, [], ◌∷◌, ◌++◌, Bool, true, length, map, IfOk, IfErr, MatchOption, MatchResult, Option, ℤ, encode_utf8, string_bytes};
ghost use Rattle.json_query.specs.Errors.{HasCause, ParsingFails, no_memory_in_fault};
ghost use Rattle.json_query.specs.Models.{query_of, segment_of, selector_of};
ghost use Rattle.json_query.specs.Query.{Segment as Part, name_selector};
ghost use Rattle.json_query.specs.Reading.{BeginsInteger, DottedAt, EndsBefore, EndsName, NoBlank, Stops, after_end};
ghost use Rattle.json_query.specs.Text.{IsQuery};
ghost use Rattle.json_query.specs.TextStates.{State, Brackets, opened, with_selector, with_segment, before_root, before_selector, after_selector, before_end, after_segment, after_blank, after_dot, after_dots, in_name, class_of, is_name_class, is_query, is_refused, outcome, query_outcome};

use crate::cursor::{Class, Read, class_of, next_char, skip_blank, split_class};
use crate::error::{Fault, QueryCode, QueryError};
use crate::integers::{begins_integer, read_integer};
use crate::query::{Query, Segment, Selector, Slice};
use crate::strings::read_quoted;
use std::alloc::Global;

// Reads the step of a slice with the colon before it, if it has one.
fn read_step(start: Option<i64>, end: Option<i64>, text: &str) -> Read<'_, Selector>
    requires no_blank { NoBlank text.now }
    requires ends { EndsBefore end text.now }
    ensures read { (o : Brackets) → MatchResult result
        (λ r. outcome (after_end start end o) text.now
        ≡ outcome (after_selector (with_selector o (selector_of r.0))) r.1.now)
        (λ f. outcome (after_end start end o) text.now ≡ is_refused f.code f.left) }
    ensures within { IfOk result (λ r. length r.1.now ≤ length text.now) }
{
    let (class, rest) = split_class(text);
    match class {
        Class::Colon => {
            let step_text = skip_blank(rest);
            if begins_integer(step_text) {
                let (step, after) = read_integer(step_text)?;
                return Ok((Selector::Slice(Slice { start, end, step }), after));
            }
            let step = 1;
            Ok((Selector::Slice(Slice { start, end, step }), step_text))
        }
        _ => {
            let step = 1;
            Ok((Selector::Slice(Slice { start, end, step }), text))
        }
    }
}

// Reads a slice from the character after its first colon on.
fn read_slice(start: Option<i64>, text: &str) -> Read<'_, Selector>
    ensures read { (o : Brackets) → MatchResult result
        (λ r. outcome (before_end start o) text.now
        ≡ outcome (after_selector (with_selector o (selector_of r.0))) r.1.now)
        (λ f. outcome (before_end start o) text.now ≡ is_refused f.code f.left) }
    ensures within { IfOk result (λ r. length r.1.now ≤ length text.now) }
{
    let end_text = skip_blank(text);
    if !begins_integer(end_text) {
        return read_step(start, None, end_text);
    }
    let (end, rest) = read_integer(end_text)?;
    read_step(start, Some(end), skip_blank(rest))
}

// Reads an index, or a slice that begins with an integer.
fn read_index_or_slice(text: &str) -> Read<'_, Selector>
    requires { BeginsInteger text.now }
    ensures read { (o : Brackets) → MatchResult result
        (λ r. outcome (before_selector o) text.now
        ≡ outcome (after_selector (with_selector o (selector_of r.0))) r.1.now)
        (λ f. outcome (before_selector o) text.now ≡ is_refused f.code f.left) }
    ensures within { IfOk result (λ r. length r.1.now ≤ length text.now) }
{
    let (index, rest) = read_integer(text)?;
    let end = skip_blank(rest);
    let (class, after) = split_class(end);
    match class {
        Class::Colon => read_slice(Some(index), after),
        _ => Ok((Selector::Index(index), end)),
    }
}

// Reads a selector.
fn read_selector(alloc: Global, text: &str) -> Read<'_, Selector>
    requires { NoBlank text.now }
    ensures read { (o : Brackets) → MatchResult result
        (λ r. outcome (before_selector o) text.now
        ≡ outcome (after_selector (with_selector o (selector_of r.0))) r.1.now)
        (λ f. Stops (before_selector o) text.now f) }
    ensures within { IfOk result (λ r. length r.1.now ≤ length text.now) }
{
    if begins_integer(text) {
        return read_index_or_slice(text);
    }
    match next_char(text) {
        Some((c, rest)) => match class_of(c) {
            Class::QuotationMark => {
                let (name, after) = read_quoted(alloc, c, rest)?;
                Ok((Selector::Name(name), after))
            }
            Class::Star => Ok((Selector::Wildcard, rest)),
            Class::Colon => read_slice(None, rest),
            Class::Question => Err(Fault::before(QueryCode::Filter, text)),
            _ => Err(Fault::before(QueryCode::ExpectedSelector, text)),
        },
        None => Err(Fault::before(QueryCode::ExpectedSelector, text)),
    }
}

// Reads selectors from the character after `[` on, to the `]` that ends them.
fn read_bracketed(alloc: Global, text: &str) -> Read<'_, Vec<Selector>>
    ensures read { (qs : List Part) (descends : Bool) → MatchResult result
        (λ r. outcome (before_selector (opened qs descends)) text.now
        ≡ outcome (after_segment (with_segment qs descends (map selector_of r.0.items)))
        r.1.now)
        (λ f. Stops (before_selector (opened qs descends)) text.now f) }
    ensures within { IfOk result (λ r. length r.1.now ≤ length text.now) }
{
    let mut selectors = Vec::new(alloc);
    let mut rest = text;
    'selectors: loop {
        let (selector, after) = read_selector(alloc, skip_blank(rest))?;
        selectors.push(selector)?;
        let end = skip_blank(after);
        let (class, next) = split_class(end);
        match class {
            Class::Closing => return Ok((selectors, next)),
            Class::Comma => rest = next,
            _ => return Err(Fault::before(QueryCode::ExpectedCommaOrBracket, end)),
        }
    }
}

// Returns whether a name without quotation marks may have a character of this class.
fn is_name_class(class: Class) -> bool
    ensures { result ≡ is_name_class class }
{
    match class {
        Class::Letter | Class::BeyondAscii | Class::ZeroDigit | Class::Digit => true,
        _ => false,
    }
}

// Returns the character with which the text begins, and the text after it, if a name without
// quotation marks may have it.
fn next_name_char(text: &str) -> Option<(char, &str)>
    ensures { MatchOption result (EndsName text.now)
        (λ p. (is_name_class (class_of p.0) ≡ true) × (text.now ≡ encode_utf8 p.0 ++ p.1.now)) }
{
    match next_char(text) {
        Some((c, rest)) => {
            if is_name_class(class_of(c)) {
                return Some((c, rest));
            }
            None
        }
        None => None,
    }
}

// Reads a name without quotation marks.
fn read_name(alloc: Global, text: &str) -> Read<'_, String>
    ensures read { IfOk result (λ r. (qs : List Part) (descends : Bool) →
        outcome (in_name qs descends []) text.now ≡ outcome (after_segment
        (with_segment qs descends (name_selector (string_bytes r.0) ∷ []))) r.1.now) }
    ensures memory { IfErr result (λ f. f ≡ no_memory_in_fault) }
    ensures within { IfOk result (λ r. length r.1.now ≤ length text.now) }
{
    let mut name = String::new(alloc);
    let mut rest = text;
    'characters: while let Some((c, after)) = next_name_char(rest) {
        name.push(c)?;
        rest = after;
    }
    Ok((name, rest))
}

// Reads what follows a dot: `*`, or a name without quotation marks.
fn read_dotted(alloc: Global, text: &str) -> Read<'_, Vec<Selector>>
    ensures read { (s : State) (qs : List Part) (descends : Bool) → DottedAt s qs descends text.now
        → MatchResult result
        (λ r. outcome s text.now
        ≡ outcome (after_segment (with_segment qs descends (map selector_of r.0.items)))
        r.1.now)
        (λ f. Stops s text.now f) }
    ensures within { IfOk result (λ r. length r.1.now ≤ length text.now) }
{
    let mut selectors = Vec::new(alloc);
    let (class, rest) = split_class(text);
    match class {
        Class::Star => {
            selectors.push(Selector::Wildcard)?;
            Ok((selectors, rest))
        }
        Class::Letter | Class::BeyondAscii => {
            let (name, after) = read_name(alloc, text)?;
            selectors.push(Selector::Name(name))?;
            Ok((selectors, after))
        }
        _ => Err(Fault::before(QueryCode::ExpectedName, text)),
    }
}

// Reads what follows two dots.
fn read_descendant(alloc: Global, text: &str) -> Read<'_, Vec<Selector>>
    ensures read { (qs : List Part) → MatchResult result
        (λ r. outcome (after_dots qs) text.now
        ≡ outcome (after_segment (with_segment qs true (map selector_of r.0.items))) r.1.now)
        (λ f. Stops (after_dots qs) text.now f) }
    ensures within { IfOk result (λ r. length r.1.now ≤ length text.now) }
{
    let (class, rest) = split_class(text);
    match class {
        Class::Opening => read_bracketed(alloc, rest),
        _ => read_dotted(alloc, text),
    }
}

// Reads a segment from the character after its first dot on.
fn read_after_dot(alloc: Global, text: &str) -> Read<'_, Segment>
    ensures read { (qs : List Part) → MatchResult result
        (λ r. outcome (after_dot qs) text.now
        ≡ outcome (after_segment (qs ++ segment_of r.0 ∷ [])) r.1.now)
        (λ f. Stops (after_dot qs) text.now f) }
    ensures within { IfOk result (λ r. length r.1.now ≤ length text.now) }
{
    let (class, rest) = split_class(text);
    match class {
        Class::Dot => {
            let (selectors, after) = read_descendant(alloc, rest)?;
            Ok((Segment::Descendant(selectors), after))
        }
        _ => {
            let (children, after) = read_dotted(alloc, text)?;
            Ok((Segment::Child(children), after))
        }
    }
}

// Reads a segment.
fn read_segment(alloc: Global, text: &str) -> Read<'_, Segment>
    requires { NoBlank text.now }
    ensures read { (qs : List Part) → MatchResult result
        (λ r. outcome (after_blank qs) text.now
        ≡ outcome (after_segment (qs ++ segment_of r.0 ∷ [])) r.1.now)
        (λ f. Stops (after_blank qs) text.now f) }
    ensures within { IfOk result (λ r. length r.1.now < length text.now) }
{
    let (class, rest) = split_class(text);
    match class {
        Class::Opening => {
            let (selectors, after) = read_bracketed(alloc, rest)?;
            Ok((Segment::Child(selectors), after))
        }
        Class::Dot => read_after_dot(alloc, rest),
        _ => Err(Fault::before(QueryCode::ExpectedSegment, text)),
    }
}

// Reads the segments that are the whole text, with blank space before each.
fn read_segments(alloc: Global, text: &str) -> Result<Vec<Segment>, Fault>
    ensures { MatchResult result
        (λ v. outcome (after_segment []) text.now ≡ is_query (map segment_of v.items))
        (λ f. Stops (after_segment []) text.now f) }
{
    let mut segments = Vec::new(alloc);
    let mut rest = text;
    'segments: while !rest.is_empty() {
        let (segment, after) = read_segment(alloc, skip_blank(rest))?;
        segments.push(segment)?;
        rest = after;
    }
    Ok(segments)
}

// Reads a query that is the whole text.
fn read_query(alloc: Global, text: &str) -> Result<Query, Fault>
    ensures { MatchResult result
        (λ q. query_outcome text.now ≡ is_query (query_of q))
        (λ f. Stops before_root text.now f) }
{
    let (class, rest) = split_class(text);
    match class {
        Class::Root => {
            let segments = read_segments(alloc, rest)?;
            Ok(Query { segments })
        }
        _ => Err(Fault::before(QueryCode::ExpectedRoot, text)),
    }
}

impl Query {
    /// Parses the text of a query (RFC 9535, section 2.1.1). Filters are not read.
    ///
    /// Fails if the text is no query, with the offset at which the longest prefix ends with which
    /// some query begins. Fails with `Filter` at the `?` of a filter, and with `NoMemory` if memory
    /// runs out.
    ///
    /// ```
    /// use json_query::Query;
    /// let query = Query::parse(alloc, "$.store.book[-1]['title']").ok().ok_or("no query")?;
    /// assert_eq!(rt; query.segments().len(), 4);
    /// ```
    pub fn parse(alloc: Global, text: &str) -> Result<Query, QueryError>
        ensures ok { IfOk result (λ q. IsQuery (query_of q) text.now) }
        ensures refused { IfErr result (λ e. ParsingFails text.now e.code e.offset) }
        ensures cause { IfErr result (λ e. HasCause text.now e.code e.offset) }
    {
        match read_query(alloc, text) {
            Ok(query) => Ok(query),
            Err(fault) => Err(fault.in_text(text)),
        }
    }
}
