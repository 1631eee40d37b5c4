// Where a value begins in a text.
ghost use Rattle.std.specs.Prelude.{◌≡◌, ◌≤◌, ◌<◌, ◌+◌, ℕ, List, ◌∷◌, [], ◌++◌, Some, true, false, length, map, IfSome};
ghost use Rattle.json_grammar.specs.Grammar.{is_text};
ghost use Rattle.json_grammar.specs.Tree.{Tree, Token as Tok, depth as depth_of, tokens, trees_tokens, list_trees, pairs_tokens, list_pairs, key_token};
ghost use Rattle.json_text.specs.Events.{Means, event_bytes};
ghost use Rattle.json_text.specs.Parsing.{SameInput};
ghost use Rattle.json_explain.specs.Explaining.{explained_step};
ghost use Rattle.json_explain.specs.Paths.{BeginsAt, PathLeadsTo, StepsTo, OnTheWay, TakesNext, levels_after_token};

use crate::refusal::Step;
use json_text::{Event, Parser};

// Takes the next token.
fn take<'a>(parser: &mut Parser<'a>) -> Option<Event<'a>>
    ensures same { SameInput parser.old parser.new }
    ensures forward { IfSome result (λ _. (parser.old.index < parser.new.index)
        × (parser.new.index ≤ length parser.new.text)) }
    ensures next { (limit : ℕ) (b : List ℕ) (t : Tree) (xs ys : List Tok) (x : Tok)
        → OnTheWay limit b t parser.old xs (x ∷ ys)
        → TakesNext limit b t parser.old parser.new xs x ys result }
{
    let event = match parser.next() {
        Ok(event) => event,
        Err(_) => return None,
    };
    match event {
        Event::End => None,
        _ => Some(event),
    }
}

// Returns how many containers are open within a value after one more event of it.
fn levels_after(event: Event<'_>, levels: usize, most: usize) -> usize
    requires { levels < most }
    ensures most { result ≤ most }
    ensures levels { (x : Tok) → Means event.entry x → result ≡ levels_after_token x levels }
{
    match event {
        Event::BeginArray | Event::BeginObject => levels + 1,
        Event::EndArray | Event::EndObject => levels.saturating_sub(1),
        _ => levels,
    }
}

// Takes the next value, and returns whether it was taken.
fn skip_value(parser: &mut Parser<'_>) -> bool
    ensures same { SameInput parser.old parser.new }
    ensures next { (limit : ℕ) (b : List ℕ) (t u : Tree) (xs ys : List Tok)
        → OnTheWay limit b t parser.old xs (tokens u ++ ys)
        → (result ≡ true) × OnTheWay limit b t parser.new (xs ++ tokens u) ys }
{
    let mut levels: usize = 0;
    'each: loop {
        let event = match take(parser) {
            Some(event) => event,
            None => return false,
        };
        levels = levels_after(event, levels, parser.index());
        if levels == 0 {
            return true;
        }
    }
}

// Takes `count` elements of an array, from the first on.
fn skip_elements(parser: &mut Parser<'_>, count: usize) -> bool
    ensures next { (limit : ℕ) (b : List ℕ) (t : Tree) (us : List Tree) (xs ys : List Tok)
        → length us ≡ count
        → OnTheWay limit b t parser.old xs (trees_tokens (list_trees us) ++ ys)
        → (result ≡ true)
        × OnTheWay limit b t parser.new (xs ++ trees_tokens (list_trees us)) ys }
{
    let mut left = count;
    'each: while left > 0 {
        if !skip_value(parser) {
            return false;
        }
        left -= 1;
    }
    true
}

// Takes `count` members of an object, from the first on, and the key of the next.
fn skip_members(parser: &mut Parser<'_>, count: usize) -> bool
    ensures next { (limit : ℕ) (b : List ℕ) (t : Tree) (us : List (List ℕ × Tree)) (k : List ℕ)
        (xs ys : List Tok)
        → length us ≡ count
        → OnTheWay limit b t parser.old xs (pairs_tokens (list_pairs us) ++ key_token k ∷ ys)
        → (result ≡ true) × OnTheWay limit b t parser.new
        (xs ++ (pairs_tokens (list_pairs us) ++ key_token k ∷ [])) ys }
{
    let mut left = count;
    'each: while left > 0 {
        match take(parser) {
            Some(_) => {}
            None => return false,
        }
        if !skip_value(parser) {
            return false;
        }
        left -= 1;
    }
    match take(parser) {
        Some(_) => true,
        None => false,
    }
}

// Takes what precedes the value to which a step leads within the next value.
fn enter(parser: &mut Parser<'_>, step: &Step) -> bool
    ensures next { (limit : ℕ) (b : List ℕ) (t u v : Tree) (xs ys zs : List Tok)
        → OnTheWay limit b t parser.old xs (tokens u ++ zs)
        → StepsTo u (explained_step step.now) v ys
        → (result ≡ true) × ((rest : List Tok)
        × OnTheWay limit b t parser.new (xs ++ ys) (tokens v ++ rest)) }
{
    match take(parser) {
        Some(_) => {}
        None => return false,
    }
    match step {
        Step::Index(index) => skip_elements(parser, *index),
        Step::Key(_, index) => skip_members(parser, *index),
    }
}

// Returns the offset at which an event begins, given the offset where its token ends.
fn value_start(event: Event<'_>, end: usize) -> Option<usize>
    ensures { (i : ℕ) → i + length (event_bytes event.entry) ≡ end → result ≡ Some i }
{
    match event {
        Event::Null | Event::Bool(true) => end.checked_sub(4),
        Event::Bool(false) => end.checked_sub(5),
        Event::Number(literal) => end.checked_sub(literal.len()),
        Event::Str(span) | Event::Key(span) => end.checked_sub(span.raw_len())?.checked_sub(2),
        Event::End => Some(end),
        _ => end.checked_sub(1),
    }
}

/// Returns the offset in bytes at which the value begins to which a path leads. The text has at
/// most `depth` levels.
pub(crate) fn offset_at_path(text: &str, depth: u32, steps: &[Step]) -> Option<usize>
    requires { depth ≤ 1024 }
    ensures { (t v : Tree) (xs : List Tok) → is_text false t text.now → depth_of t ≤ depth
        → PathLeadsTo t (map explained_step steps.now) v xs
        → (i : ℕ) × (result ≡ Some i) × BeginsAt depth text.now xs v i }
{
    let mut parser = Parser::new(text).depth(depth);
    let mut index: usize = 0;
    'each: while index < steps.len() {
        if !enter(&mut parser, &steps[index]) {
            return None;
        }
        index += 1;
    }
    match take(&mut parser) {
        Some(event) => value_start(event, parser.index()),
        None => None,
    }
}
