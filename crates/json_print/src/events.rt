// The parts of a value from left to right.
ghost use Rattle.std.specs.Prelude.{◌≡◌, List, Option, None, pos};
ghost use Rattle.std.specs.Fmt.{decimal, signed_decimal};
ghost use Rattle.json_grammar.specs.Grammar.{number};
ghost use Rattle.json_grammar.specs.TokenStates.{TokenState, MayCome, after_token};
ghost use Rattle.json_grammar.specs.Tree.{Token, null_token, boolean_token, num_token, text_token, begin, end, key_token};
ghost use Rattle.json_grammar.specs.declared.Kind.TheVariants.{Array as array, Object as object};
ghost use Rattle.json_io.specs.declared.error.Error.{Error};
ghost use Rattle.json_print.specs.Given.{TokenOrInteger, given, given_integer, token_of};
ghost use Rattle.json_print.specs.Taking.{Takes};

use json_io::Result;

/// Which part of a value may be written next. The contracts of [`Events`] say by it which method
/// may be called; no method returns it.
///
/// ```
/// use json_print::ExpectedEvent;
/// // after the beginning of an array the first element may follow, or the end
/// let turn = ExpectedEvent::Element(true);
/// assert!(rt; matches!(turn, ExpectedEvent::Element(first) if first));
/// ```
#[derive(Clone, Copy, Debug)]
pub enum ExpectedEvent {
    /// The whole value: no part of it was written.
    Value,
    /// An element, or the end of the array. The flag is true if no element was written yet.
    Element(bool),
    /// A key, or the end of the object. The flag is true if no key was written yet.
    Key(bool),
    /// The value of the member whose key was written last.
    Member,
    /// Nothing: the value is whole.
    Done,
}

/// Something to which one JSON value is written by its parts, from left to right, such as a
/// [`Serializer`](crate::Serializer). A scalar is one call; an array or an object is begun, gets
/// its elements or members, and is ended. Each call has to be of a part that may come next.
///
/// Errors are sticky: a call that meets an error returns it, and each later call returns it again
/// and changes nothing.
///
/// ```
/// use json_print::{Events, Serializer};
/// use json_io::VecSink;
/// let mut out = Serializer::new(alloc, VecSink::new(alloc));
/// out.begin_array(None)?;
/// out.text("x")?;
/// out.raw_number("1e5")?;
/// out.end_array()?;
/// assert_eq!(rt; out.into_inner().as_slice(), b"[\"x\",1e5]".as_slice());
/// ```
pub trait Events {
    ghost State: { Type 0 };

    /// What was written, as contracts see it.
    ghost state: { Self → State };

    /// The state after a part is written to a state.
    ghost after: { State → TokenOrInteger → State };

    /// Which parts may come next in a state.
    ghost token_state: { State → TokenState };

    /// The states that a call may leave that meets an error at a part, and the errors.
    ghost stopped: { State → TokenOrInteger → State → Error → Type 0 };

    /// The error that was returned first, if any.
    ghost failed: { Self → Option Error };

    /// Writes `null`. Fails if that cannot be written, and after any error with the same error.
    fn null(&mut self) -> Result<()>
        requires { failed self.old ≡ None → MayCome (token_state (state self.old)) null_token }
        ensures { Takes after stopped (state self.old) (state self.new)
            (failed self.old) (failed self.new) (given null_token) result };

    /// Writes `true` or `false`. Fails if that cannot be written, and after any error with the same
    /// error.
    fn boolean(&mut self, b: bool) -> Result<()>
        requires { failed self.old ≡ None → MayCome (token_state (state self.old)) (boolean_token b) }
        ensures { Takes after stopped (state self.old) (state self.new)
            (failed self.old) (failed self.new) (given (boolean_token b)) result };

    /// Writes an integer, as its decimal text. Fails if that cannot be written, and after any error
    /// with the same error.
    fn int(&mut self, n: i128) -> Result<()>
        requires { failed self.old ≡ None
            → MayCome (token_state (state self.old)) (num_token (signed_decimal n)) }
        ensures { Takes after stopped (state self.old) (state self.new)
            (failed self.old) (failed self.new) (given_integer n) result };

    /// Writes an integer from 0 on, as its decimal text. Fails if that cannot be written, and after
    /// any error with the same error.
    fn uint(&mut self, n: u128) -> Result<()>
        requires { failed self.old ≡ None
            → MayCome (token_state (state self.old)) (num_token (decimal n)) }
        ensures { Takes after stopped (state self.old) (state self.new)
            (failed self.old) (failed self.new) (given_integer (pos n)) result };

    /// Writes a number by its literal, which is kept as it is and has to be a number (RFC 8259,
    /// section 6). Fails if that cannot be written, and after any error with the same error.
    fn raw_number(&mut self, literal: &str) -> Result<()>
        requires number { number literal.now }
        requires come { failed self.old ≡ None
            → MayCome (token_state (state self.old)) (num_token literal.now) }
        ensures { Takes after stopped (state self.old) (state self.new)
            (failed self.old) (failed self.new) (given (num_token literal.now)) result };

    /// Writes a string that has the characters of `s`; `s` has no quotes and no escapes of its own.
    /// Fails if that cannot be written, and after any error with the same error.
    fn text(&mut self, s: &str) -> Result<()>
        requires { failed self.old ≡ None → MayCome (token_state (state self.old)) (text_token s.now) }
        ensures { Takes after stopped (state self.old) (state self.new)
            (failed self.old) (failed self.new) (given (text_token s.now)) result };

    /// Begins an array: its elements follow, and then [`Events::end_array`]. `hint` is the number
    /// of elements if it is known; what is written does not depend on it. Fails if that cannot be
    /// written, and after any error with the same error.
    fn begin_array(&mut self, hint: Option<usize>) -> Result<()>
        requires { failed self.old ≡ None → MayCome (token_state (state self.old)) (begin array) }
        ensures { Takes after stopped (state self.old) (state self.new)
            (failed self.old) (failed self.new) (given (begin array)) result };

    /// Ends the array that was begun last and is not ended yet. Fails if that cannot be written,
    /// and after any error with the same error.
    fn end_array(&mut self) -> Result<()>
        requires { failed self.old ≡ None → MayCome (token_state (state self.old)) (end array) }
        ensures { Takes after stopped (state self.old) (state self.new)
            (failed self.old) (failed self.new) (given (end array)) result };

    /// Begins an object: its members follow, each by [`Events::key`] and a value, and then
    /// [`Events::end_object`]. `hint` is the number of members if it is known; what is written does
    /// not depend on it. Fails if that cannot be written, and after any error with the same error.
    fn begin_object(&mut self, hint: Option<usize>) -> Result<()>
        requires { failed self.old ≡ None → MayCome (token_state (state self.old)) (begin object) }
        ensures { Takes after stopped (state self.old) (state self.new)
            (failed self.old) (failed self.new) (given (begin object)) result };

    /// Writes the key of the next member, which has the characters of `s`; its value has to follow.
    /// `s` has no quotes and no escapes of its own. Fails if that cannot be written, and after any
    /// error with the same error.
    fn key(&mut self, s: &str) -> Result<()>
        requires { failed self.old ≡ None → MayCome (token_state (state self.old)) (key_token s.now) }
        ensures { Takes after stopped (state self.old) (state self.new)
            (failed self.old) (failed self.new) (given (key_token s.now)) result };

    /// Ends the object that was begun last and is not ended yet. Fails if that cannot be written,
    /// and after any error with the same error.
    fn end_object(&mut self) -> Result<()>
        requires { failed self.old ≡ None → MayCome (token_state (state self.old)) (end object) }
        ensures { Takes after stopped (state self.old) (state self.new)
            (failed self.old) (failed self.new) (given (end object)) result };

    /// Which parts may come next changes as in the tokens of a tree.
    ghost moves: { (s : State) (g : TokenOrInteger)
        → token_state (after s g) ≡ after_token (token_state s) (token_of g) };
}
