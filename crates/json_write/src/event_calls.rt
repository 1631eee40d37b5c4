// Calls that write one token each. The body of a `Serialize::serialize` is made of them: their
// contracts say what was written, and that an error of the events is returned.
ghost use Rattle.std.specs.Prelude.{Some, [], ◌∷◌, pos};
ghost use Rattle.std.specs.Fmt.{decimal, signed_decimal};
ghost use Rattle.json_grammar.specs.Grammar.{number};
ghost use Rattle.json_grammar.specs.Tree.{null_token, boolean_token, num_token, text_token, begin, end, key_token};
ghost use Rattle.json_grammar.specs.declared.Kind.TheVariants.{Array as array, Object as object};
ghost use Rattle.json_print.specs.ExpectedEvents.{AcceptsValue, AcceptsKey, AcceptsEnd};
ghost use Rattle.json_print.specs.Given.{given, given_integer};
ghost use Rattle.json_write.specs.Writing.{WritesDatumTokens};

use json_io::Result;
use json_print::Events;

/// Writes `null` to `out`, where a value may come. Fails with the error of `out`, if its call
/// fails.
#[inline(always)]
pub fn write_null<E: Events>(out: &mut E) -> Result<()>
    requires { AcceptsValue (E.failed out.old) (E.token_state (E.state out.old)) }
    ensures { WritesDatumTokens E.after E.stopped (E.state out.old) (E.state out.new)
        (E.failed out.old) (E.failed out.new) (Some (given null_token) ∷ []) result }
{
    out.null()
}

/// Writes the boolean `b` to `out`, where a value may come. Fails with the error of `out`, if its
/// call fails.
#[inline(always)]
pub fn give_boolean<E: Events>(b: bool, out: &mut E) -> Result<()>
    requires { AcceptsValue (E.failed out.old) (E.token_state (E.state out.old)) }
    ensures { WritesDatumTokens E.after E.stopped (E.state out.old) (E.state out.new)
        (E.failed out.old) (E.failed out.new) (Some (given (boolean_token b)) ∷ []) result }
{
    out.boolean(b)
}

/// Writes the integer `n` to `out`, where a value may come. Fails with the error of `out`, if its
/// call fails.
#[inline(always)]
pub fn give_int<E: Events>(n: i128, out: &mut E) -> Result<()>
    requires { AcceptsValue (E.failed out.old) (E.token_state (E.state out.old)) }
    ensures { WritesDatumTokens E.after E.stopped (E.state out.old) (E.state out.new)
        (E.failed out.old) (E.failed out.new) (Some (given_integer n) ∷ []) result }
{
    out.int(n)
}

/// Writes the integer `n`, which is 0 or above, to `out`, where a value may come. Fails with the
/// error of `out`, if its call fails.
#[inline(always)]
pub fn give_uint<E: Events>(n: u128, out: &mut E) -> Result<()>
    requires { AcceptsValue (E.failed out.old) (E.token_state (E.state out.old)) }
    ensures { WritesDatumTokens E.after E.stopped (E.state out.old) (E.state out.new)
        (E.failed out.old) (E.failed out.new) (Some (given_integer (pos n)) ∷ []) result }
{
    out.uint(n)
}

/// Writes a number to `out`, where a value may come. `literal` is its text, which has to be a
/// number of JSON (RFC 8259, section 6). Fails with the error of `out`, if its call fails.
#[inline(always)]
pub fn give_literal<E: Events>(literal: &str, out: &mut E) -> Result<()>
    requires number { number literal.now }
    requires turn { AcceptsValue (E.failed out.old) (E.token_state (E.state out.old)) }
    ensures { WritesDatumTokens E.after E.stopped (E.state out.old) (E.state out.new)
        (E.failed out.old) (E.failed out.new) (Some (given (num_token literal.now)) ∷ []) result }
{
    out.raw_number(literal)
}

/// Writes the string `s` to `out`, where a value may come. `s` is the string itself, without quotes
/// or escapes. Fails with the error of `out`, if its call fails.
#[inline(always)]
pub fn give_text<E: Events>(s: &str, out: &mut E) -> Result<()>
    requires { AcceptsValue (E.failed out.old) (E.token_state (E.state out.old)) }
    ensures { WritesDatumTokens E.after E.stopped (E.state out.old) (E.state out.new)
        (E.failed out.old) (E.failed out.new) (Some (given (text_token s.now)) ∷ []) result }
{
    out.text(s)
}

/// Writes the beginning of an array to `out`, where a value may come. `hint` is how many elements
/// follow, if that is known; it changes nothing that is written. Fails with the error of `out`, if
/// its call fails.
#[inline(always)]
pub fn begin_list<E: Events>(hint: Option<usize>, out: &mut E) -> Result<()>
    requires { AcceptsValue (E.failed out.old) (E.token_state (E.state out.old)) }
    ensures { WritesDatumTokens E.after E.stopped (E.state out.old) (E.state out.new)
        (E.failed out.old) (E.failed out.new) (Some (given (begin array)) ∷ []) result }
{
    out.begin_array(hint)
}

/// Writes the end of the innermost open container, an array, to `out`. Fails with the error of
/// `out`, if its call fails.
#[inline(always)]
pub fn end_list<E: Events>(out: &mut E) -> Result<()>
    requires { AcceptsEnd (E.failed out.old) (E.token_state (E.state out.old)) array }
    ensures { WritesDatumTokens E.after E.stopped (E.state out.old) (E.state out.new)
        (E.failed out.old) (E.failed out.new) (Some (given (end array)) ∷ []) result }
{
    out.end_array()
}

/// Writes the beginning of an object to `out`, where a value may come. `hint` is how many members
/// follow, if that is known; it changes nothing that is written. Fails with the error of `out`, if
/// its call fails.
#[inline(always)]
pub fn begin_object<E: Events>(hint: Option<usize>, out: &mut E) -> Result<()>
    requires { AcceptsValue (E.failed out.old) (E.token_state (E.state out.old)) }
    ensures { WritesDatumTokens E.after E.stopped (E.state out.old) (E.state out.new)
        (E.failed out.old) (E.failed out.new) (Some (given (begin object)) ∷ []) result }
{
    out.begin_object(hint)
}

/// Writes the key of the next member to `out`, where a key may come. `s` is the key itself, without
/// quotes or escapes. Fails with the error of `out`, if its call fails.
#[inline(always)]
pub fn give_key<E: Events>(s: &str, out: &mut E) -> Result<()>
    requires { AcceptsKey (E.failed out.old) (E.token_state (E.state out.old)) }
    ensures { WritesDatumTokens E.after E.stopped (E.state out.old) (E.state out.new)
        (E.failed out.old) (E.failed out.new) (Some (given (key_token s.now)) ∷ []) result }
{
    out.key(s)
}

/// Writes the end of the innermost open container, an object, to `out`. Fails with the error of
/// `out`, if its call fails.
#[inline(always)]
pub fn end_rows<E: Events>(out: &mut E) -> Result<()>
    requires { AcceptsEnd (E.failed out.old) (E.token_state (E.state out.old)) object }
    ensures { WritesDatumTokens E.after E.stopped (E.state out.old) (E.state out.new)
        (E.failed out.old) (E.failed out.new) (Some (given (end object)) ∷ []) result }
{
    out.end_object()
}
