// A value within a text.
ghost use Rattle.std.specs.Prelude.{◌≤◌, List, IfOk, IfErr};
ghost use Rattle.json_grammar.specs.Tree.{Token as Tok};
ghost use Rattle.json_text.specs.Parsing.{HasGiven, SameInput, KeepsHasRead};
ghost use Rattle.json_doc.specs.OneValue.{HandedOut, ReadsValue};
ghost use Rattle.json_value.specs.Denotes.{tree_of};
ghost use Rattle.json_tokens.specs.Text.{TextFails};
ghost use Rattle.json_tokens.specs.TextValues.{IsPackedAtRoot};

use json_doc::read_following_value;
use json_io::Result;
use json_text::{Event, Parser};
use json_value::Value;
use std::alloc::Global;

/// Reads the rest of a value into a packed document of its own, and returns it. `first` is the
/// value's first event, which the parser has just returned; the parser goes on to the end of the
/// value.
pub(crate) fn packed_value<'a>(
    alloc: Global,
    parser: &mut Parser<'a>,
    first: Event<'a>,
) -> Result<Value>
    requires { HandedOut parser.old first }
    ensures same { SameInput parser.old parser.new }
    ensures order { parser.old.index ≤ parser.new.index }
    ensures ok { IfOk result (λ v. ReadsValue parser.old first.entry (tree_of v) parser.new) }
    ensures place { IfOk result IsPackedAtRoot }
    ensures whole { KeepsHasRead parser.old parser.new }
    ensures err { IfErr result (TextFails parser.new) }
    ensures given { (ts : List Tok) × HasGiven parser.new ts }
{
    let doc = read_following_value(alloc, parser, first)?;
    Value::from_place(alloc, &doc, doc.root())
}
