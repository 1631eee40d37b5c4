// Events that write nothing: they tell whether each key has a text.
ghost use Rattle.std.specs.Prelude.{◌≡◌, None, Some, OnOk, refl};
ghost use Rattle.json_grammar.specs.TokenStates as states;
ghost use Rattle.json_grammar.specs.Tree.{Tree, null_token, begin, end};
ghost use Rattle.json_model.specs.Datum.{tree_of_datum};
ghost use Rattle.json_print.specs.Given.{given};
ghost use Rattle.json_write.specs.Testing as testing;
ghost use Rattle.json_write.specs.Testing.{Tests, expected_in_test};
ghost use Rattle.json_write.specs.Building.{FailsOnKeyText};

use crate::Serialize;
use crate::nesting::Nesting;
use json_grammar::Kind;
use json_io::{Error, Result};
use json_print::Events;
use std::alloc::Global;

#[derive(Drop)]
pub(crate) struct KeyTest {
    nesting: Nesting,
    failed: Option<Error>,
}

impl KeyTest {
    fn new(alloc: Global) -> KeyTest
        ensures fresh { result.failed ≡ None }
        ensures token_state { expected_in_test result ≡ states.initial_state }
    {
        KeyTest {
            nesting: Nesting::new(alloc),
            failed: None,
        }
    }

    // Notes that a value was taken.
    fn finish_value(&mut self) -> Result<()>
        ensures { Tests testing.passed self.old self.new (given null_token) result }
    {
        if let Some(error) = self.failed {
            return Err(error);
        }
        self.nesting.finish_value();
        Ok(())
    }

    fn begin(&mut self, kind: Kind) -> Result<()>
        ensures { Tests testing.state_given self.old self.new (given (begin kind)) result }
    {
        if let Some(error) = self.failed {
            return Err(error);
        }
        match self.nesting.begin(kind) {
            Ok(()) => Ok(()),
            Err(error) => {
                self.failed = Some(error);
                Err(error)
            }
        }
    }

    fn end(&mut self, kind: Kind) -> Result<()>
        ensures { Tests testing.state_given self.old self.new (given (end kind)) result }
    {
        if let Some(error) = self.failed {
            return Err(error);
        }
        self.nesting.end(kind);
        Ok(())
    }
}

impl Events for KeyTest {
    ghost State = { states.TokenState };

    ghost state = { expected_in_test };

    ghost after = { testing.state_given };

    ghost token_state = { λ s. s };

    ghost stopped = { testing.StopsTest };

    ghost failed = { λ s. s.failed };

    ghost moves = { λ s t. refl };

    fn null(&mut self) -> Result<()> {
        self.finish_value()
    }

    fn boolean(&mut self, b: bool) -> Result<()> {
        let _ = b;
        self.finish_value()
    }

    fn int(&mut self, n: i128) -> Result<()> {
        let _ = n;
        self.finish_value()
    }

    fn uint(&mut self, n: u128) -> Result<()> {
        let _ = n;
        self.finish_value()
    }

    fn raw_number(&mut self, literal: &str) -> Result<()> {
        let _ = literal;
        self.finish_value()
    }

    fn text(&mut self, s: &str) -> Result<()> {
        let _ = s;
        self.finish_value()
    }

    fn begin_array(&mut self, hint: Option<usize>) -> Result<()> {
        let _ = hint;
        self.begin(Kind::Array)
    }

    fn end_array(&mut self) -> Result<()> {
        self.end(Kind::Array)
    }

    fn begin_object(&mut self, hint: Option<usize>) -> Result<()> {
        let _ = hint;
        self.begin(Kind::Object)
    }

    fn key(&mut self, s: &str) -> Result<()> {
        if let Some(error) = self.failed {
            return Err(error);
        }
        self.nesting.key(s);
        Ok(())
    }

    fn end_object(&mut self) -> Result<()> {
        self.end(Kind::Object)
    }
}

// Checks that each key of the value has a text.
pub(crate) fn test_keys<T: Serialize>(alloc: Global, value: &T) -> Result<()>
    ensures ok { OnOk result ((t : Tree) × (tree_of_datum (T.datum value.now) ≡ Some t)) }
    ensures err { FailsOnKeyText (T.datum value.now) result }
{
    let mut test = KeyTest::new(alloc);
    value.serialize(&mut test)
}
