// Which tokens may follow.
ghost use Rattle.std.specs.Prelude.{◌≡◌, OnOk};
ghost use Rattle.json_grammar.specs.TokenStates.{initial_state, after_token};
ghost use Rattle.json_grammar.specs.Tree.{null_token, begin, end, key_token};
ghost use Rattle.json_io.specs.Errors.{OnlyNoMemory};
ghost use Rattle.json_write.specs.Nesting.{nesting_state};

use json_grammar::Kind;
use json_io::Result;
use json_print::ExpectedEvent;
use std::alloc::Global;

#[derive(Drop)]
pub(crate) struct Nesting {
    turn: ExpectedEvent,
    // The open containers, the innermost last.
    opened: Vec<Kind>,
}

impl Nesting {
    pub(crate) fn new(alloc: Global) -> Nesting
        ensures { nesting_state result ≡ initial_state }
    {
        Nesting {
            turn: ExpectedEvent::Value,
            opened: Vec::new(alloc),
        }
    }

    // Notes that a value was taken.
    pub(crate) fn finish_value(&mut self)
        ensures { nesting_state self.new ≡ after_token (nesting_state self.old) null_token }
    {
        self.turn = match self.opened.last() {
            None => ExpectedEvent::Done,
            Some(Kind::Array) => ExpectedEvent::Element(false),
            Some(Kind::Object) => ExpectedEvent::Key(false),
        };
    }

    pub(crate) fn begin(&mut self, kind: Kind) -> Result<()>
        ensures ok { OnOk result (nesting_state self.new
            ≡ after_token (nesting_state self.old) (begin kind)) }
        ensures err { OnlyNoMemory result }
    {
        self.opened.push(kind)?;
        self.turn = match kind {
            Kind::Array => ExpectedEvent::Element(true),
            Kind::Object => ExpectedEvent::Key(true),
        };
        Ok(())
    }

    pub(crate) fn end(&mut self, kind: Kind)
        ensures { nesting_state self.new ≡ after_token (nesting_state self.old) (end kind) }
    {
        let _ = kind;
        let _ = self.opened.pop();
        self.finish_value();
    }

    pub(crate) fn key(&mut self, key: &str)
        ensures { nesting_state self.new
            ≡ after_token (nesting_state self.old) (key_token key.now) }
    {
        let _ = key;
        self.turn = ExpectedEvent::Member;
    }
}
