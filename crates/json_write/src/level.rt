// An open container.
ghost use Rattle.std.specs.Prelude.{◌≡◌, [], ◌∷◌, OnOk, IfOk};
ghost use Rattle.json_grammar.specs.Tree.{Tree};
ghost use Rattle.json_io.specs.Errors.{OnlyNoMemory};
ghost use Rattle.json_value.specs.Denotes.{text_bytes, tree_of};
ghost use Rattle.json_write.specs.Building.{frame_of, new_frame, frame_key, frame_take, frame_tree};

use json_grammar::Kind;
use json_io::Result;
use json_value::{Pair, Text, Value};
use std::alloc::Global;
use std::mem;

#[derive(Drop)]
pub(crate) struct OpenContainer {
    kind: Kind,
    values: Vec<Value>,
    members: Vec<Pair>,
    // The key of the next member.
    key: Text,
}

impl OpenContainer {
    pub(crate) fn new(alloc: Global, kind: Kind) -> OpenContainer
        ensures { frame_of result ≡ new_frame kind }
    {
        OpenContainer {
            kind,
            values: Vec::new(alloc),
            members: Vec::new(alloc),
            key: Text::from_static(""),
        }
    }

    pub(crate) fn set_key(&mut self, key: Text)
        ensures { frame_of self.new ≡ frame_key (frame_of self.old) (text_bytes key) }
    {
        self.key = key;
    }

    pub(crate) fn take(&mut self, value: Value) -> Result<()>
        ensures ok { OnOk result (frame_of self.new
            ≡ frame_take (frame_of self.old) (tree_of value)) }
        ensures err { OnlyNoMemory result }
    {
        match self.kind {
            Kind::Array => self.values.push(value)?,
            Kind::Object => {
                let key = mem::replace(&mut self.key, Text::from_static(""));
                self.members.push(Pair::new(key, value))?;
            }
        }
        Ok(())
    }

    pub(crate) fn into_value(self, alloc: Global) -> Result<Value>
        ensures ok { IfOk result (λ v. tree_of v ≡ frame_tree (frame_of self)) }
        ensures err { OnlyNoMemory result }
    {
        match self.kind {
            Kind::Array => Ok(Value::from_vec(self.values)),
            Kind::Object => Value::from_pairs(alloc, self.members),
        }
    }

    // Returns the first element, or null if there is none.
    pub(crate) fn into_first(mut self) -> Value
        ensures { (t : Tree) → (frame_of self).values ≡ t ∷ [] → tree_of result ≡ t }
    {
        match self.values.pop() {
            Some(value) => value,
            None => Value::new_null(),
        }
    }
}
