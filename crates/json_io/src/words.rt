// The words of a command line.
ghost use Rattle.std.specs.Prelude.{◌≡◌, ℕ, ◌<◌, List, [], ◌∷◌, ◌++◌, length, map, string_bytes, slice_get, Some, OnOk, OnErr, IsErrOf, IsOkUnless};
ghost use Rattle.json_io.specs.Errors.{no_memory};

use crate::Result;
use std::alloc::Global;
use std::marker::Model;

/// The words of a command line. Contracts see the list of their bytes.
///
/// ```
/// use json_io::Words;
/// let mut words = Words::new(alloc);
/// words.push("--pretty")?;
/// words.push("--sort-keys")?;
/// assert_eq!(rt; (words.len(), words.word(0)), (2, "--pretty"));
/// ```
#[derive(Drop)]
pub struct Words {
    alloc: Global,
    words: Vec<String>,
}

impl Model for Words {
    ghost Value = { List (List ℕ) };

    ghost view = { λ w. map string_bytes w.words.items };
}

impl Words {
    /// Creates a list of no words.
    pub fn new(alloc: Global) -> Words
        ensures { result ≡ [] }
    {
        Words {
            alloc,
            words: Vec::new(alloc),
        }
    }

    /// Appends a word. Fails with `NoMemory`, and keeps the words, if memory runs out.
    pub fn push(&mut self, word: &str) -> Result<()>
        ensures ok { OnOk result (self.new ≡ self.old ++ word.now ∷ []) }
        ensures err { OnErr result (self.new ≡ self.old) }
        ensures only { IsOkUnless result no_memory }
    {
        let word = String::from_str(self.alloc, word)?;
        self.words.push(word)?;
        Ok(())
    }

    /// Returns the number of words.
    pub fn len(&self) -> usize
        ensures { result ≡ length self.now }
    {
        self.words.len()
    }

    /// Returns the word number `i`, counted from 0.
    pub fn word(&self, i: usize) -> &str
        requires { i < length self.now }
        ensures { slice_get self.now i ≡ Some result.now }
    {
        self.words[i].as_str()
    }
}
