// The arguments of `mezdruk rpc` over the document of a file.

use json_text::Words;

/// What the arguments after `rpc` ask for.
#[derive(Clone, Copy)]
pub struct RpcOptions<'a> {
    /// The file whose document is served.
    pub file: Option<&'a str>,
    /// Whether the file is written after each change.
    pub save: bool,
}

/// An argument that is not valid, and what is wrong with it.
#[derive(Clone, Copy)]
pub struct InvalidWord<'a> {
    /// The argument.
    pub word: &'a str,
    /// What is said after its name.
    pub reason: &'static str,
}

impl<'a> RpcOptions<'a> {
    // Adds the file, of which there is one.
    fn with_file(self, word: &'a str, file: &'a str) -> Result<RpcOptions<'a>, InvalidWord<'a>> {
        let reason = if self.file.is_some() {
            "the option occurs twice"
        } else if file.is_empty() || file.starts_with('-') {
            "the option takes the name of a file"
        } else {
            let file = Some(file);
            return Ok(RpcOptions { file, ..self });
        };
        Err(InvalidWord { word, reason })
    }

    // Adds `--save`, which occurs once.
    fn with_save(self, word: &'a str) -> Result<RpcOptions<'a>, InvalidWord<'a>> {
        if self.save {
            let reason = "the option occurs twice";
            return Err(InvalidWord { word, reason });
        }
        Ok(RpcOptions { save: true, ..self })
    }

    // Adds an argument that is no name of a file.
    fn with_word(self, word: &'a str) -> Result<RpcOptions<'a>, InvalidWord<'a>> {
        if word == "--save" {
            return self.with_save(word);
        }
        match word.strip_prefix("--document=") {
            Some(file) => self.with_file(word, file),
            None => {
                let reason = "it does not go with `--document` and `--save`";
                Err(InvalidWord { word, reason })
            }
        }
    }
}

/// Returns whether the arguments of `mezdruk` are those of `rpc` over a file.
pub fn names_file(words: &Words) -> bool {
    if words.len() == 0 || words.word(0) != "rpc" {
        return false;
    }
    for i in 1..words.len() {
        let word = words.word(i);
        if matches!(word, "--save" | "--document") || word.starts_with("--document=") {
            return true;
        }
    }
    false
}

/// Reads the arguments after `rpc`. Fails with the first that is not valid.
pub fn read_options(words: &Words) -> Result<RpcOptions<'_>, InvalidWord<'_>> {
    let mut options = RpcOptions {
        file: None,
        save: false,
    };
    let mut before = "";
    for i in 1..words.len() {
        let word = words.word(i);
        if before == "--document" {
            options = options.with_file(before, word)?;
            before = "";
        } else if word == "--document" {
            before = word;
        } else {
            options = options.with_word(word)?;
        }
    }
    if before == "--document" {
        let reason = "the option takes the name of a file";
        return Err(InvalidWord {
            word: before,
            reason,
        });
    }
    Ok(options)
}
