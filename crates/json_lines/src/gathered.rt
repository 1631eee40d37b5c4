// Gathers the columns word and the options among the words of the command line.
ghost use Rattle.std.specs.Prelude.{◌≡◌, ◌∷◌, ◌++◌, [], List, ℕ, Some, None, cond, option_map, IfSome, IfNone, MatchOption};
ghost use Rattle.json_lines.specs.Words.{has_in, IsLinesRequest};
ghost use Rattle.json_lines.specs.Tables.{HasRole, Gathered};

use json_io::Words;

// What one word is.
#[derive(Clone, Copy)]
enum WordRole<'a> {
    Has(&'a str),
    Strict,
    CsvRows,
    ColumnsWord(&'a str),
}

/// What the words of the command line are, before any of them is read.
#[derive(Clone, Copy)]
pub(crate) struct GatheredWords<'a> {
    /// The columns word, if there is one.
    pub columns: Option<&'a str>,
    /// The text after `--has=`, if the option is given.
    pub has: Option<&'a str>,
    /// Whether the first bad line ends the run.
    pub strict: bool,
    /// Whether rows are records of CSV.
    pub csv: bool,
}

// Returns the text after `--has=`.
fn has_option(word: &str) -> Option<&str>
    ensures { option_map (λ s. s.now) result ≡ has_in word.now }
{
    word.strip_prefix("--has=")
}

// Returns what a word is.
fn word_role(word: &str) -> WordRole<'_>
    ensures { HasRole word.now result }
{
    if word == "--strict" {
        return WordRole::Strict;
    }
    if word == "--csv" {
        return WordRole::CsvRows;
    }
    match has_option(word) {
        Some(text) => WordRole::Has(text),
        None => WordRole::ColumnsWord(word),
    }
}

impl<'a> GatheredWords<'a> {
    // Returns what was gathered with one more word; `None` if it repeats one.
    fn take_word(self, word: &'a str) -> Option<GatheredWords<'a>>
        ensures taken { IfSome result (λ g. (ws : List (List ℕ))
            → Gathered ws self.entry → Gathered (ws ++ word.now ∷ []) g) }
        ensures refused { IfNone result ((ws more : List (List ℕ))
            → Gathered ws self.entry → ¬ (IsLinesRequest (ws ++ word.now ∷ more))) }
    {
        match word_role(word) {
            WordRole::Has(text) if self.has.is_none() => Some(GatheredWords {
                has: Some(text),
                ..self
            }),
            WordRole::Strict if !self.strict => Some(GatheredWords {
                strict: true,
                ..self
            }),
            WordRole::CsvRows if !self.csv => Some(GatheredWords { csv: true, ..self }),
            WordRole::ColumnsWord(columns) if self.columns.is_none() => Some(GatheredWords {
                columns: Some(columns),
                ..self
            }),
            _ => None,
        }
    }
}

/// Gathers the columns word and the options. Returns `None` if an option occurs twice, or if two
/// words are no options.
pub(crate) fn gather(words: &Words) -> Option<GatheredWords<'_>>
    ensures { MatchOption result (¬ (IsLinesRequest words.now)) (Gathered words.now) }
{
    let mut gathered = GatheredWords {
        columns: None,
        has: None,
        strict: false,
        csv: false,
    };
    'words: for i in 0..words.len() {
        gathered = gathered.take_word(words.word(i))?;
    }
    Some(gathered)
}
