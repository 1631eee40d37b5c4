// The options and the edits word among the words of the command line.
ghost use Rattle.std.specs.Prelude.{◌≡◌, ◌≢◌, ◌≤◌, ℕ, List, [], ◌∷◌, ◌++◌, false, option_map, IfSome, IfNone, MatchOption};
ghost use Rattle.std.specs.Option.{ForSome};
ghost use Rattle.json_text.specs.Ruled.{rules_of};
ghost use Rattle.reshape.specs.Options.{spaces, indent_in, made_in, depth_or_usual, is_known, IsReshaping, AsksMade, IsMaking};
ghost use Rattle.reshape.specs.Gathering.{HasRole, Gathered};
ghost use Rattle.json_command.specs.Options.{depth_in, width_in};

use json_command::option_number;
use json_io::Words;
use json_text::Rules;

// What one word is for.
#[derive(Clone, Copy)]
enum Role<'a> {
    Indent(&'static str),
    SortKeys,
    UniqueKeys,
    Depth(u32),
    EditsWord(&'a str),
}

/// What the arguments ask for, with the edits not read yet.
#[derive(Clone, Copy)]
pub(crate) struct ParsedOptions<'a> {
    /// The indent, if an option asks for one.
    pub indent: Option<&'static str>,
    /// Whether the members of each object are sorted by their keys.
    pub sorted: bool,
    /// Whether the keys of each object must differ.
    pub unique: bool,
    /// The greatest number of levels of the input, if an option asks for one.
    pub depth: Option<u32>,
    /// The argument that is no option, if there is one: the text of the edits.
    pub edits: Option<&'a str>,
}

// Returns as many spaces as the one digit says, at most 8.
fn spaces_of(digits: &[u8]) -> Option<&'static str>
    ensures { option_map (λ s. s.now) result ≡ option_map spaces (width_in digits.now) }
{
    match digits {
        [b'0'] => Some(""),
        [b'1'] => Some(" "),
        [b'2'] => Some("  "),
        [b'3'] => Some("   "),
        [b'4'] => Some("    "),
        [b'5'] => Some("     "),
        [b'6'] => Some("      "),
        [b'7'] => Some("       "),
        [b'8'] => Some("        "),
        _ => None,
    }
}

// Returns the indent that an option asks for.
fn read_indent(word: &str) -> Option<&'static str>
    ensures { option_map (λ s. s.now) result ≡ indent_in word.now }
{
    match word {
        "--pretty" => Some("  "),
        "--tabs" => Some("\t"),
        _ => spaces_of(word.as_bytes().strip_prefix(b"--indent=")?),
    }
}

// Returns the greatest number of levels that an option asks for.
fn depth_of(word: &str) -> Option<u32>
    ensures { result ≡ depth_in word.now }
{
    option_number(word, "--depth", 1_024)
}

// Returns the number of records of generated input that an option asks for.
fn made_of(word: &str) -> Option<u32>
    ensures { result ≡ made_in word.now }
{
    option_number(word, "--make", 100_000)
}

/// Returns the N of the argument `--make=N`, at most 100,000, if that is the only argument. Returns
/// `None` for all other arguments.
pub fn made_asked(words: &Words) -> Option<u32>
    ensures asks { MatchOption result (¬ (IsMaking words.now)) (AsksMade words.now) }
    ensures few { IfSome result (λ n. n ≤ 100000) }
{
    if words.len() != 1 {
        return None;
    }
    made_of(words.word(0))
}

// Returns what an argument is for; `None` for an unknown option.
fn read_role(word: &str) -> Option<Role<'_>>
    ensures { MatchOption result (is_known word.now ≡ false) (HasRole word.now) }
{
    if !word.as_bytes().starts_with(b"--") {
        return Some(Role::EditsWord(word));
    }
    if word == "--sort-keys" {
        return Some(Role::SortKeys);
    }
    if word == "--unique-keys" {
        return Some(Role::UniqueKeys);
    }
    if let Some(levels) = depth_of(word) {
        return Some(Role::Depth(levels));
    }
    let indent = read_indent(word)?;
    Some(Role::Indent(indent))
}

impl<'a> ParsedOptions<'a> {
    // Returns the options with one more argument; `None` if it is unknown or repeats one.
    fn take_word(self, word: &'a str) -> Option<ParsedOptions<'a>>
        ensures taken { IfSome result (λ o. (ws : List (List ℕ))
            → Gathered ws self.entry → Gathered (ws ++ word.now ∷ []) o) }
        ensures refused { IfNone result ((ws more : List (List ℕ))
            → Gathered ws self.entry → ¬ (IsReshaping (ws ++ word.now ∷ more))) }
    {
        match read_role(word)? {
            Role::Indent(indent) if self.indent.is_none() => Some(ParsedOptions {
                indent: Some(indent),
                ..self
            }),
            Role::SortKeys if !self.sorted => Some(ParsedOptions {
                sorted: true,
                ..self
            }),
            Role::UniqueKeys if !self.unique => Some(ParsedOptions {
                unique: true,
                ..self
            }),
            Role::Depth(levels) if self.depth.is_none() => Some(ParsedOptions {
                depth: Some(levels),
                ..self
            }),
            Role::EditsWord(edits) if self.edits.is_none() => Some(ParsedOptions {
                edits: Some(edits),
                ..self
            }),
            _ => None,
        }
    }

    /// Returns the rules by which the input is read. If no option asks for a depth, they allow at
    /// most 254 levels. The depth must be at most 1,024.
    pub fn rules(self) -> Rules
        requires { ForSome self.depth (λ n. n ≤ 1024) }
        ensures { rules_of result
            ≡ record { limit = depth_or_usual self.entry.depth; unique = self.entry.unique } }
    {
        let levels = self.depth.unwrap_or(Rules::usual().depth());
        match Rules::new(levels, self.unique) {
            Some(rules) => rules,
            None => unreachable!(),
        }
    }
}

/// Reads the options, and finds the argument with the edits: the one that is no option. Returns
/// `None` if an option is unknown or occurs twice, if two options ask for an indent, or if two
/// arguments are no options.
pub fn gather(words: &Words) -> Option<ParsedOptions<'_>>
    ensures { MatchOption result (¬ (IsReshaping words.now)) (Gathered words.now) }
{
    let mut options = ParsedOptions {
        indent: None,
        sorted: false,
        unique: false,
        depth: None,
        edits: None,
    };
    'words: for i in 0..words.len() {
        options = options.take_word(words.word(i))?;
    }
    Some(options)
}
