// The order of the arguments where options come before the command.
ghost use Rattle.std.specs.Prelude.{◌≡◌, ◌≤◌, ◌++◌, false, not, ◌&&◌, ◌||◌, length, take, drop, IfOk, OnOk};
ghost use Rattle.json_io.specs.Errors.{OnlyNoMemory};
ghost use Rattle.mezdruk_arguments.specs.ArgumentOrder.{is_leading_option, awaits_value, leading_options, command_first};

use crate::line::is_option_word;
use json_io::{Result, Words};
use std::alloc::Global;

// Whether a word comes before a command: an option, or the value of the option before it.
fn precedes_command(is_value: bool, word: &str) -> bool
    ensures { result ≡ (is_value || is_leading_option word.now) }
{
    is_value || is_option_word(word) && word != "--"
}

// Whether the argument after a word is its value.
fn value_follows(is_value: bool, word: &str) -> bool
    ensures { result ≡ (not is_value && awaits_value word.now) }
{
    !is_value && (word == "--indent" || word == "--document")
}

// Returns how many arguments come before the command: options, each with its value.
fn leading_options(words: &Words) -> usize
    ensures { result ≡ leading_options false words.now }
{
    let mut is_value = false;
    'words: for i in 0..words.len() {
        let word = words.word(i);
        if !precedes_command(is_value, word) {
            return i;
        }
        is_value = value_follows(is_value, word);
    }
    words.len()
}

// Appends the arguments from the index `begin` on, up to the index `end`.
fn append_words(ordered: &mut Words, words: &Words, begin: usize, end: usize) -> Result<()>
    requires ordered { begin ≤ end }
    requires within { end ≤ length words.now }
    ensures ok { OnOk result (ordered.new ≡ ordered.old ++ drop begin (take end words.now)) }
    ensures only { OnlyNoMemory result }
{
    'words: for i in begin..end {
        ordered.push(words.word(i))?;
    }
    Ok(())
}

/// Returns the arguments with the command before the options that come first. An option begins with
/// a hyphen, but is neither `--` nor a number such as `-1`. The argument after `--indent` or
/// `--document` is the value of that option. The command is the first argument that is neither an
/// option nor such a value; without a command all arguments stay in their order.
///
/// Fails with `NoMemory` if memory runs out.
///
/// ```
/// use mezdruk_arguments::{Verb, command_first, read_arguments};
/// use json_text::Words;
/// let mut words = Words::new(alloc);
/// for word in ["-S", "--indent", "4", "fmt", "a.json"] {
///     words.push(word)?;
/// }
/// let ordered = command_first(alloc, &words)?;
/// assert_eq!(rt; (ordered.word(0), ordered.word(1)), ("fmt", "-S"));
/// let arguments = read_arguments(alloc, &ordered).map_err(|_| "not valid")?;
/// assert_eq!(rt; arguments.verb, Verb::Fmt);
/// assert_eq!(rt; arguments.files.as_slice(), ["a.json"].as_slice());
/// ```
pub fn command_first(alloc: Global, words: &Words) -> Result<Words>
    ensures ok { IfOk result (λ ordered. ordered ≡ command_first words.now) }
    ensures only { OnlyNoMemory result }
{
    let mut ordered = Words::new(alloc);
    let index = leading_options(words);
    if index >= words.len() {
        append_words(&mut ordered, words, 0, words.len())?;
        return Ok(ordered);
    }
    ordered.push(words.word(index))?;
    append_words(&mut ordered, words, 0, index)?;
    append_words(&mut ordered, words, index + 1, words.len())?;
    Ok(ordered)
}
