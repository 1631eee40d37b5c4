// What the words of the command line ask for.
ghost use Rattle.std.specs.Prelude.{◌≡◌, ◌⊎◌, List, IfOk, IfErr, option_map, option_to_list};
ghost use Rattle.json_io.specs.Errors.{no_memory, bad_words};
ghost use Rattle.json_model.specs.Edit.{Edit as TreeEdit};
ghost use Rattle.reshape.specs.Words.{SpellsEdits, AsksEdits};
ghost use Rattle.reshape.specs.Options.{IsAsked};
ghost use Rattle.reshape.specs.Asked.{edits_of, AsksFor};

use crate::asked_style::AskedStyle;
use crate::command::Asked;
use crate::edits::Edits;
use crate::options::{gather, made_asked};
use json_command::{BAD_WORDS, arguments_error};
use json_data::from_str;
use json_io::{Result, Words};
use json_value::Edit;
use std::alloc::Global;

// Reads the edits that an argument spells, by the usual rules.
fn read_word(alloc: Global, word: &str) -> Result<Edits>
    ensures ok { IfOk result (λ es. SpellsEdits word.now (edits_of es)) }
    ensures err { IfErr result (λ e. (e ≡ no_memory)
        ⊎ ((e ≡ bad_words) × ((es : List TreeEdit) → ¬ (SpellsEdits word.now es)))) }
{
    match from_str::<Vec<Edit>>(alloc, word) {
        Ok(list) => Ok(Edits { list }),
        Err(error) => Err(arguments_error(error.code)),
    }
}

// Reads the edits that the argument spells; without one there are none.
fn read_edits_word(alloc: Global, word: Option<&str>) -> Result<Edits>
    ensures ok { IfOk result (λ es.
        AsksEdits (option_to_list (option_map (λ s. s.now) word.entry)) (edits_of es)) }
    ensures err { IfErr result (λ e. (e ≡ no_memory)
        ⊎ ((e ≡ bad_words)
        × ((es : List TreeEdit)
        → ¬ (AsksEdits (option_to_list (option_map (λ s. s.now) word.entry)) es)))) }
{
    match word {
        None => Ok(Edits::none(alloc)),
        Some(word) => read_word(alloc, word),
    }
}

/// Reads what the arguments of `reshape` ask for. An argument that begins with `--` is an option:
///
/// - `--pretty` asks for an indent of two spaces,
/// - `--tabs` for an indent of a tab,
/// - `--indent=N` for an indent of N spaces, N being one digit from 0 to 8,
/// - `--sort-keys` for members sorted by their keys,
/// - `--unique-keys` for input in which the keys of each object differ,
/// - `--depth=N` for input of at most N levels, N being from 0 to 1,024 without leading zeros,
/// - `--make=N`, as the only argument, for generated input of N records, N being from 0 to 100,000
///   without leading zeros.
///
/// Any other argument is a JSON text, an array of edits. It may have at most 254 levels.
///
/// Fails with `BadWords` if an option is unknown or occurs twice, if two options ask for an indent,
/// if `--make=N` is not the only argument, if two arguments are no options, or if the one is not an
/// array of edits. Fails with `NoMemory` if memory runs out.
pub fn asked(alloc: Global, words: &Words) -> Result<Asked>
    ensures ok { IfOk result (AsksFor words.now) }
    ensures err { IfErr result (λ e. (e ≡ no_memory) ⊎ ((e ≡ bad_words) × ¬ (IsAsked words.now))) }
{
    if let Some(records) = made_asked(words) {
        return Ok(Asked::Made(records));
    }
    let Some(options) = gather(words) else {
        return Err(BAD_WORDS);
    };
    let edits = read_edits_word(alloc, options.edits)?;
    let style = AskedStyle::new(options.indent, options.sorted, options.rules());
    Ok(Asked::Reshape(edits, style))
}
