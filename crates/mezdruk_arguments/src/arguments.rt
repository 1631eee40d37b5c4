// What the arguments of `mezdruk` ask for.
ghost use Rattle.std.specs.Prelude.{IfOk, IfErr};
ghost use Rattle.mezdruk_arguments.specs.Asks.{ParsesTo, RefusesCommandLine};

use crate::line::ArgumentLine;
use crate::problem::{ArgumentsError, OperandError};
use crate::setting::Settings;
use crate::verb::Verb;
use json_io::Words;
use json_value::Value;
use std::alloc::Global;

/// What the arguments of `mezdruk` ask for: a command, its options, its operands and the files.
///
/// ```
/// use mezdruk_arguments::{Verb, read_arguments};
/// use json_text::Words;
/// let mut words = Words::new(alloc);
/// for word in ["fmt", "a.json", "--tabs", "b.json", "-i"] {
///     words.push(word)?;
/// }
/// let arguments = read_arguments(alloc, &words).map_err(|_| "not valid")?;
/// assert_eq!(rt; arguments.verb, Verb::Fmt);
/// assert!(rt; arguments.settings.in_place);
/// assert_eq!(rt; arguments.files.len(), 2);
/// ```
#[derive(Drop)]
pub struct Arguments<'a> {
    /// The command.
    pub verb: Verb,
    /// What the options of the command ask for.
    pub settings: Settings,
    /// The file that contains the operand, if an option such as `--edits=FILE` names one.
    pub source: Option<&'a str>,
    /// The values of the operands, in order: those that [`Verb::operands`] lists, or none if
    /// `source` names a file.
    pub operands: Vec<Value>,
    /// The files, in order. None if the command reads standard input.
    pub files: Vec<&'a str>,
}

/// Reads the arguments of `mezdruk`: the name of a command, and after it options, operands and
/// files in any order. After `--` no argument is an option.
///
/// Fails with [`ArgumentsError::Invalid`] at the first argument that no further arguments could
/// make valid, with [`ArgumentsError::Incomplete`] if an argument is missing at the end, and with
/// [`ArgumentsError::OutOfMemory`] if memory runs out.
pub fn read_arguments(alloc: Global, words: &Words) -> Result<Arguments<'_>, ArgumentsError>
    ensures ok { IfOk result (λ a. ParsesTo words.now a) }
    ensures err { IfErr result (λ e. RefusesCommandLine words.now e) }
{
    let mut line = ArgumentLine::new(alloc);
    'words: for i in 0..words.len() {
        match line.take(alloc, words.word(i)) {
            Ok(()) => {}
            Err(OperandError::OutOfMemory) => return Err(ArgumentsError::OutOfMemory),
            Err(OperandError::Invalid(problem)) => {
                return Err(ArgumentsError::Invalid { index: i, problem });
            }
        }
    }
    match line.finish() {
        Ok(arguments) => Ok(arguments),
        Err(missing) => Err(ArgumentsError::Incomplete(missing)),
    }
}
