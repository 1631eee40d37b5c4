// What is wrong with arguments.
use crate::operand::OperandKind;
use json_io::Error;
use json_query::QueryError;

/// What is wrong with one argument.
///
/// ```
/// use mezdruk_arguments::{ArgumentsError, Problem, read_arguments};
/// use json_text::Words;
/// let mut words = Words::new(alloc);
/// words.push("check")?;
/// words.push("--raw")?;
/// let error = read_arguments(alloc, &words).err().ok_or("valid")?;
/// let problem = Problem::Unknown;
/// assert_eq!(rt; error, ArgumentsError::Invalid { index: 1, problem });
/// ```
#[derive(Clone, Copy, Debug, PartialEq, Eq)]
pub enum Problem {
    /// It is not a command, or not an option of the command.
    Unknown,
    /// It asks for what an earlier option asks for already, such as a second layout.
    Repeated,
    /// It asks for standard input to be changed in place, which is not possible.
    StandardInput,
    /// It asks for both `--stream` and other rules than the usual ones, by which a stream is read.
    StreamRules,
    /// It is an option that must come earlier: one that names the file of an operand comes before
    /// the operands and files, and `--string` comes before the value.
    Late,
    /// It follows `--indent`, and is not a number from 0 to 8.
    NoWidth,
    /// It is an operand that is not a JSON text.
    NoText {
        /// The kind of the operand.
        kind: OperandKind,
        /// The error of the text, with its place in the argument.
        error: Error,
    },
    /// It is an operand whose value does not have the form of its kind.
    WrongForm {
        /// The kind of the operand.
        kind: OperandKind,
        /// The index of the first element that is no step, counted from 0, if the operand is a path
        /// and the value an array.
        step: Option<usize>,
    },
    /// It is an operand that is no query of JSONPath (RFC 9535), or has a filter.
    NoQuery {
        /// What is wrong with it, and where.
        error: QueryError,
    },
    /// It is an operand of edits, and an array of which an element is no edit.
    NoEdit {
        /// The index of the first such element, counted from 0.
        index: usize,
        /// What is wrong with it.
        reason: &'static str,
    },
}

/// Why an argument cannot be read.
///
/// ```
/// use mezdruk_arguments::{OperandKind, Problem, OperandError, read_operand};
/// let refusal = read_operand(alloc, OperandKind::Path, "[\"a\", 0.5]").err();
/// let problem = Problem::WrongForm { kind: OperandKind::Path, step: Some(1) };
/// assert_eq!(rt; refusal, Some(OperandError::Invalid(problem)));
/// ```
#[derive(Clone, Copy, Debug, PartialEq, Eq)]
pub enum OperandError {
    /// Memory ran out.
    OutOfMemory,
    /// The argument is not valid after those before it.
    Invalid(Problem),
}

/// What is missing after the last argument.
///
/// ```
/// use mezdruk_arguments::{ArgumentsError, MissingArgument, read_arguments};
/// use json_text::Words;
/// let error = read_arguments(alloc, &Words::new(alloc)).err().ok_or("valid")?;
/// assert_eq!(rt; error, ArgumentsError::Incomplete(MissingArgument::Command));
/// ```
#[derive(Clone, Copy, Debug, PartialEq, Eq)]
pub enum MissingArgument {
    /// The command.
    Command,
    /// An operand of the command.
    Operand(OperandKind),
    /// The number after `--indent`.
    Width,
    /// A file that is changed in place.
    File,
}

/// Why the arguments of `mezdruk` cannot be read.
///
/// ```
/// use mezdruk_arguments::{ArgumentsError, MissingArgument, OperandKind, read_arguments};
/// use json_text::Words;
/// let mut words = Words::new(alloc);
/// words.push("push")?;
/// words.push("[]")?;
/// let error = read_arguments(alloc, &words).err().ok_or("valid")?;
/// let missing = MissingArgument::Operand(OperandKind::Value);
/// assert_eq!(rt; error, ArgumentsError::Incomplete(missing));
/// ```
#[derive(Clone, Copy, Debug, PartialEq, Eq)]
pub enum ArgumentsError {
    /// Memory ran out.
    OutOfMemory,
    /// This argument is the first that is not valid after those before it.
    Invalid {
        /// The index of the argument, counted from 0.
        index: usize,
        /// What is wrong with the argument.
        problem: Problem,
    },
    /// Each argument is valid, but another one must follow.
    Incomplete(MissingArgument),
}
