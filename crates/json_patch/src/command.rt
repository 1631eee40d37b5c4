// What the arguments ask for, and from the bytes of a source to the bytes of a sink.
ghost use Rattle.std.specs.Prelude.{◌≡◌, ◌≢◌, ◌⊎◌, ◌+◌, ◌<◌, ◌++◌, ℕ, List, None, OnOk, IfOk, IfErr, IsErrOf, MatchOption};
ghost use Rattle.json_grammar.specs.Tree.{Tree};
ghost use Rattle.json_model.specs.Print.{shown};
ghost use Rattle.json_layout.specs.Styles.{printed};
ghost use Rattle.json_io.specs.Errors.{no_memory, bad_words, reading_failed, writing_failed};
ghost use Rattle.json_io.specs.Transfer.{TakesOneBeyond};
ghost use Rattle.json_value.specs.Denotes.{tree_of};
ghost use Rattle.json_command.specs.Input.{max_bytes};
ghost use Rattle.json_patch.specs.Errors.{PatchFails};
ghost use Rattle.json_patch.specs.Commands.{AsksForPatch, IsRequest, HasFewOperations, RequestFails, WritesOutcome, outcome_of, patch_request_of};

use crate::error::PatchError;
use crate::merge::apply_merge;
use crate::patch::apply_patch;
use json_command::{BAD_WORDS, print_value, read_argument, read_document_from};
use json_doc::Doc;
use json_io::{Error, Result as TextResult, Sink, Source, Words};
use json_layout::Style;
use json_text::Rules;
use json_value::{Value, View};
use std::alloc::Global;
use std::rc::Rc;

/// What the arguments of the program ask for: to apply a JSON Patch or a JSON Merge Patch, each
/// held as the document of its text.
#[derive(Drop)]
pub enum Command {
    Patch(Rc<Doc>),
    Merge(Rc<Doc>),
}

/// Why a command failed: `Patch` if the patch does not apply, and `Transfer` for all else, which is
/// the arguments, the input, the output and memory.
#[derive(Clone, Copy)]
pub enum CommandError {
    Transfer(Error),
    Patch(PatchError),
}

impl From<Error> for CommandError {
    ghost use Rattle.json_patch.specs.declared.command.CommandError.{CommandError};

    ghost from_gives = { λ e s. s ≡ CommandError.Transfer e };

    fn from(error: Error) -> CommandError {
        CommandError::Transfer(error)
    }
}

impl From<PatchError> for CommandError {
    ghost use Rattle.json_patch.specs.declared.command.CommandError.{CommandError};

    ghost from_gives = { λ e s. s ≡ CommandError.Patch e };

    fn from(error: PatchError) -> CommandError {
        CommandError::Patch(error)
    }
}

// Returns what follows the option.
fn text_after<'a>(argument: &'a str, option: &str) -> Option<&'a str>
    ensures { MatchOption result ((text : List ℕ) → argument.now ≢ option.now ++ text)
        (λ text. argument.now ≡ option.now ++ text.now) }
{
    argument.strip_prefix(option)
}

/// Reads what the arguments ask for. There must be one argument: `--patch=TEXT` or `--merge=TEXT`,
/// where TEXT is a JSON text of at most 254 levels of arrays and objects.
///
/// Fails with `BadWords` if the arguments have another form, and with `NoMemory` if memory runs
/// out.
pub fn read_command(alloc: Global, arguments: &Words) -> TextResult<Command>
    ensures ok { IfOk result (λ c. AsksForPatch arguments.now (patch_request_of c)) }
    ensures err { IfErr result (λ e. (e ≡ no_memory)
        ⊎ ((e ≡ bad_words) × ¬ (IsRequest arguments.now))) }
{
    if arguments.len() != 1 {
        return Err(BAD_WORDS);
    }
    let argument = arguments.word(0);
    if let Some(text) = text_after(argument, "--patch=") {
        let doc = read_argument(alloc, text)?;
        return Ok(Command::Patch(doc));
    }
    match text_after(argument, "--merge=") {
        Some(text) => {
            let doc = read_argument(alloc, text)?;
            Ok(Command::Merge(doc))
        }
        None => Err(BAD_WORDS),
    }
}

// Changes a value as the command asks.
fn apply_command(alloc: Global, value: &mut Value, command: &Command) -> Result<(), PatchError>
    requires few { HasFewOperations (patch_request_of command.now) }
    ensures ok { OnOk result (outcome_of (patch_request_of command.now) (tree_of value.old)
        ≡ Ok (tree_of value.new)) }
    ensures refused { IfErr result (λ e. PatchFails
        (outcome_of (patch_request_of command.now) (tree_of value.old)) e.code e.op) }
{
    match command {
        Command::Patch(doc) => apply_patch(alloc, value, View::packed(doc.view())),
        Command::Merge(doc) => apply_merge(alloc, value, View::packed(doc.view())),
    }
}

// Returns the style of compact text.
fn default_style() -> Style<'static>
    ensures { (tree : Tree) → printed result tree ≡ shown None 0 tree }
{
    match Style::new(None, false) {
        Some(style) => style,
        None => unreachable!(),
    }
}

/// Reads the JSON text that `source` has left and patches its value as `command` asks. Writes the
/// compact text of the result to `sink`, which is then flushed. A patch must have fewer than 2^32
/// operations.
///
/// Fails if the input is not valid, the patch does not apply, `source` or `sink` fails, or memory
/// runs out. Nothing is written before the whole input is read and patched.
pub fn transfer<S: Source, K: Sink>(
    alloc: Global,
    source: &mut S,
    sink: &mut K,
    command: &Command,
) -> Result<(), CommandError>
    requires few { HasFewOperations (patch_request_of command.now) }
    ensures done { OnOk result (WritesOutcome (patch_request_of command.now) (S.state source.old)
        (S.state source.new) (K.state sink.old) (K.state sink.new)) }
    ensures refused { IfErr result (RequestFails (patch_request_of command.now) (S.state source.old)
        (S.state source.new) (K.state sink.old) (K.state sink.new)) }
    ensures taken { TakesOneBeyond max_bytes (S.state source.old) (S.state source.new) }
    ensures read_error { (S.state source.old).faults < (S.state source.new).faults
        → IsErrOf result (CommandError.Transfer reading_failed) }
    ensures write_error { (K.state sink.old).faults < (K.state sink.new).faults
        → IsErrOf result (CommandError.Transfer writing_failed) }
{
    let doc = read_document_from(alloc, source, Rules::usual())?;
    let mut value = Value::from_place(alloc, &doc, doc.root())?;
    apply_command(alloc, &mut value, command)?;
    print_value(alloc, &value, default_style(), sink)?;
    Ok(())
}
