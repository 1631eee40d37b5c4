// The operands of a command.
ghost use Rattle.std.specs.Prelude.{◌≡◌, ◌≢◌, ◌⊎◌, is_some, OnOk, IfOk, IfErr};
ghost use Rattle.json_io.specs.declared.error.ErrorCode.TheVariants.{NoMemory};
ghost use Rattle.mezdruk_arguments.specs.Operands.{SpellsOperand, IsOperand, IsQueryIfAsked, SpellsTree, has_form as formed, path_form, taken_verbatim};
ghost use Rattle.json_patch.specs.Pointer.{pointer_of};
ghost use Rattle.json_doc.specs.Docs.{doc_root, doc_tree};
ghost use Rattle.mezdruk_arguments.specs.declared.problem.OperandError.TheVariants as OperandError;
ghost use Rattle.json_command.specs.Input.{IsInput, IsValid};
ghost use Rattle.json_text.specs.Ruled.{usual_rules};
ghost use Rattle.json_value.specs.Denotes.{tree_of};

use crate::problem::{OperandError, Problem};
use crate::spelling::{
    are_edits, first_wrong_edit, first_wrong_step, is_path, parse_pointer, parse_query,
};
use json_doc::{Doc, read_document_with};
use json_io::{Error, ErrorCode, Place};
use json_text::Rules;
use json_value::Value;
use mezdruk_help::is_step;
use std::alloc::Global;
use std::rc::Rc;

/// The greatest number of bytes of an operand that is read.
const MAX_BYTES: usize = 4_294_967_295;

/// The kinds of operands that commands have.
///
/// ```
/// use mezdruk_arguments::OperandKind;
/// assert_eq!(rt; OperandKind::Edits.name(), "EDITS");
/// ```
#[derive(Clone, Copy, Debug, PartialEq, Eq)]
pub enum OperandKind {
    /// Where in the document a value is: a JSON Pointer (RFC 6901), or a JSON array of steps, each
    /// a key or an index.
    Path,
    /// A JSONPath query (RFC 9535) without filters: the argument itself is its text.
    Query,
    /// A JSON array of edits.
    Edits,
    /// The key of a member: a JSON string.
    Key,
    /// A JSON value.
    Value,
    /// A string without quotes and escapes: the argument itself is its content.
    Text,
    /// What to remove: a JSON string, which is a key, or an index, which is a number from 0 to
    /// 4,294,967,295.
    Step,
    /// A JSON Patch (RFC 6902) or a JSON Merge Patch (RFC 7396).
    Patch,
    /// The name of the file with which others are compared.
    File,
}

impl OperandKind {
    /// Returns the name by which the help and the errors call the operand, such as `EDITS`.
    pub fn name(self) -> &'static str {
        match self {
            OperandKind::Path => "PATH",
            OperandKind::Query => "QUERY",
            OperandKind::Edits => "EDITS",
            OperandKind::Key => "KEY",
            OperandKind::Value | OperandKind::Text => "VALUE",
            OperandKind::Step => "STEP",
            OperandKind::Patch => "PATCH",
            OperandKind::File => "OLD",
        }
    }
}

// Returns the value of a document.
fn root_value(alloc: Global, doc: &Rc<Doc>) -> Result<Value, OperandError>
    ensures ok { IfOk result (λ v. tree_of v ≡ doc_tree doc.now.value (doc_root doc.now.value)) }
    ensures only { IfErr result (λ r. r ≡ OperandError.OutOfMemory) }
{
    match Value::from_place(alloc, doc, doc.root()) {
        Ok(value) => Ok(value),
        Err(_) => Err(OperandError::OutOfMemory),
    }
}

// Returns the error of an operand that is no JSON text.
fn text_refusal(kind: OperandKind, error: Error) -> OperandError
    ensures { (result ≡ OperandError.OutOfMemory) ⊎ (error.code ≢ NoMemory) }
{
    match error.code {
        ErrorCode::NoMemory => OperandError::OutOfMemory,
        _ => OperandError::Invalid(Problem::NoText { kind, error }),
    }
}

// Returns the value of a JSON text.
fn read_operand_text(alloc: Global, kind: OperandKind, text: &str) -> Result<Value, OperandError>
    ensures ok { IfOk result (λ v. IsInput usual_rules text.now (tree_of v)) }
    ensures err { IfErr result (λ r. (r ≡ OperandError.OutOfMemory)
        ⊎ (¬ (IsValid usual_rules text.now))) }
{
    if text.len() > MAX_BYTES {
        let error = Error {
            code: ErrorCode::TooLarge,
            place: Place::None,
        };
        return Err(OperandError::Invalid(Problem::NoText { kind, error }));
    }
    match read_document_with(alloc, text, Rules::usual()) {
        Ok(doc) => root_value(alloc, &doc),
        Err(error) => Err(text_refusal(kind, error)),
    }
}

// Returns whether the argument itself is the content of a string, and no JSON text.
fn is_verbatim(kind: OperandKind, word: &str) -> bool
    ensures { result ≡ taken_verbatim kind word.now }
{
    match kind {
        OperandKind::Path => word.is_empty() || word.as_bytes().starts_with(b"/"),
        OperandKind::Query | OperandKind::Text | OperandKind::File => true,
        _ => false,
    }
}

// Whether a text is a JSON Pointer.
#[tactic(auto, using(crate::proofs::Spelled::is_some_map))]
fn is_pointer(alloc: Global, text: &str) -> Result<bool, OperandError>
    ensures ok { IfOk result (λ b. b ≡ is_some (pointer_of text.now)) }
    ensures only { IfErr result (λ r. r ≡ OperandError.OutOfMemory) }
{
    match parse_pointer(alloc, text) {
        Ok(pointer) => Ok(pointer.is_some()),
        Err(refusal) => Err(refusal),
    }
}

// Returns the value of an operand, whatever its form.
fn read_spelled(alloc: Global, kind: OperandKind, word: &str) -> Result<Value, OperandError>
    ensures ok { IfOk result (λ v. SpellsTree kind word.now (tree_of v)) }
    ensures err { IfErr result (λ r. (r ≡ OperandError.OutOfMemory)
        ⊎ (¬ (IsOperand kind word.now))) }
{
    if !is_verbatim(kind, word) {
        return read_operand_text(alloc, kind, word);
    }
    match Value::copy_str(alloc, word) {
        Ok(value) => Ok(value),
        Err(_) => Err(OperandError::OutOfMemory),
    }
}

// Whether a path has its form.
fn is_path_form(alloc: Global, word: &str, value: &Value) -> Result<bool, OperandError>
    ensures ok { IfOk result (λ b. b ≡ path_form word.now (tree_of value.now)) }
    ensures only { IfErr result (λ r. r ≡ OperandError.OutOfMemory) }
{
    if is_verbatim(OperandKind::Path, word) {
        is_pointer(alloc, word)
    } else {
        is_path(alloc, value)
    }
}

// Returns whether the value of an argument has the form of the operand.
fn has_form(
    alloc: Global,
    kind: OperandKind,
    word: &str,
    value: &Value,
) -> Result<bool, OperandError>
    ensures ok { IfOk result (λ b. b ≡ formed kind word.now (tree_of value.now)) }
    ensures only { IfErr result (λ r. r ≡ OperandError.OutOfMemory) }
{
    match kind {
        OperandKind::Query
        | OperandKind::Value
        | OperandKind::Text
        | OperandKind::Patch
        | OperandKind::File => Ok(true),
        OperandKind::Key => Ok(value.view().text().is_some()),
        OperandKind::Step => Ok(is_step(value.view())),
        OperandKind::Path => is_path_form(alloc, word, value),
        OperandKind::Edits => are_edits(alloc, value),
    }
}

// Fails if the operand is a query and the argument is none.
fn check_query(alloc: Global, kind: OperandKind, word: &str) -> Result<(), OperandError>
    ensures ok { OnOk result (IsQueryIfAsked kind word.now) }
    ensures err { IfErr result (λ r. (r ≡ OperandError.OutOfMemory)
        ⊎ (¬ (IsQueryIfAsked kind word.now))) }
{
    match kind {
        OperandKind::Query => parse_query(alloc, word),
        _ => Ok(()),
    }
}

// Returns what is wrong with a value that does not have the form of the operand.
fn form_problem(kind: OperandKind, value: &Value) -> Problem {
    if kind == OperandKind::Edits {
        if let Some((index, reason)) = first_wrong_edit(value.view()) {
            return Problem::NoEdit { index, reason };
        }
    }
    let step = match kind {
        OperandKind::Path => first_wrong_step(value.view()),
        _ => None,
    };
    Problem::WrongForm { kind, step }
}

/// Reads an operand of this kind from the argument `word`, and returns its value. If the kind is
/// `Query`, `Text` or `File`, or if it is `Path` and `word` is empty or begins with `/`, the value
/// is the string `word` itself. Else `word` is read as a JSON text by the usual rules (at most 254 levels,
/// keys may repeat).
///
/// Fails with [`Problem::NoQuery`] if the kind is `Query` and `word` is no query of JSONPath (RFC
/// 9535) without filters, with [`Problem::NoText`] if it is not a JSON text, with [`Problem::NoEdit`] or
/// [`Problem::WrongForm`] if the value does not have the form of the operand or the path is no JSON
/// Pointer, and with [`OperandError::OutOfMemory`] if memory runs out.
///
/// ```
/// use mezdruk_arguments::{OperandKind, read_operand};
/// let path = read_operand(alloc, OperandKind::Path, "[\"tags\", 0]").map_err(|_| "no path")?;
/// assert!(rt; path.view().as_array().is_some());
/// let path = read_operand(alloc, OperandKind::Path, "/tags/0").map_err(|_| "no path")?;
/// assert_eq!(rt; path.view().text(), Some("/tags/0"));
/// assert!(rt; read_operand(alloc, OperandKind::Step, "1.5").is_err());
/// ```
pub fn read_operand(alloc: Global, kind: OperandKind, word: &str) -> Result<Value, OperandError>
    ensures ok { IfOk result (λ v. SpellsOperand kind word.now (tree_of v)) }
    ensures err { IfErr result (λ r. (r ≡ OperandError.OutOfMemory)
        ⊎ (¬ (IsOperand kind word.now))) }
{
    match check_query(alloc, kind, word) {
        Ok(()) => {}
        Err(refusal) => return Err(refusal),
    }
    let value = read_spelled(alloc, kind, word)?;
    if has_form(alloc, kind, word, &value)? {
        return Ok(value);
    }
    Err(OperandError::Invalid(form_problem(kind, &value)))
}
