// Two values that are compared.
ghost use Rattle.std.specs.Prelude.{◌≡◌, ◌⊎◌, Ok, Err, Some, option_map, IfOk, IfErr};
ghost use Rattle.mezdruk_files.specs.Differences.{patch_in_form, patch_line, comparison_of};
ghost use Rattle.mezdruk_files.specs.Writing.{WritesOutput};
ghost use Rattle.json_grammar.specs.Tree.{Tree};
ghost use Rattle.json_io.specs.Errors.{no_memory, OnlyNoMemory};
ghost use Rattle.json_model.specs.Same.{same};
ghost use Rattle.json_value.specs.Denotes.{tree_of};

use crate::job::write_line;
use json_command::Printer;
use json_diff::{diff, merge_diff};
use json_io::{Result, Sink};
use json_layout::Style;
use json_value::Value;
use std::alloc::Global;

/// The form of a patch.
///
/// ```
/// use mezdruk_files::PatchForm;
/// assert!(rt; PatchForm::JsonPatch != PatchForm::MergePatch);
/// ```
#[derive(Clone, Copy, Debug, PartialEq, Eq)]
pub enum PatchForm {
    /// A JSON Patch (RFC 6902).
    JsonPatch,
    /// A JSON Merge Patch (RFC 7396).
    MergePatch,
}

/// How a patch is printed.
///
/// ```
/// use mezdruk_files::{PatchForm, PatchStyle};
/// use json_print::Style;
/// let style = Style::new(None, false).ok_or("no style")?;
/// let asked = PatchStyle { form: PatchForm::JsonPatch, style };
/// assert!(rt; !asked.style.sorted());
/// ```
#[derive(Clone, Copy, Drop)]
pub struct PatchStyle<'a> {
    /// The form of the patch.
    pub form: PatchForm,
    /// The style of its text.
    pub style: Style<'a>,
}

/// How two values compare.
///
/// ```
/// use mezdruk_files::Comparison;
/// assert!(rt; Comparison::Same != Comparison::Differ);
/// ```
#[derive(Clone, Copy, Debug, PartialEq, Eq)]
pub enum Comparison {
    /// They are the same value.
    Same,
    /// They differ.
    Differ,
    /// No merge patch leads from the first to the second: a key repeats, or a member is null.
    NoMergePatch,
}

// Returns the patch that leads from one value to another, if there is one.
fn patch_in(alloc: Global, from: &Value, to: &Value, form: PatchForm) -> Result<Option<Value>>
    ensures ok { IfOk result (λ patch.
        patch_in_form form (tree_of from.now) (tree_of to.now) ≡ option_map tree_of patch) }
    ensures only { OnlyNoMemory result }
{
    match form {
        PatchForm::JsonPatch => {
            let patch = diff(alloc, from, to)?;
            Ok(Some(patch))
        }
        PatchForm::MergePatch => merge_diff(alloc, from, to),
    }
}

// Returns whether two values between which there is a patch are the same.
fn compared(from: &Value, to: &Value) -> Comparison
    ensures { (p : Tree) → result
        ≡ comparison_of (same (tree_of from.now) (tree_of to.now)) (Some p) }
{
    if from == to {
        Comparison::Same
    } else {
        Comparison::Differ
    }
}

/// Prints the patch that leads from one value to another, in the style that is asked for, and a
/// newline; or nothing if there is no such patch. Returns whether the two are the same value.
/// Fails with `Io` at `Writing` if the sink fails, and with `NoMemory` if memory runs out.
///
/// ```
/// use mezdruk_files::{Comparison, PatchForm, PatchStyle, print_difference};
/// use json_print::Style;
/// use json_text::VecSink;
/// use json_value::Value;
/// let (from, to) = (Value::new_null(), Value::new_bool(true));
/// let style = Style::new(None, false).ok_or("no style")?;
/// let asked = PatchStyle { form: PatchForm::MergePatch, style };
/// let mut sink = VecSink::new(alloc);
/// let comparison = print_difference(alloc, &from, &to, asked, &mut sink)?;
/// assert_eq!(rt; comparison, Comparison::Differ);
/// assert_eq!(rt; sink.as_slice(), b"true\n".as_slice());
/// ```
pub fn print_difference<K: Sink>(
    alloc: Global,
    from: &Value,
    to: &Value,
    asked: PatchStyle<'_>,
    sink: &mut K,
) -> Result<Comparison>
    ensures reported { IfOk result (λ comparison. comparison
        ≡ comparison_of (same (tree_of from.now) (tree_of to.now))
        (patch_in_form asked.entry.form (tree_of from.now) (tree_of to.now))) }
    ensures ok { IfOk result (λ _. WritesOutput (K.state sink.old) (K.state sink.new) (patch_line
        asked.entry.style (patch_in_form asked.entry.form (tree_of from.now) (tree_of to.now))) (Ok tt)) }
    ensures err { IfErr result (λ e. ((e ≡ no_memory) × (K.state sink.new ≡ K.state sink.old))
        ⊎ WritesOutput (K.state sink.old) (K.state sink.new) (patch_line asked.entry.style
        (patch_in_form asked.entry.form (tree_of from.now) (tree_of to.now))) (Err e)) }
{
    let patch = match patch_in(alloc, from, to, asked.form) {
        Ok(Some(patch)) => patch,
        Ok(None) => return Ok(Comparison::NoMergePatch),
        Err(error) => return Err(error),
    };
    match write_line(&Printer::new(alloc), &patch, Some(asked.style), false, sink) {
        Ok(()) => Ok(compared(from, to)),
        Err(error) => Err(error),
    }
}
