// From the bytes of a source to the bytes of a sink.
ghost use Rattle.std.specs.Prelude.{◌<◌, ◌^◌, length, map, OnOk, IfErr, IsOkUnless};
ghost use Rattle.json_value.specs.Edits.{edit_of};
ghost use Rattle.json_io.specs.Errors.{no_memory};
ghost use Rattle.json_text.specs.Ruled.{rules_of, usual_rules};
ghost use Rattle.json_io.specs.Transfer.{TakesOneBeyond};
ghost use Rattle.json_command.specs.Input.{max_bytes};
ghost use Rattle.reshape.specs.Reshape.{layout_of, Reshapes, ReshapingRefuses};
ghost use Rattle.json_command.specs.Printing.{ReturnsWriteError};
ghost use Rattle.json_command.specs.Reading.{ReturnsReadError, ReturnsFault};
ghost use Rattle.reshape.specs.Known.{KnownFit, ReturnsUnfit};

use crate::editing::apply_all;
use json_command::{print_value, read_document_from};
use json_io::{Result, Sink, Source};
use json_layout::Style;
use json_text::Rules;
use json_value::{Edit, Value};
use std::alloc::Global;

// The rules by which the input is read, and the style in which the text is printed.
#[derive(Clone, Copy)]
struct Forms<'a> {
    rules: Rules,
    style: Style<'a>,
}

// Reads, edits and writes.
fn read_edit_write<S: Source, K: Sink>(
    alloc: Global,
    source: &mut S,
    sink: &mut K,
    edits: &[Edit],
    forms: Forms<'_>,
) -> Result<()>
    requires few { length edits.now < 2 ^ 32 }
    ensures done { OnOk result (Reshapes (rules_of forms.entry.rules)
        (map edit_of edits.now) (layout_of forms.entry.style)
        (S.state source.old) (S.state source.new)
        (K.state sink.old) (K.state sink.new)) }
    ensures refused { IfErr result (λ e. ReshapingRefuses (rules_of forms.entry.rules)
        (map edit_of edits.now) (layout_of forms.entry.style)
        (S.state source.old) (S.state source.new)
        (K.state sink.old) (K.state sink.new) e.code e.place) }
    ensures taken { TakesOneBeyond max_bytes (S.state source.old) (S.state source.new) }
    ensures read_error { ReturnsReadError (S.state source.old) (S.state source.new) result }
    ensures write_error { ReturnsWriteError (K.state sink.old) (K.state sink.new) result }
{
    let doc = read_document_from(alloc, source, forms.rules)?;
    let mut value = Value::from_place(alloc, &doc, doc.root())?;
    apply_all(alloc, &mut value, edits)?;
    print_value(alloc, &value, forms.style, sink)
}

/// Reads all of `source` as one JSON text by the rules, applies the edits in order, writes the text
/// of the edited value in this style to `sink`, and flushes it. There must be fewer than
/// 4,294,967,296 edits.
///
/// Writes nothing unless the whole input is valid and every edit applies. The edited value may have
/// any number of levels, and keys that repeat.
///
/// Fails with:
///
/// - the error of the grammar or the rules at its offset if the input is not valid, such as
///   `RecursionLimitExceeded` or `DuplicateKey`,
/// - `TooLarge` if the input has more than 4,294,967,295 bytes,
/// - `NotFound` or `TypeUnmatched` at the index of the first edit that does not apply,
/// - `Io` if the source or the sink fails,
/// - `NoMemory` if memory runs out.
///
/// If the bytes of the source are known and neither the source nor the sink fails, the result is
/// the one that those bytes require, or `NoMemory`.
pub fn reshape_with<S: Source, K: Sink>(
    alloc: Global,
    source: &mut S,
    sink: &mut K,
    edits: &[Edit],
    style: Style<'_>,
    rules: Rules,
) -> Result<()>
    requires few { length edits.now < 2 ^ 32 }
    ensures done { OnOk result (Reshapes (rules_of rules) (map edit_of edits.now)
        (layout_of style.entry) (S.state source.old) (S.state source.new)
        (K.state sink.old) (K.state sink.new)) }
    ensures refused { IfErr result (λ e. ReshapingRefuses (rules_of rules) (map edit_of edits.now)
        (layout_of style.entry) (S.state source.old) (S.state source.new)
        (K.state sink.old) (K.state sink.new) e.code e.place) }
    ensures taken { TakesOneBeyond max_bytes (S.state source.old) (S.state source.new) }
    ensures read_error { ReturnsReadError (S.state source.old) (S.state source.new) result }
    ensures write_error { ReturnsWriteError (K.state sink.old) (K.state sink.new) result }
    ensures complete { KnownFit (rules_of rules) (map edit_of edits.now)
        (S.state source.old) (S.state source.new) (K.state sink.old) (K.state sink.new)
        → IsOkUnless result no_memory }
    ensures unfit { ReturnsUnfit (rules_of rules) (map edit_of edits.now)
        (S.state source.old) (S.state source.new) result }
    ensures exact { ReturnsFault (rules_of rules)
        (S.state source.old) (S.state source.new) result }
{
    read_edit_write(alloc, source, sink, edits, Forms { rules, style })
}

/// Reads all of `source` as one JSON text, applies the edits in order, writes the text of the
/// edited value in this style to `sink`, and flushes it. There must be fewer than 4,294,967,296
/// edits. The input may have at most 254 levels, and its keys may repeat.
///
/// Writes nothing unless the whole input is valid and every edit applies. Fails if the input is not
/// valid, if an edit does not apply, if the source or the sink fails, and if memory runs out.
/// [`reshape_with`] lists the errors, and reads by other rules.
pub fn reshape<S: Source, K: Sink>(
    alloc: Global,
    source: &mut S,
    sink: &mut K,
    edits: &[Edit],
    style: Style<'_>,
) -> Result<()>
    requires few { length edits.now < 2 ^ 32 }
    ensures done { OnOk result (Reshapes usual_rules (map edit_of edits.now)
        (layout_of style.entry) (S.state source.old) (S.state source.new)
        (K.state sink.old) (K.state sink.new)) }
    ensures refused { IfErr result (λ e. ReshapingRefuses usual_rules (map edit_of edits.now)
        (layout_of style.entry) (S.state source.old) (S.state source.new)
        (K.state sink.old) (K.state sink.new) e.code e.place) }
    ensures taken { TakesOneBeyond max_bytes (S.state source.old) (S.state source.new) }
    ensures read_error { ReturnsReadError (S.state source.old) (S.state source.new) result }
    ensures write_error { ReturnsWriteError (K.state sink.old) (K.state sink.new) result }
    ensures complete { KnownFit usual_rules (map edit_of edits.now)
        (S.state source.old) (S.state source.new) (K.state sink.old) (K.state sink.new)
        → IsOkUnless result no_memory }
    ensures unfit { ReturnsUnfit usual_rules (map edit_of edits.now)
        (S.state source.old) (S.state source.new) result }
    ensures exact { ReturnsFault usual_rules
        (S.state source.old) (S.state source.new) result }
{
    reshape_with(alloc, source, sink, edits, style, Rules::usual())
}
