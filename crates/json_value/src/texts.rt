// Compact texts in memory, by the walk that prints.
ghost use Rattle.std.specs.Prelude.{◌≡◌, None, Some, IfOk, IfSome, IsUtf8, string_bytes, [], false};
ghost use Rattle.json_grammar.specs.Tree.{list, list_trees, pairs, list_pairs};
ghost use Rattle.json_model.specs.Print.{shown};
ghost use Rattle.json_layout.specs.Showing.{Shows};
ghost use Rattle.json_value.specs.Denotes.{list_in, pairs_in};
ghost use Rattle.json_io.specs.Errors.{OnlyNoMemory};

use crate::array::Array;
use crate::container::Form;
use crate::object::Object;
use crate::show_owned::{show_owned_pairs, show_values};
use json_doc_print::internal::{show_elements, show_members};
use json_io::{Result, Sink, SinkResult, VecSink, flush_all};
use json_layout::{BufferedWriter, OneLine, show_piece};
use std::alloc::Global;

/// Creates a buffered writer into memory, to which nothing has been written. Fails with `NoMemory`
/// if memory runs out.
pub(crate) fn text_writer(alloc: Global) -> Result<BufferedWriter<VecSink>>
    ensures starts { IfOk result (λ out. ⟦<BufferedWriter<VecSink> as Sink>⟧.state out
        ≡ record { gained = Some []; faults = 0; lacks = 0; unflushed = false; loan = None }) }
    ensures only { OnlyNoMemory result }
{
    let sink = VecSink::new(alloc);
    BufferedWriter::new(alloc, sink)
}

/// Returns all that was written to `out`, which must be UTF-8, as a string. Fails with `NoMemory`
/// if memory runs out.
pub(crate) fn text_written(out: BufferedWriter<VecSink>) -> Result<String>
    requires { IfSome (⟦<BufferedWriter<VecSink> as Sink>⟧.state out).gained IsUtf8 }
    ensures ok { IfOk result (λ text.
        (⟦<BufferedWriter<VecSink> as Sink>⟧.state out).gained ≡ Some (string_bytes text)) }
    ensures only { OnlyNoMemory result }
{
    let mut out = out;
    match flush_all(&mut out) {
        Ok(()) => {}
        Err(error) => return Err(error),
    }
    let bytes = out.into_inner().into_vec();
    Ok(unsafe { String::from_utf8_unchecked(bytes) })
}

/// Writes the compact text of an array.
pub(crate) fn show_array<W: Sink>(array: &Array, out: &mut BufferedWriter<W>) -> SinkResult
    ensures { Shows 0 (⟦<BufferedWriter<W> as Sink>⟧.state out.old)
        (⟦<BufferedWriter<W> as Sink>⟧.state out.new)
        (shown None 0 (list (list_trees (list_in array.now)))) result }
{
    match &array.form {
        Form::Empty => show_piece(out, b"[]"),
        Form::Owned(values) => show_values(values, OneLine, 0, out),
        Form::Packed(place) => show_elements(place.view(), OneLine, 0, out),
    }
}

/// Writes the compact text of an object.
pub(crate) fn show_object<W: Sink>(object: &Object, out: &mut BufferedWriter<W>) -> SinkResult
    ensures { Shows 0 (⟦<BufferedWriter<W> as Sink>⟧.state out.old)
        (⟦<BufferedWriter<W> as Sink>⟧.state out.new)
        (shown None 0 (pairs (list_pairs (pairs_in object.now)))) result }
{
    match &object.form {
        Form::Empty => show_piece(out, b"{}"),
        Form::Owned(values) => show_owned_pairs(values, OneLine, 0, out),
        Form::Packed(place) => show_members(place.view(), OneLine, 0, out),
    }
}
