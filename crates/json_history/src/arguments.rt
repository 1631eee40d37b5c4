// The calls that the words of the command line ask for.
ghost use Rattle.std.specs.Prelude.{◌≡◌, ◌⊎◌, ◌<◌, ◌^◌, List, length, map, option_map, IfOk, IfErr, Some};
ghost use Rattle.json_io.specs.Errors.{no_memory, bad_words};
ghost use Rattle.json_value.specs.EditTrees.{each_in, edit_in};
ghost use Rattle.json_value.specs.Seen.{seen, elements_seen};
ghost use Rattle.json_history.specs.Calls.{call_of};
ghost use Rattle.json_history.specs.History.{TreeCall, edit};
ghost use Rattle.json_history.specs.Spelling.{single_call, call_in, SpellsCalls, AsksForCalls, SpellsNoCalls};

use crate::call::Call;
use json_command::{BAD_WORDS, arguments_error, read_argument};
use json_data::from_value;
use json_io::{Result, Words};
use json_value::{ArrayView, Edit, View};
use std::alloc::Global;

// Undo or redo, if its name is the only element of the array.
fn named_call(array: ArrayView<'_>) -> Option<Call>
    ensures { option_map call_of result ≡ single_call (elements_seen array.entry) }
{
    if array.len() != 1 {
        return None;
    }
    match array.get(0)?.text()? {
        "undo" => Some(Call::Undo),
        "redo" => Some(Call::Redo),
        _ => None,
    }
}

// Reads an edit as a call.
fn read_edit_call(alloc: Global, view: View<'_>) -> Result<Call>
    ensures ok { IfOk result (λ c. option_map edit (edit_in (seen view.entry)) ≡ Some (call_of c)) }
    ensures err { IfErr result (SpellsNoCalls (option_map edit (edit_in (seen view.entry)))) }
{
    let value = view.to_value(alloc)?;
    match from_value::<Edit>(alloc, &value) {
        Ok(edit) => Ok(Call::Edit(edit)),
        Err(error) => Err(arguments_error(error.code)),
    }
}

// Reads a call.
fn read_call(alloc: Global, view: View<'_>) -> Result<Call>
    ensures ok { IfOk result (λ c. call_in (seen view.entry) ≡ Some (call_of c)) }
    ensures err { IfErr result (SpellsNoCalls (call_in (seen view.entry))) }
{
    if let Some(array) = view.as_array() {
        if let Some(call) = named_call(array) {
            return Ok(call);
        }
    }
    read_edit_call(alloc, view)
}

// Reads the elements as calls.
fn read_calls(alloc: Global, array: ArrayView<'_>) -> Result<Vec<Call>>
    ensures ok { IfOk result (λ cs.
        each_in call_in (elements_seen array.entry) ≡ Some (map call_of cs.items)) }
    ensures err { IfErr result (SpellsNoCalls (each_in call_in (elements_seen array.entry))) }
{
    let mut calls = Vec::new(alloc);
    'calls: for element in array.iter() {
        let call = read_call(alloc, element)?;
        calls.push(call)?;
    }
    Ok(calls)
}

// Reads the calls that a word spells, by the usual rules.
fn read_call_argument(alloc: Global, word: &str) -> Result<Vec<Call>>
    ensures ok { IfOk result (λ cs. SpellsCalls word.now (map call_of cs.items)) }
    ensures err { IfErr result (λ e. (e ≡ no_memory)
        ⊎ ((e ≡ bad_words) × ((cs : List TreeCall) → ¬ (SpellsCalls word.now cs)))) }
{
    let doc = read_argument(alloc, word)?;
    match View::packed(doc.view()).as_array() {
        Some(array) => read_calls(alloc, array),
        None => Err(BAD_WORDS),
    }
}

/// Reads the calls that the arguments of the command line ask for. There must be one argument: the
/// JSON text of an array whose elements are edits, `["undo"]` or `["redo"]`. An edit is written as
/// in `["push",[],1]`: its kind, its path and its operands.
///
/// Fails with `BadWords` if the arguments have another form, and with `NoMemory` if memory runs
/// out. There are always fewer than 2^32 calls, as [`make_calls`] needs.
pub fn requested_calls(alloc: Global, arguments: &Words) -> Result<Vec<Call>>
    ensures ok { IfOk result (λ cs. AsksForCalls arguments.now (map call_of cs.items)) }
    ensures err { IfErr result (λ e. (e ≡ no_memory)
        ⊎ ((e ≡ bad_words) × ((cs : List TreeCall) → ¬ (AsksForCalls arguments.now cs)))) }
    ensures few { IfOk result (λ cs. length cs.items < 2 ^ 32) }
{
    if arguments.len() != 1 {
        return Err(BAD_WORDS);
    }
    read_call_argument(alloc, arguments.word(0))
}
