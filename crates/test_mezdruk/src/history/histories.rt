// Worked examples of histories.
use json_data::from_str;
use json_history::{Call, Change, History, make_calls, requested_calls};
use json_text::{ErrorCode, Place, Result, Words};
use json_value::{Edit, Value};
use std::alloc::Global;

const TEXT: &str = r#"{"a":[1,2,3],"b":{"c":true}}"#;

// One edit of each kind, and an insertion and a removal of both kinds.
const EDITS: &str = r#"[["set",["a",1],{"x":1.50}],["insert",["b"],"c",null],
    ["insert",["b"],"d",[]],["push",["a"],4],["remove",["a"],0],["remove",["b"],"c"]]"#;

const EDITED: &str = r#"{"a":[{"x":1.50},3,4],"b":{"d":[]}}"#;

/// What is done with a history, with its result, or what the history then is.
#[derive(Clone, Copy)]
enum Step {
    /// An undo, and whether there is anything to undo.
    Undo(bool),
    /// A redo, and whether there is anything to redo.
    Redo(bool),
    /// An edit that meets a value of another type.
    Refused(&'static str),
    Limit(usize),
    ClearRedo,
    /// The compact text of the value.
    Shows(&'static str),
    /// How many edits can be undone and redone.
    Counts(usize, usize),
    /// The names of the changes, the oldest first.
    Changes(&'static [&'static str]),
    /// The indexes of the two members that the one change holds.
    Indexes(usize, usize),
}

// The calls that a word spells.
fn calls_of(alloc: Global, word: &str) -> Result<Vec<Call>> {
    let mut words = Words::new(alloc);
    words.push(word)?;
    requested_calls(alloc, &words)
}

// Makes the calls that a word spells.
fn make(alloc: Global, history: &mut History, word: &str) -> Result<()> {
    let calls = calls_of(alloc, word)?;
    if calls.len() < 100 {
        make_calls(alloc, history, calls)
    } else {
        Ok(())
    }
}

// Whether an edit is refused, since it meets a value of another type.
fn is_refused(alloc: Global, history: &mut History, edit: &str) -> Result<bool> {
    let edit = from_str::<Edit>(alloc, edit)?;
    match history.apply(alloc, edit) {
        Ok(()) => Ok(false),
        Err(error) => Ok(error.code == ErrorCode::TypeUnmatched && error.place == Place::None),
    }
}

fn shows(alloc: Global, history: &History, text: &str) -> Result<bool> {
    Ok(history.value().to_string(alloc)?.as_str() == text)
}

fn name_of(change: &Change) -> &'static str {
    match change {
        Change::Put { .. } => "Put",
        Change::DropLast { .. } => "DropLast",
        Change::PutBack { .. } => "PutBack",
        Change::PutPairs { .. } => "PutPairs",
    }
}

fn have_names(changes: &[Change], names: &[&str]) -> bool {
    let mut pairs = changes.iter().zip(names);
    changes.len() == names.len() && pairs.all(|(change, name)| name_of(change) == *name)
}

fn has_indexes(changes: &[Change], first: usize, second: usize) -> bool {
    match changes {
        [Change::PutPairs { pairs, .. }] if pairs.len() == 2 => {
            pairs.at(0).0 == first && pairs.at(1).0 == second
        }
        _ => false,
    }
}

// Takes a step, and returns whether it has the result that is said of it.
fn holds(alloc: Global, history: &mut History, step: Step) -> Result<bool> {
    match step {
        Step::Undo(is_done) => Ok(history.undo(alloc)? == is_done),
        Step::Redo(is_done) => Ok(history.redo(alloc)? == is_done),
        Step::Refused(edit) => is_refused(alloc, history, edit),
        Step::Limit(most) => {
            history.limit(most);
            Ok(true)
        }
        Step::ClearRedo => {
            history.clear_redo();
            Ok(true)
        }
        Step::Shows(text) => shows(alloc, history, text),
        Step::Counts(undos, redos) => {
            Ok(history.undo_count() == undos && history.redo_count() == redos)
        }
        Step::Changes(names) => Ok(have_names(history.changes(), names)),
        Step::Indexes(first, second) => Ok(has_indexes(history.changes(), first, second)),
    }
}

// Takes the steps in turn, and returns whether each has the result that is said of it.
fn hold(alloc: Global, history: &mut History, steps: &[Step]) -> Result<bool> {
    for step in steps {
        if !holds(alloc, history, *step)? {
            return Ok(false);
        }
    }
    Ok(true)
}

// The same after the calls that a word spells.
fn hold_after(alloc: Global, history: &mut History, word: &str, steps: &[Step]) -> Result<bool> {
    make(alloc, history, word)?;
    hold(alloc, history, steps)
}

// The same of a history of the text.
fn hold_of(alloc: Global, text: &str, word: &str, steps: &[Step]) -> Result<bool> {
    let mut history = History::new(alloc, from_str::<Value>(alloc, text)?);
    hold_after(alloc, &mut history, word, steps)
}

const UNDONE_AND_REDONE: [Step; 18] = [
    Step::Shows(EDITED),
    Step::Counts(6, 0),
    Step::Undo(true),
    Step::Undo(true),
    Step::Undo(true),
    Step::Undo(true),
    Step::Undo(true),
    Step::Undo(true),
    Step::Undo(false),
    Step::Shows(TEXT),
    Step::Redo(true),
    Step::Redo(true),
    Step::Redo(true),
    Step::Redo(true),
    Step::Redo(true),
    Step::Redo(true),
    Step::Redo(false),
    Step::Shows(EDITED),
];

#[test]
fn each_kind_of_edit_is_undone_and_redone(rt: HostRuntime) {
    assert!(rt;
        matches!(
            hold_of(rt.alloc(), TEXT, EDITS, &UNDONE_AND_REDONE),
            Ok(true)
        )
    );
}

const NOTHING_TO_UNDO: [Step; 3] = [Step::Undo(false), Step::Redo(false), Step::Changes(&[])];

#[test]
fn a_new_history_has_nothing_to_undo(rt: HostRuntime) {
    let mut history = History::new(rt.alloc(), Value::new_null());
    assert!(rt; matches!(hold(rt.alloc(), &mut history, &NOTHING_TO_UNDO), Ok(true)));
}

const OLDEST_FIRST: [Step; 1] = [Step::Changes(&[
    "Put", "Put", "DropLast", "DropLast", "PutBack", "PutPairs",
])];

#[test]
fn changes_come_oldest_first(rt: HostRuntime) {
    assert!(rt; matches!(hold_of(rt.alloc(), TEXT, EDITS, &OLDEST_FIRST), Ok(true)));
}

const MEMBERS: &str = r#"{"a":1,"b":2,"a":3}"#;

const REMOVAL: &str = r#"[["remove",[],"a"]]"#;

#[test]
fn removed_members_keep_their_indexes(rt: HostRuntime) {
    let steps = [Step::Indexes(0, 2)];
    assert!(rt; matches!(hold_of(rt.alloc(), MEMBERS, REMOVAL, &steps), Ok(true)));
}

const REFUSED: [Step; 4] = [
    Step::Refused(r#"["push",["k"],1]"#),
    Step::Counts(0, 1),
    Step::Redo(true),
    Step::Shows("[0,1]"),
];

const UNDONE_PUSH: &str = r#"[["push",[],1],["undo"]]"#;

#[test]
fn a_refused_edit_changes_nothing(rt: HostRuntime) {
    assert!(rt; matches!(hold_of(rt.alloc(), "[0]", UNDONE_PUSH, &REFUSED), Ok(true)));
}

const LIMITED: [Step; 11] = [
    Step::Undo(true),
    Step::Limit(7),
    Step::Counts(5, 1),
    Step::Limit(2),
    Step::Counts(2, 1),
    Step::Undo(true),
    Step::Undo(true),
    Step::Undo(false),
    Step::Shows(r#"{"a":[1,{"x":1.50},3],"b":{"c":null,"d":[]}}"#),
    Step::ClearRedo,
    Step::Redo(false),
];

#[test]
fn a_limit_drops_the_oldest_changes(rt: HostRuntime) {
    assert!(rt; matches!(hold_of(rt.alloc(), TEXT, EDITS, &LIMITED), Ok(true)));
}

// The same of a copy of a history.
fn hold_of_copy(alloc: Global, history: &History, steps: &[Step]) -> Result<bool> {
    let mut copy = history.clone(alloc)?;
    hold(alloc, &mut copy, steps)
}

const ONE_UNDONE: [Step; 5] = [
    Step::Counts(5, 1),
    Step::Redo(true),
    Step::Shows(EDITED),
    Step::Undo(true),
    Step::Undo(true),
];

// Whether copies of a history are undone and redone as it would be, and leave it as it is.
fn copies_hold(alloc: Global) -> Result<bool> {
    let mut history = History::new(alloc, from_str::<Value>(alloc, TEXT)?);
    make(alloc, &mut history, EDITS)?;
    let all = hold_of_copy(alloc, &history, &UNDONE_AND_REDONE)?;
    history.undo(alloc)?;
    let one = hold_of_copy(alloc, &history, &ONE_UNDONE)?;
    history.redo(alloc)?;
    let value = history.into_value();
    Ok(all && one && value.to_string(alloc)?.as_str() == EDITED)
}

#[test]
fn a_copy_is_undone_alone(rt: HostRuntime) {
    assert!(rt; matches!(copies_hold(rt.alloc()), Ok(true)));
}
