// What is reported of arguments, and what those that are valid ask for.
use crate::arguments::rows::ROWS;
use json_command::rows::differing_rows;
use json_text::{FakeSource, Result, VecSink, Words, put_all};
use json_value::Edit;
use mezdruk_arguments::{
    Arguments, ArgumentsError, OperandError, OperandKind, Problem, Verb, arguments_report,
    operand_file_report, read_arguments, read_operand, requested_edits,
};
use std::alloc::Global;

// Reports arguments that are refused, and returns the status.
fn reported(alloc: Global, words: &Words, error: &ArgumentsError, errs: &mut VecSink) -> u8 {
    match arguments_report(alloc, words, error) {
        Ok(report) => match put_all(errs, report.as_bytes()) {
            Ok(()) => 2,
            Err(_) => 5,
        },
        Err(_) => 6,
    }
}

fn run(
    alloc: Global,
    words: &Words,
    _source: &mut FakeSource<'_>,
    _sink: &mut VecSink,
    errs: &mut VecSink,
) -> u8 {
    match read_arguments(alloc, words) {
        Ok(_) => 0,
        Err(error) => reported(alloc, words, &error, errs),
    }
}

#[test]
fn each_row_has_its_report(rt: HostRuntime) {
    assert!(rt; matches!(differing_rows(rt.alloc(), ROWS, 1, run), Ok(0)));
}

fn words_of(alloc: Global, all: &[&str]) -> Result<Words> {
    let mut words = Words::new(alloc);
    for word in all {
        words.push(word)?;
    }
    Ok(words)
}

// Whether arguments have two files and one edit, a push of a value.
fn ask_for_a_push(alloc: Global, arguments: Arguments<'_>) -> bool {
    let files = arguments.files.as_slice() == ["a.json", "b.json"].as_slice();
    match requested_edits(alloc, arguments.verb, arguments.operands) {
        Ok(edits) => files && matches!(edits.as_slice(), [Edit::Push { .. }]),
        Err(_) => false,
    }
}

fn are_a_push(alloc: Global, words: &Words) -> bool {
    match read_arguments(alloc, words) {
        Ok(arguments) => ask_for_a_push(alloc, arguments),
        Err(_) => false,
    }
}

// Whether the one edit of a command and these operands is a push of a value.
fn is_push(alloc: Global, path: &str, value: &str) -> bool {
    match words_of(
        alloc,
        &["push", path, value, "a.json", "--compact", "b.json"],
    ) {
        Ok(words) => are_a_push(alloc, &words),
        Err(_) => false,
    }
}

#[test]
fn operands_become_the_edit_of_the_command(rt: HostRuntime) {
    assert!(rt; is_push(rt.alloc(), "[\"a\", 0]", "{\"b\": 1.50}"));
    assert!(rt; !is_push(rt.alloc(), "a", "1"));
}

// Whether the report of a file of edits begins so.
fn report_begins(alloc: Global, problem: &Problem, expected: &str) -> bool {
    let Ok(words) = words_of(alloc, &["edit"]) else {
        return false;
    };
    match operand_file_report(alloc, &words, "e.json", problem) {
        Ok(report) => report.as_str().starts_with(expected),
        Err(_) => false,
    }
}

fn is_reported(alloc: Global, text: &str, expected: &str) -> bool {
    match read_operand(alloc, OperandKind::Edits, text) {
        Err(OperandError::Invalid(problem)) => report_begins(alloc, &problem, expected),
        _ => false,
    }
}

#[test]
fn a_file_of_edits_is_named_with_its_fault(rt: HostRuntime) {
    let expected = "mezdruk edit: e.json: EDITS is no JSON text: ";
    assert!(rt; is_reported(rt.alloc(), "[[\"push\",[],1],\n]", expected));
    assert!(rt; read_operand(rt.alloc(), OperandKind::Edits, "[]").is_ok());
}

// Whether the fourth of the arguments is the first that is invalid.
fn fourth_is_invalid(alloc: Global, words: &Words) -> bool {
    matches!(
        read_arguments(alloc, words),
        Err(ArgumentsError::Invalid {
            index: 3,
            problem: Problem::NoText { .. }
        })
    )
}

fn index_is_told(alloc: Global) -> bool {
    match words_of(alloc, &["set", "--pretty", "[]", "[", "--none", "--pretty"]) {
        Ok(words) => fourth_is_invalid(alloc, &words),
        Err(_) => false,
    }
}

#[test]
fn the_first_invalid_argument_has_its_index(rt: HostRuntime) {
    assert!(rt; index_is_told(rt.alloc()));
    assert!(rt; Verb::Set.operands().len() == 2);
}
