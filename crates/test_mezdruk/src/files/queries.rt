// What queries select of documents, and how many values that are.
use crate::files::runs::{Outcome, Row, all_hold, compact};
use json_query::Query;
use mezdruk_files::{InputForm, QueryAll, QueryCount, ValueChange};
use std::alloc::Global;

// Whether a change makes of lines what the rows say.
fn makes<C: ValueChange + Drop>(alloc: Global, change: C, each: bool, rows: &[Row]) -> bool {
    let mut job = compact(change);
    job.input = InputForm::Lines;
    job.each = each;
    all_hold(alloc, &job, rows)
}

const SELECTED: &[Row] = &[
    Row {
        input: b"{\"a\":[{\"b\":1.50},{\"b\":[2]}],\"b\":{\"b\":null}}\n[]\n{\"b\":0,\"b\":1}\n",
        outcome: Outcome {
            output: b"{\"b\":null}\n1.50\n[2]\nnull\n0\n1\n",
            reports: b"",
            status: 0,
        },
    },
    Row {
        input: b"{\"b\":\n{\"b\":2}\n",
        outcome: Outcome {
            output: b"2\n",
            reports: b"f:1:6: the input ends before its value does (EofWhileParsing)\n{\"b\":\n     ^\n",
            status: 1,
        },
    },
];

const ARRAYS: &[Row] = &[Row {
    input: b"{\"a\":[{\"b\":1.50},{\"b\":[2]}]}\n7\n",
    outcome: Outcome {
        output: b"[1.50,[2]]\n[]\n",
        reports: b"",
        status: 0,
    },
}];

const COUNTS: &[Row] = &[Row {
    input: b"{\"a\":[{\"b\":1.50},{\"b\":[2]}]}\n7\n{\"b\":0,\"b\":1}\n",
    outcome: Outcome {
        output: b"2\n0\n2\n",
        reports: b"",
        status: 0,
    },
}];

fn selected_values(alloc: Global) -> bool {
    match Query::parse(alloc, "$..b") {
        Ok(query) => makes(alloc, QueryAll { query: &query }, true, SELECTED),
        Err(_) => false,
    }
}

#[test]
fn each_selected_value_on_a_line(rt: HostRuntime) {
    assert!(rt; selected_values(rt.alloc()));
}

fn arrays_of_values(alloc: Global) -> bool {
    match Query::parse(alloc, "$..b") {
        Ok(query) => makes(alloc, QueryAll { query: &query }, false, ARRAYS),
        Err(_) => false,
    }
}

#[test]
fn selected_values_as_an_array(rt: HostRuntime) {
    assert!(rt; arrays_of_values(rt.alloc()));
}

fn counted_values(alloc: Global) -> bool {
    match Query::parse(alloc, "$..b") {
        Ok(query) => makes(alloc, QueryCount { query: &query }, false, COUNTS),
        Err(_) => false,
    }
}

#[test]
fn how_many_values_are_selected(rt: HostRuntime) {
    assert!(rt; counted_values(rt.alloc()));
}
