// Several paths, keys and lengths.
use crate::files::runs::{Outcome, Row, all_hold, compact};
use json_patch::Pointer;
use mezdruk_files::{GetAll, GetKeys, GetLength, InputForm, ValueChange, ValuePath};
use std::alloc::Global;

// Returns the path that a pointer is.
fn path_of(alloc: Global, text: &str) -> Option<ValuePath> {
    match Pointer::parse(alloc, text) {
        Ok(pointer) => Some(ValuePath::Pointer(pointer)),
        Err(_) => None,
    }
}

// Whether a change makes of lines what the rows say, and each element is printed.
fn makes_each<C: ValueChange + Drop>(alloc: Global, change: C, rows: &[Row]) -> bool {
    let mut job = compact(change);
    job.input = InputForm::Lines;
    job.each = true;
    all_hold(alloc, &job, rows)
}

const SEVERAL: &[Row] = &[Row {
    input: b"{\"a\":1,\"b\":[\"x\"]}\n{\"a\":2}\n",
    outcome: Outcome {
        output: b"[\"x\"]\n1\n",
        reports: b"f:2:1: path 0: a key or an index is not there (NotFound)\n{\"a\":2}\n^\n",
        status: 3,
    },
}];

fn several_paths(alloc: Global) -> bool {
    match (path_of(alloc, "/b"), path_of(alloc, "/a")) {
        (Some(b), Some(a)) => makes_each(alloc, GetAll { paths: &[b, a] }, SEVERAL),
        _ => false,
    }
}

#[test]
fn values_in_the_order_of_their_paths(rt: HostRuntime) {
    assert!(rt; several_paths(rt.alloc()));
}

const KEYS: &[Row] = &[Row {
    input: b"{\"a\":{\"y\":1,\"x\":2,\"y\":3}}\n{\"a\":{}}\n",
    outcome: Outcome {
        output: b"\"y\"\n\"x\"\n\"y\"\n",
        reports: b"",
        status: 0,
    },
}];

const NO_KEYS: &[Row] = &[
    Row {
        input: b"{}",
        outcome: Outcome {
            output: b"",
            reports: b"f:1:1: a key or an index is not there (NotFound)\n{}\n^\n",
            status: 3,
        },
    },
    Row {
        input: b"{\"a\":[]}",
        outcome: Outcome {
            output: b"",
            reports: b"f:1:1: a key meets no object, or an index no array (TypeUnmatched)\n\
                {\"a\":[]}\n^\n",
            status: 3,
        },
    },
];

fn keys_of_a(alloc: Global, rows: &[Row]) -> bool {
    match path_of(alloc, "/a") {
        Some(path) => makes_each(alloc, GetKeys { path: &path }, rows),
        None => false,
    }
}

#[test]
fn keys_in_the_order_of_the_members(rt: HostRuntime) {
    assert!(rt; keys_of_a(rt.alloc(), KEYS));
}

#[test]
fn keys_of_no_object(rt: HostRuntime) {
    assert!(rt; keys_of_a(rt.alloc(), NO_KEYS));
}

const LENGTHS: &[Row] = &[
    Row {
        input: b"{\"a\":[1,[2,3]]}",
        outcome: Outcome {
            output: b"2\n",
            reports: b"",
            status: 0,
        },
    },
    Row {
        input: b"{\"a\":{\"b\":1,\"b\":2,\"c\":3}}",
        outcome: Outcome {
            output: b"3\n",
            reports: b"",
            status: 0,
        },
    },
    Row {
        input: b"{\"a\":\"xyz\"}",
        outcome: Outcome {
            output: b"",
            reports: b"f: a key meets no object, or an index no array (TypeUnmatched)\n",
            status: 3,
        },
    },
];

fn length_of_a(alloc: Global, rows: &[Row]) -> bool {
    match path_of(alloc, "/a") {
        Some(path) => all_hold(alloc, &compact(GetLength { path: &path }), rows),
        None => false,
    }
}

#[test]
fn lengths_of_arrays_and_objects(rt: HostRuntime) {
    assert!(rt; length_of_a(rt.alloc(), LENGTHS));
}
