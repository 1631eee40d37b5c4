// Documents that are compared.
use json_print::Style;
use json_text::{Result, Rules, VecSink};
use mezdruk_files::{Comparison, PatchForm, PatchStyle, print_difference, read_value};
use std::alloc::Global;

// Two documents, how they compare, and what is printed.
type Row = (&'static str, &'static str, Comparison, &'static str);

// Prints the patch between two documents, and returns how they compare.
fn compare(alloc: Global, row: &Row, form: PatchForm, sink: &mut VecSink) -> Result<Comparison> {
    let from = read_value(alloc, row.0.as_bytes(), Rules::usual())?;
    let to = read_value(alloc, row.1.as_bytes(), Rules::usual())?;
    match Style::new(None, false) {
        Some(style) => print_difference(alloc, &from, &to, PatchStyle { form, style }, sink),
        None => Ok(Comparison::NoMergePatch),
    }
}

// Whether all rows hold.
fn all_hold(alloc: Global, form: PatchForm, rows: &[Row]) -> bool {
    for row in rows {
        let mut sink = VecSink::new(alloc);
        let comparison = compare(alloc, row, form, &mut sink);
        let holds = matches!(comparison, Ok(found) if found == row.2)
            && sink.as_slice() == row.3.as_bytes();
        if !holds {
            return false;
        }
    }
    true
}

const PATCHES: &[Row] = &[
    (
        r#"{"a": 1, "b": [1]}"#,
        r#" {"b": [1], "a": 1} "#,
        Comparison::Same,
        "[]\n",
    ),
    (
        r#"{"a": 1, "b": [1, 2]}"#,
        r#"{"b": [2], "c": 1.0}"#,
        Comparison::Differ,
        "[{\"op\":\"remove\",\"path\":\"/a\"},{\"op\":\"remove\",\"path\":\"/b/0\"},\
            {\"op\":\"add\",\"path\":\"/c\",\"value\":1.0}]\n",
    ),
];

const MERGE_PATCHES: &[Row] = &[
    (r#"{"a": {}}"#, r#"{"a":{}}"#, Comparison::Same, "{}\n"),
    ("[1]", "[1]", Comparison::Same, "[1]\n"),
    ("1", "1.0", Comparison::Differ, "1.0\n"),
    (r#"{"a":1}"#, "{}", Comparison::Differ, "{\"a\":null}\n"),
    ("{}", r#"{"a": null}"#, Comparison::NoMergePatch, ""),
];

#[test]
fn a_patch_and_whether_two_documents_differ(rt: HostRuntime) {
    assert!(rt; all_hold(rt.alloc(), PatchForm::JsonPatch, PATCHES));
    assert!(rt; all_hold(rt.alloc(), PatchForm::MergePatch, MERGE_PATCHES));
}
