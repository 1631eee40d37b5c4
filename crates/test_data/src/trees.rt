// Values, arrays, objects, paths and edits of texts.
use crate::looks::{Row, code_of, each_holds, holds, read};
use json_text::{ErrorCode, Result};
use json_value::{Array, Edit, Object, Path, Value};
use std::alloc::Global;
use test_fixtures::shows;

// Whether the value of a text is a place of a document, and has this compact text.
fn place(alloc: Global, text: &str, json: &str) -> Result<bool> {
    let value = read::<Value>(alloc, text)?;
    Ok(shows(alloc, &value, json)? && value.place().is_some())
}

// Whether the array of a text has this compact text.
fn array(alloc: Global, text: &str, json: &str) -> Result<bool> {
    shows(alloc, &read::<Array>(alloc, text)?.into_value(), json)
}

// The same of an object.
fn object(alloc: Global, text: &str, json: &str) -> Result<bool> {
    shows(alloc, &read::<Object>(alloc, text)?.into_value(), json)
}

// How many steps there are.
fn steps(alloc: Global, text: &str) -> Result<usize> {
    Ok(read::<Path>(alloc, text)?.steps().len())
}

// Whether there is an edit of each form, in this order.
fn is_each_form(edits: &[Edit]) -> bool {
    match edits {
        [set, insert, push, remove] => {
            matches!(set, Edit::Set { .. })
                && matches!(insert, Edit::Insert { .. })
                && matches!(push, Edit::Push { .. })
                && matches!(remove, Edit::Remove { .. })
        }
        _ => false,
    }
}

fn forms(alloc: Global, text: &str) -> Result<bool> {
    Ok(is_each_form(read::<Vec<Edit>>(alloc, text)?.as_slice()))
}

fn is_unmatched(outcome: Result<bool>) -> bool {
    code_of(outcome) == Some(ErrorCode::TypeUnmatched)
}

#[test]
fn trees_are_kept_whole(rt: HostRuntime) {
    let alloc = rt.alloc();
    assert!(rt; holds(array(alloc, " [1] ", "[1]")));
    let twice = "{\"a\":1,\"a\":[2.50,\"\\n\"]}";
    assert!(rt; holds(object(alloc, twice, twice)));
    assert!(rt; holds(place(alloc, twice, twice)));
    assert!(rt; matches!(steps(alloc, "[\"a\",0]"), Ok(2)));
    assert!(rt; is_unmatched(array(alloc, "{}", "{}")));
}

// A word that is no edits.
struct Other {
    word: &'static str,
}

impl Row for Other {
    fn text(&self) -> &'static str {
        self.word
    }

    fn holds(&self, alloc: Global) -> bool {
        is_unmatched(forms(alloc, self.word))
    }
}

const OTHERS: &[Other] = &[
    Other { word: "{}" },
    Other {
        word: "[[\"set\",[]]]",
    },
    Other {
        word: "[[\"set\",[],1,2]]",
    },
    Other {
        word: "[[\"set\",[1.5],0]]",
    },
    Other {
        word: "[[\"push\",\"a\",1]]",
    },
    Other {
        word: "[[\"remove\",[],-1]]",
    },
    Other {
        word: "[[\"remove\",[],4294967296]]",
    },
    Other {
        word: "[[\"insert\",[],1,2]]",
    },
    Other {
        word: "[[\"move\",[],1]]",
    },
    Other { word: "[[]]" },
];

#[test]
fn an_edits_word_in_each_form(rt: HostRuntime) {
    let word =
        "[[\"set\",[\"a\",0],1],[\"insert\",[],\"k\",{}],[\"push\",[],[2]],[\"remove\",[],\"b\"]]";
    assert!(rt; holds(forms(rt.alloc(), word)));
    each_holds(&rt, rt.alloc(), OTHERS);
}
