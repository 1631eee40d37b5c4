// Words, with what they ask for.
use json_text::{Result, Words};
use json_value::{Edit, Path, PointerNode, Value};
use reshape::{Asked, Edits, asked};
use std::alloc::Global;

fn list_of(alloc: Global, words: &[&str]) -> Result<Words> {
    let mut list = Words::new(alloc);
    for word in words {
        list.push(word)?;
    }
    Ok(list)
}

// The edits that these words ask for.
fn read(alloc: Global, words: &[&str]) -> Result<Option<Edits>> {
    let list = list_of(alloc, words)?;
    match asked(alloc, &list)? {
        Asked::Reshape(edits, _) => Ok(Some(edits)),
        Asked::Made(_) => Ok(None),
    }
}

// Whether the path leads through this key to this index.
fn leads(path: &Path, key: &str, index: usize) -> bool {
    match path.steps() {
        [PointerNode::Key(text), PointerNode::Index(i)] => text.as_str() == key && *i == index,
        _ => false,
    }
}

fn is_one_set(edits: &[Edit]) -> bool {
    match edits {
        [
            Edit::Set {
                path,
                value: Value::Bool(true),
            },
        ] => leads(path, "a", 1),
        _ => false,
    }
}

fn are_all_forms(edits: &[Edit]) -> bool {
    match edits {
        [
            Edit::Set { path, .. },
            Edit::Insert { path: to, key, .. },
            Edit::Push { path: at, .. },
            Edit::Remove {
                step: PointerNode::Key(gone),
                ..
            },
            Edit::Remove {
                step: PointerNode::Index(last),
                ..
            },
        ] => {
            path.steps().is_empty()
                && leads(to, "b", 0)
                && key.as_str() == "kA"
                && leads(at, "\u{1f604}", 4_294_967_295)
                && gone.as_str() == ""
                && *last == 4_294_967_295
        }
        _ => false,
    }
}

fn are_none(edits: &[Edit]) -> bool {
    edits.is_empty()
}

// Whether these words ask for edits, and those are as they should be.
fn asks_for<F: FnOnce(&[Edit]) -> bool>(read: Result<Option<Edits>>, is_right: F) -> bool
    requires { F.IsAlwaysCallable is_right }
{
    match read {
        Ok(Some(edits)) => is_right(edits.as_slice()),
        _ => false,
    }
}

const ALL_FORMS: &str = r#"[["\u0073et",[],null],["insert",["\u0062",0],"k\u0041",[1]],
        ["push",["\ud83d\ude04",4294967295],{}],["remove",[],""],["remove",[""],4294967295]]"#;

#[test]
fn words_ask_for_their_edits(rt: HostRuntime) {
    let alloc = rt.alloc();
    assert!(rt; asks_for(read(alloc, &[]), are_none));
    assert!(rt; asks_for(read(alloc, &["[ ]"]), are_none));
    assert!(rt; asks_for(read(alloc, &[r#"[["set", ["a", 1], true]]"#]), is_one_set));
    assert!(rt; asks_for(read(alloc, &[ALL_FORMS]), are_all_forms));
}
