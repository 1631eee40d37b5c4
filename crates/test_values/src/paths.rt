// What steps and paths lead to.
use crate::looks::{Call, Look, assert_none, elements, sees_text, wrong_look};
use crate::writing::write_at;
use json_doc::JsonType;
use json_value::{Index, Path, PointerNode, Value, View};
use std::alloc::Global;
use test_fixtures::{first_wrong, is_made, key};

const MEMBERS: &str = "{\"a\":[1.5,true],\"a\":2}";

const NESTED: &str = "{\"x\":{\"y\":[\"z\",\"zz\"]}}";

// Whether the step is these, a key or an index.
fn is_step<I: Index>(step: &I, key: Option<&str>, index: Option<usize>) -> bool {
    step.as_key() == key && step.as_index() == index
}

fn is_true(seen: Option<View<'_>>) -> bool {
    match seen {
        Some(seen) => seen.as_bool() == Some(true),
        None => false,
    }
}

// Whether what is seen is an array of two elements, the second of which is true, and no step of a
// key leads further.
fn is_list(seen: Option<View<'_>>) -> bool {
    match seen {
        Some(list) => {
            let two = elements(list.as_array()) == Some((2, false));
            two && is_true(list.get(1_usize)) && list.get("a").is_none()
        }
        None => false,
    }
}

fn is_called(member: Option<(&str, View<'_>)>, name: &str) -> bool {
    match member {
        Some((key, _)) => key == name,
        None => false,
    }
}

// Whether there are two members, and the key of both is `a`.
fn has_two_called(value: &Value) -> bool {
    match value.view().as_object() {
        Some(object) => {
            let mut members = object.iter();
            let first = is_called(members.next(), "a");
            let second = is_called(members.next(), "a");
            first && second && members.next().is_none()
        }
        None => false,
    }
}

// Whether a literal is seen, as a place of a document.
fn is_literal(seen: Option<View<'_>>, literal: &str) -> bool {
    match seen {
        Some(seen) => seen.literal() == Some(literal) && seen.place().is_some(),
        None => false,
    }
}

fn leads_to_place(value: &Value, alloc: Global) -> bool {
    let mut path = Path::new(alloc);
    let first = path.push(key("a")).is_ok();
    let second = path.push(PointerNode::Index(0)).is_ok();
    let made = first && second && path.steps().len() == 2;
    made && is_literal(value.pointer(path.steps()), "1.5")
}

fn leads_to_text(value: &Value) -> bool {
    let path = [key("x"), key("y"), PointerNode::Index(1)];
    sees_text(value.pointer(&path), "zz") && sees_text(value.view().pointer(&path), "zz")
}

// Whether a value is seen, and the compact text of its copy is this one.
fn is_copied(alloc: Global, seen: Option<View<'_>>, json: &str) -> bool {
    match seen {
        Some(found) => is_made(alloc, found.to_value(alloc), json),
        None => false,
    }
}

// Writes 1 at the first element of the first member of the first member, and copies the member.
fn is_written_and_copied(value: &mut Value, alloc: Global) -> bool {
    let first = [key("x"), key("y"), PointerNode::Index(0)];
    let written = write_at(value, alloc, &first, 1);
    written && is_copied(alloc, value.pointer(&[key("x")]), "{\"y\":[1,\"zz\"]}")
}

// Where steps lead, and what is there.
#[derive(Clone, Copy)]
enum Lead {
    Children,
    TwoCalled,
    Place,
    Text,
    Nowhere,
    Whole,
    Null,
    TextByKeys,
    Written,
}

impl Call for Lead {
    fn is_right(self, value: &mut Value, alloc: Global) -> bool {
        match self {
            Lead::Children => is_list(value.get("a")),
            Lead::TwoCalled => has_two_called(value),
            Lead::Place => leads_to_place(value, alloc),
            Lead::Text => leads_to_text(value),
            Lead::Nowhere => value.pointer(&[key("a"), key("b")]).is_none(),
            Lead::Whole => is_copied(alloc, value.pointer(&[]), NESTED),
            Lead::Null => value.at("a").at("b").get_type() == JsonType::Null,
            Lead::TextByKeys => value.at("x").at("y").at(1_usize).text() == Some("zz"),
            Lead::Written => is_written_and_copied(value, alloc),
        }
    }
}

const ROWS: &[Look<Lead>] = &[
    ("steps lead to children", MEMBERS, Lead::Children),
    ("members are gone through", MEMBERS, Lead::TwoCalled),
    ("a path leads to a place", MEMBERS, Lead::Place),
    ("a path leads to a text", NESTED, Lead::Text),
    ("a path leads nowhere", NESTED, Lead::Nowhere),
    ("no step leads to the whole", NESTED, Lead::Whole),
    ("steps to nowhere are null", NESTED, Lead::Null),
    ("steps lead to a text", NESTED, Lead::TextByKeys),
    ("a written value is copied", NESTED, Lead::Written),
];

fn wrong_step() -> Option<&'static str> {
    first_wrong(&[
        ("a step of a text", is_step(&"a", Some("a"), None)),
        ("a step of a number", is_step(&7_usize, None, Some(7))),
        ("a node of a key", is_step(&key("a"), Some("a"), None)),
        (
            "a node of an index",
            is_step(&PointerNode::Index(7), None, Some(7)),
        ),
    ])
}

#[test]
fn steps_and_paths_lead_to_places(rt: HostRuntime) {
    assert_none(&rt, wrong_look(rt.alloc(), ROWS));
    assert_none(&rt, wrong_step());
}
