// What views show.
use crate::looks::{
    Call, Look, Open, assert_none, elements, sees, sees_text, wrong_document, wrong_look,
};
use json_doc::{Doc, JsonType};
use json_value::{ObjectView, Pair, Text, Value, View};
use std::alloc::Global;
use std::rc::Rc;
use test_fixtures::{is_shown, or_null, whole};

// Whether the first element is the number 7, not by its literal, and the second a text of one line
// break.
fn are_seven_and_line(list: View<'_>) -> bool {
    let spelled = list.at(0_usize).literal().is_some();
    let text = list.at(1_usize).get_type() == JsonType::String;
    match list.as_array() {
        Some(array) => sees(array.get(0), 7) && sees_text(array.get(1), "\n") && text && !spelled,
        None => false,
    }
}

// Whether the member of a key is such an array.
fn has_seven_and_line(member: Option<View<'_>>) -> bool {
    match member {
        Some(list) => are_seven_and_line(list),
        None => false,
    }
}

// Whether a member has this key, and its value this literal.
fn is_literal(member: Option<(&str, View<'_>)>, name: &str, literal: &str) -> bool {
    match member {
        Some((key, value)) => key == name && value.literal() == Some(literal),
        None => false,
    }
}

// Whether these are the members of `{"a":[7,"\n"],"b":-2.50e3}`.
fn are_both(object: ObjectView<'_>) -> bool {
    let counted = object.len() == 2 && !object.is_empty();
    let literal = is_literal(object.get_key_value("b"), "b", "-2.50e3");
    counted && literal && has_seven_and_line(object.get("a"))
}

fn has_both(doc: &Doc) -> bool {
    match View::packed(doc.view()).as_object() {
        Some(object) => are_both(object),
        None => false,
    }
}

// Whether a member has this key, and is true.
fn is_true(member: Option<(&str, View<'_>)>, name: &str) -> bool {
    match member {
        Some((key, value)) => key == name && value.as_bool() == Some(true),
        None => false,
    }
}

// Whether a value is an object of one member, which is true.
fn has_one(value: &Value) -> bool {
    match value.view().as_object() {
        Some(object) => {
            let one = object.iter().len() == 1 && object.pair(1).is_none();
            one && is_true(object.pair(0), "k")
        }
        None => false,
    }
}

// Writes true at a member, and sees it.
fn is_written_and_seen(member: &mut Pair) -> bool {
    *member.value_mut() = Value::new_bool(true);
    member.key() == "k" && member.value().eq_bool(true)
}

fn member_is_written() -> bool {
    is_written_and_seen(&mut Pair::new(Text::from_static("k"), Value::new_null()))
}

// Whether two places are one cell of documents of the same texts.
fn are_one(place: Option<(&Doc, u32)>, other: Option<(&Doc, u32)>) -> bool {
    match (place, other) {
        (Some((doc, at)), Some((other, other_at))) => {
            at == other_at && doc.text() == other.text()
        }
        _ => false,
    }
}

// Whether the second element of the member `k` of the second element is made a value of the same
// document, one more that holds it.
fn part_is_shared(value: &Value, alloc: Global, doc: &Rc<Doc>) -> bool {
    let part = value.at(1_usize).at("k").at(1_usize);
    let before = Rc::strong_count(doc);
    let shared = or_null(part.to_value(alloc));
    let after = Rc::strong_count(doc);
    before == 2 && after == 3 && are_one(shared.place(), part.place())
}

// Whether the copy of the first element is no place, has this compact text, and holds no document.
fn part_is_copied(doc: &Rc<Doc>, alloc: Global) -> bool {
    let copy = or_null(View::packed(doc.view()).at(0_usize).to_value(alloc));
    let alone = copy.place().is_none() && Rc::strong_count(doc) == 1;
    is_shown(alloc, &copy, "[2.50,\"x\"]") && alone
}

// What is seen of a value.
#[derive(Clone, Copy)]
enum See {
    Two,
    One,
}

impl Call for See {
    fn is_right(self, value: &mut Value, _alloc: Global) -> bool {
        match self {
            See::Two => elements(value.view().as_array()) == Some((2, false)),
            See::One => has_one(value),
        }
    }
}

const ROWS: &[Look<See>] = &[
    ("elements are counted", "[1,null]", See::Two),
    ("members are counted", "{\"k\":true}", See::One),
];

// What is seen of a document.
#[derive(Clone, Copy)]
enum Packed {
    Both,
    Shared,
    Copied,
}

impl Open for Packed {
    fn is_right(self, doc: &Rc<Doc>, alloc: Global) -> bool {
        match self {
            Packed::Both => has_both(doc),
            Packed::Shared => part_is_shared(&or_null(whole(alloc, doc)), alloc, doc),
            Packed::Copied => part_is_copied(doc, alloc),
        }
    }
}

const DOCUMENTS: &[Look<Packed>] = &[
    (
        "members are seen",
        "{\"a\":[7,\"\\n\"],\"b\":-2.50e3}",
        Packed::Both,
    ),
    (
        "a packed part of a value is shared",
        "[0.5,{\"k\":[\"x\",2.50]}]",
        Packed::Shared,
    ),
    (
        "a part of a document alone is copied",
        "[[2.50,\"x\"]]",
        Packed::Copied,
    ),
];

#[test]
fn views_show(rt: HostRuntime) {
    assert_none(&rt, wrong_look(rt.alloc(), ROWS));
    assert_none(&rt, wrong_document(rt.alloc(), DOCUMENTS));
    assert!(rt; member_is_written(), "a member is written and seen");
}
