// What documents hold, and what views show of them.
use crate::looks::{Row, each_holds, is_refused};
use json_doc::{
    Cell, Doc, DocChildren, DocNode, DocView, DocumentRoom, DocumentVisitor, JsonType, JsonVisitor,
    read_document, read_front,
};
use json_number::Number;
use json_text::{Error, ErrorCode, Parser, Place, Result, Rules};
use std::alloc::Global;
use std::rc::Rc;
use std::test::Fail;

// The document of a text of fewer than 1000 bytes; a longer one is `TooLarge`.
fn read(alloc: Global, text: &str) -> Result<Rc<Doc>> {
    if text.len() < 1000 {
        read_document(alloc, text)
    } else {
        Err(Error {
            code: ErrorCode::TooLarge,
            place: Place::None,
        })
    }
}

// A text, and the cells and the text of its document.
struct Cells {
    json: &'static str,
    cells: &'static [Cell],
    text: &'static str,
}

fn has_cells(doc: &Doc, row: &Cells) -> bool {
    doc.cells() == row.cells && doc.text() == row.text && doc.root() == 0
}

impl Row for Cells {
    fn text(&self) -> &'static str {
        self.json
    }

    fn holds(&self, alloc: Global) -> bool {
        match read(alloc, self.json) {
            Ok(doc) => has_cells(&doc, self),
            Err(_) => false,
        }
    }
}

const CELLS: &[Cells] = &[
    Cells {
        json: "[]",
        cells: &[Cell::Array { link: 1, len: 0 }],
        text: "",
    },
    Cells {
        json: " \"\\u00e9\\n\" ",
        cells: &[Cell::Str { start: 0, len: 3 }],
        text: "é\n",
    },
    Cells {
        json: "[[1],[\"x\"],2]",
        cells: &[
            Cell::Array { link: 6, len: 3 },
            Cell::Array { link: 3, len: 1 },
            Cell::Unsigned(1),
            Cell::Array { link: 5, len: 1 },
            Cell::Str { start: 0, len: 1 },
            Cell::Unsigned(2),
        ],
        text: "x",
    },
    Cells {
        json: "{\"a\":[12,[null]],\"b\":{},\"a\":true}",
        cells: &[
            Cell::Object { link: 10, len: 3 },
            Cell::Str { start: 0, len: 1 },
            Cell::Array { link: 6, len: 2 },
            Cell::Unsigned(12),
            Cell::Array { link: 6, len: 1 },
            Cell::Null,
            Cell::Str { start: 1, len: 1 },
            Cell::Object { link: 8, len: 0 },
            Cell::Str { start: 2, len: 1 },
            Cell::Bool(true),
        ],
        text: "aba",
    },
];

#[test]
fn cells_and_text(rt: HostRuntime) {
    each_holds(&rt, rt.alloc(), CELLS);
}

const INTEGERS: &[Cells] = &[Cells {
    json: "[-0,1.0,18446744073709551615,-9223372036854775808,-9223372036854775809,18446744073709551616]",
    cells: &[
        Cell::Array { link: 7, len: 6 },
        Cell::Raw { start: 0, len: 2 },
        Cell::Raw { start: 2, len: 3 },
        Cell::Unsigned(u64::MAX),
        Cell::Negative(i64::MIN),
        Cell::Raw { start: 5, len: 20 },
        Cell::Raw { start: 25, len: 20 },
    ],
    text: "-01.0-922337203685477580918446744073709551616",
}];

#[test]
fn integers_by_value(rt: HostRuntime) {
    each_holds(&rt, rt.alloc(), INTEGERS);
}

// A text with a fault past the room that is made first, and where it is.
struct PastRoom {
    json: &'static str,
    code: ErrorCode,
    offset: usize,
    column: usize,
}

impl Row for PastRoom {
    fn text(&self) -> &'static str {
        self.json
    }

    fn holds(&self, alloc: Global) -> bool {
        let place = Place::At {
            offset: self.offset,
            line: 1,
            column: self.column,
        };
        match read(alloc, self.json) {
            Ok(_) => false,
            Err(error) => error.code == self.code && error.place == place,
        }
    }
}

const PAST_ROOM: &[PastRoom] = &[
    PastRoom {
        json: "[[[[",
        code: ErrorCode::EofWhileParsing,
        offset: 4,
        column: 5,
    },
    PastRoom {
        json: "[[[[[[[[[}",
        code: ErrorCode::InvalidJsonValue,
        offset: 9,
        column: 10,
    },
];

#[test]
fn faults_past_the_room(rt: HostRuntime) {
    each_holds(&rt, rt.alloc(), PAST_ROOM);
}

// A text, and how many cells and which text its document has.
struct Size {
    json: &'static str,
    cells: usize,
    text: &'static str,
}

fn has_size(doc: &Doc, row: &Size) -> bool {
    doc.cells().len() == row.cells && doc.text() == row.text && doc.root() == 0
}

// Whether a room reads a text as a document of its size.
fn is_read(room: &mut DocumentRoom, row: &Size) -> bool {
    if row.json.len() > 1000 {
        return false;
    }
    match room.read(row.json, Rules::usual()) {
        Ok(doc) => has_size(doc, row),
        Err(_) => false,
    }
}

// Whether one room reads them all.
fn are_read(room: &mut DocumentRoom, rows: &[Size]) -> bool {
    for row in rows {
        if !is_read(room, row) {
            return false;
        }
    }
    true
}

const SIZES: &[Size] = &[
    Size {
        json: "[1, 2]",
        cells: 3,
        text: "",
    },
    Size {
        json: "[\"a longer text\", \"\\u00e9\", 1.50]",
        cells: 4,
        text: "a longer texté1.50",
    },
    Size {
        json: "{\"k\": null}",
        cells: 3,
        text: "k",
    },
    Size {
        json: "\"x\"",
        cells: 1,
        text: "x",
    },
];

fn one_room_reads(alloc: Global) -> bool {
    let mut room = DocumentRoom::new(alloc);
    are_read(&mut room, SIZES)
}

#[test]
fn one_room_for_documents_of_other_sizes(rt: HostRuntime) {
    assert!(rt; one_room_reads(rt.alloc()));
}

const BEFORE: &[Size] = &[Size {
    json: "[1, 2, 3]",
    cells: 4,
    text: "",
}];

const AFTER: &[Size] = &[Size {
    json: "[[]]",
    cells: 2,
    text: "",
}];

// Whether a room refuses a text at its fourth byte.
fn room_refuses(room: &mut DocumentRoom) -> bool {
    is_refused(
        room.read("[1,]", Rules::usual()),
        ErrorCode::InvalidJsonValue,
        3,
    )
}

// Whether a room reads on after a text that is refused.
fn room_serves_after_a_fault(room: &mut DocumentRoom) -> bool {
    are_read(room, BEFORE) && room_refuses(room) && are_read(room, AFTER)
}

#[test]
fn room_after_a_refused_text(rt: HostRuntime) {
    assert!(rt; room_serves_after_a_fault(&mut DocumentRoom::new(rt.alloc())));
}

#[test]
fn third_start_is_refused(rt: HostRuntime) -> std::result::Result<(), Fail> {
    let mut visitor = DocumentVisitor::new(rt.alloc(), 4)?;
    assert!(rt; visitor.visit_array_start());
    assert!(rt; visitor.visit_array_start());
    assert!(rt; !visitor.visit_array_start());
    assert!(rt; !visitor.visit_array_end());
    Ok(())
}

const MEMBERS: &str = "{\"a\":[12,[null]],\"b\":{},\"a\":true}";

fn shows_members(root: &DocView) -> bool {
    root.get_type() == JsonType::Object
        && root.len() == 3
        && (root.key(0), root.key(1), root.key(3)) == (Some("a"), Some("b"), None)
        && root.element(0).is_none()
        && root.pair_value(3).is_none()
}

fn is_twelve(number: &DocView) -> bool {
    number.as_number() == Some(Number::from(12_u64))
        && number.literal().is_none()
        && number.text().is_none()
}

fn is_list(list: &DocView) -> bool {
    list.get_type() == JsonType::Array && list.len() == 2 && list.key(0).is_none()
}

fn shows_list(root: &DocView) -> bool {
    match root.pair_value(0) {
        Some(list) => match list.element(0) {
            Some(number) => is_list(&list) && is_twelve(&number),
            None => false,
        },
        None => false,
    }
}

fn shows_last(root: &DocView) -> bool {
    match root.pair_value(2) {
        Some(last) => {
            last.as_bool() == Some(true) && last.place() == 9 && last.doc().root() == 0
        }
        None => false,
    }
}

// Whether the children have these types and places.
fn children_are(children: DocChildren<'_>, wanted: &[(JsonType, u32)]) -> bool {
    let mut rest = wanted;
    for child in children {
        match rest.split_first() {
            Some((first, others)) => {
                if (child.get_type(), child.place()) != *first {
                    return false;
                }
                rest = others;
            }
            None => return false,
        }
    }
    rest.is_empty()
}

fn shows_children(root: &DocView) -> bool {
    let wanted = [
        (JsonType::Array, 2),
        (JsonType::Object, 7),
        (JsonType::Boolean, 9),
    ];
    children_are(root.children(), &wanted)
}

fn shows_all(root: &DocView) -> bool {
    shows_members(root) && shows_list(root) && shows_last(root) && shows_children(root)
}

fn views_show(alloc: Global) -> bool {
    match read(alloc, MEMBERS) {
        Ok(doc) => shows_all(&doc.view()),
        Err(_) => false,
    }
}

#[test]
fn views(rt: HostRuntime) {
    assert!(rt; views_show(rt.alloc()));
    assert!(rt; JsonType::from_u8(4) == Some(JsonType::Object));
    assert!(rt; JsonType::from_u8(6).is_none());
}

fn is_second_key(key: &DocView) -> bool {
    key.text() == Some("b") && key.get_type() == JsonType::String && key.place() == 6
}

fn shows_keys(root: &DocView) -> bool {
    match (root.key_view(1), root.pair_value(0)) {
        (Some(second), Some(list)) => {
            is_second_key(&second) && root.key_view(3).is_none() && list.key_view(0).is_none()
        }
        _ => false,
    }
}

fn key_views_show(alloc: Global) -> bool {
    match read(alloc, MEMBERS) {
        Ok(doc) => shows_keys(&doc.view()),
        Err(_) => false,
    }
}

#[test]
fn key_views(rt: HostRuntime) {
    assert!(rt; key_views_show(rt.alloc()));
}

type Scalar<'a> = (JsonType, Option<bool>, Option<Number>, Option<&'a str>);

// The kind of a node, and what it holds where it is a scalar.
fn scalar<'a>(node: DocNode<'a>) -> Scalar<'a> {
    match node {
        DocNode::Null => (JsonType::Null, None, None, None),
        DocNode::Boolean(b) => (JsonType::Boolean, Some(b), None, None),
        DocNode::Number(number) => (JsonType::Number, None, Some(number), None),
        DocNode::Raw(literal) => (JsonType::Number, None, None, Some(literal)),
        DocNode::String(text) => (JsonType::String, None, None, Some(text)),
        DocNode::Array(_) => (JsonType::Array, None, None, None),
        DocNode::Object(_) => (JsonType::Object, None, None, None),
    }
}

fn nodes_show(alloc: Global) -> Result<bool> {
    let doc = read(
        alloc,
        "{\"n\":null,\"b\":true,\"1\":12,\"e\":1e2,\"s\":\"x\",\"l\":[7,[]],\"o\":{}}",
    )?;
    let DocNode::Object(pairs) = doc.view().node() else {
        return Ok(false);
    };
    let mut keys = Vec::new(alloc);
    let mut scalars = Vec::new(alloc);
    for (key, value) in pairs {
        keys.push(key)?;
        scalars.push(scalar(value.node()))?;
    }
    let wanted = [
        (JsonType::Null, None, None, None),
        (JsonType::Boolean, Some(true), None, None),
        (JsonType::Number, None, Some(Number::from(12_u64)), None),
        (JsonType::Number, None, None, Some("1e2")),
        (JsonType::String, None, None, Some("x")),
        (JsonType::Array, None, None, None),
        (JsonType::Object, None, None, None),
    ];
    Ok(
        keys.as_slice() == ["n", "b", "1", "e", "s", "l", "o"].as_slice()
            && scalars.as_slice() == wanted.as_slice(),
    )
}

#[test]
fn nodes(rt: HostRuntime) {
    assert!(rt; matches!(nodes_show(rt.alloc()), Ok(true)));
}

fn shows_elements(root: &DocView) -> bool {
    let wanted = [
        (JsonType::Number, 1),
        (JsonType::Array, 2),
        (JsonType::String, 4),
    ];
    match root.node() {
        DocNode::Array(elements) => children_are(elements, &wanted),
        _ => false,
    }
}

fn elements_have_their_places(alloc: Global) -> bool {
    match read(alloc, "[7,[null],\"x\"]") {
        Ok(doc) => shows_elements(&doc.view()),
        Err(_) => false,
    }
}

#[test]
fn elements_of_a_node(rt: HostRuntime) {
    assert!(rt; elements_have_their_places(rt.alloc()));
}

fn front_is_read(alloc: Global) -> bool {
    let mut parser = Parser::new("[1]x");
    match read_front(alloc, &mut parser) {
        Ok(doc) => doc.cells().len() == 2 && parser.index() == 3,
        Err(_) => false,
    }
}

#[test]
fn the_front_of_a_text(rt: HostRuntime) {
    assert!(rt; front_is_read(rt.alloc()));
}
