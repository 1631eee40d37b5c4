// What is read of texts and sources, and what is refused.
use crate::looks::{Row, code_of, each_holds, holds, is_pretty, is_refused, read};
use json_data::{
    Deserialize, IgnoredAny, from_reader, from_slice, from_slice_unchecked, from_slice_with,
};
use json_number::RawNumber;
use json_text::ErrorCode::{
    DuplicateKey, EofWhileParsing, ExpectedNumericKey, InvalidJsonValue, NumberOutOfRange,
    TrailingCharacters, TypeUnmatched,
};
use json_text::{ErrorCode, FakeSource, Place, Result, Rules, SliceSource};
use std::alloc::Global;
use std::borrow::CowStr;
use std::collections::BTreeMap;
use test_samples::nested::Nested;
use test_samples::person::Person;

// Whether a text is refused as a value of the type, at this offset.
fn refuses<'a, T: Deserialize<'a> + Drop>(
    alloc: Global,
    text: &'a str,
    code: ErrorCode,
    offset: usize,
) -> bool {
    is_refused(read::<T>(alloc, text), code, offset)
}

fn scalars_are_refused(alloc: Global) -> bool {
    refuses::<u8>(alloc, "256", NumberOutOfRange, 0)
        && refuses::<u8>(alloc, "1.0", TypeUnmatched, 0)
        && refuses::<i8>(alloc, " -0", TypeUnmatched, 1)
        && refuses::<bool>(alloc, "{\"a\":[1,}", InvalidJsonValue, 8)
        && refuses::<char>(alloc, "\"ab\"", TypeUnmatched, 0)
}

fn others_are_refused(alloc: Global) -> bool {
    refuses::<(u8, u8)>(alloc, "[1]", TypeUnmatched, 0)
        && refuses::<IgnoredAny>(alloc, "-1e-1.111", TrailingCharacters, 5)
}

#[test]
fn refusals_with_their_places(rt: HostRuntime) {
    assert!(rt; scalars_are_refused(rt.alloc()));
    assert!(rt; others_are_refused(rt.alloc()));
}

type Flags = BTreeMap<u8, bool>;

// A text of flags by their numbers, and the code of what is refused.
struct FlagKey {
    json: &'static str,
    code: Option<ErrorCode>,
}

impl Row for FlagKey {
    fn text(&self) -> &'static str {
        self.json
    }

    fn holds(&self, alloc: Global) -> bool {
        code_of(read::<Flags>(alloc, self.json)) == self.code
    }
}

const KEYS: &[FlagKey] = &[
    FlagKey {
        json: "{\"1x\":true}",
        code: Some(ExpectedNumericKey),
    },
    FlagKey {
        json: "{\"300\":true}",
        code: Some(NumberOutOfRange),
    },
    FlagKey {
        json: "{\"1.5\":true}",
        code: Some(TypeUnmatched),
    },
    FlagKey {
        json: "{\"7\":true}",
        code: None,
    },
];

#[test]
fn keys_of_maps(rt: HostRuntime) {
    each_holds(&rt, rt.alloc(), KEYS);
    let text = "{\"x\":256,\"y\":";
    assert!(rt; refuses::<BTreeMap<String, u8>>(rt.alloc(), text, EofWhileParsing, 13));
}

fn literal_is_read(alloc: Global) -> Result<bool> {
    Ok(read::<RawNumber>(alloc, "\"0.123\"")?.as_str() == "0.123")
}

// What a source is read as by a room.
fn read_source<'a, 'b, T: Deserialize<'a> + Drop>(
    alloc: Global,
    bytes: &'b [u8],
    room: &'a mut Vec<u8>,
) -> Result<T> {
    let mut source = SliceSource::new(bytes);
    from_reader::<SliceSource, T>(alloc, &mut source, room)
}

fn number_of_source(alloc: Global) -> Result<bool> {
    let mut room = Vec::new(alloc);
    Ok(read_source::<u8>(alloc, b" 7", &mut room)? == 7)
}

// A room that holds something.
fn filled(alloc: Global) -> Result<Vec<u8>> {
    let mut room = Vec::new(alloc);
    room.extend_from_slice(b"kept")?;
    Ok(room)
}

// Whether a source fails at its second read.
fn source_fails(alloc: Global, room: &mut Vec<u8>) -> bool {
    let mut source = FakeSource::new(b"[1, 2]", 3, &[1]);
    match from_reader::<FakeSource, IgnoredAny>(alloc, &mut source, room) {
        Ok(_) => false,
        Err(error) => error.code == ErrorCode::Io && error.place == Place::Reading,
    }
}

// Whether a source that fails at its second read leaves the room as it was.
fn room_is_kept(alloc: Global) -> Result<bool> {
    let mut room = filled(alloc)?;
    Ok(source_fails(alloc, &mut room) && room.as_slice() == b"kept".as_slice())
}

// Whether a room that held something holds exactly what was read.
fn room_is_filled(alloc: Global) -> Result<bool> {
    let mut room = filled(alloc)?;
    let read = read_source::<u8>(alloc, b" 7", &mut room).is_ok();
    Ok(read && room.as_slice() == b" 7".as_slice())
}

// Whether the room holds the text that is refused, in place of what it held.
fn room_holds_a_refused_text(alloc: Global) -> Result<bool> {
    let mut room = filled(alloc)?;
    let refused = read_source::<IgnoredAny>(alloc, b"[1,", &mut room).is_err();
    Ok(refused && room.as_slice() == b"[1,".as_slice())
}

#[test]
fn a_room_that_held_something(rt: HostRuntime) {
    let alloc = rt.alloc();
    assert!(rt; holds(room_is_kept(alloc)));
    assert!(rt; holds(room_is_filled(alloc)));
    assert!(rt; holds(room_holds_a_refused_text(alloc)));
}

// Whether the text is lent where it has no escape, and copied where it has one.
fn is_lent(alloc: Global, text: &str) -> bool {
    match read::<CowStr>(alloc, text) {
        Ok(text) => matches!(&text, CowStr::Borrowed(_)),
        Err(_) => false,
    }
}

#[test]
fn texts_without_an_escape_are_lent(rt: HostRuntime) {
    let alloc = rt.alloc();
    assert!(rt; is_lent(alloc, "\"a\""));
    assert!(rt; is_lent(alloc, " \"\u{e9}\""));
    assert!(rt; !is_lent(alloc, "\"\\n\""));
}

// Whether a name that repeats is refused by the rules.
fn rules_refuse(alloc: Global) -> bool {
    match Rules::new(1, true) {
        Some(rules) => {
            let read = from_slice_with::<IgnoredAny>(alloc, b"{\"a\":1,\"a\":2}", rules);
            is_refused(read, DuplicateKey, 7)
        }
        None => false,
    }
}

fn slices_are_read(alloc: Global) -> bool {
    matches!(from_slice_unchecked::<u8>(alloc, b"7"), Ok(7))
        && matches!(from_slice::<u8>(alloc, b"7"), Ok(7))
}

fn character_is_read(alloc: Global) -> bool {
    matches!(read::<char>(alloc, "\"\\u00e9\""), Ok('\u{e9}'))
}

#[test]
fn values_of_other_calls(rt: HostRuntime) {
    let alloc = rt.alloc();
    assert!(rt; holds(literal_is_read(alloc)));
    assert!(rt; character_is_read(alloc));
    assert!(rt; slices_are_read(alloc));
    assert!(rt; rules_refuse(alloc));
    assert!(rt; holds(number_of_source(alloc)));
}

fn is_xiaoming(person: &Person) -> bool {
    person.name.as_str() == "Xiaoming" && person.age == 18 && person.phones.len() == 1
}

fn person_is_read(alloc: Global, text: &str) -> Result<bool> {
    Ok(is_xiaoming(&read::<Person>(alloc, text)?))
}

#[test]
fn a_person_with_members_in_any_order(rt: HostRuntime) {
    let alloc = rt.alloc();
    let text = "{\"age\": 18, \"x\": [{}], \"phones\": [\"+123456\"], \"name\": \"Xiaoming\"}";
    assert!(rt; holds(person_is_read(alloc, text)));
    assert!(rt; refuses::<Person>(alloc, "{\"age\": 18}", TypeUnmatched, 0));
    assert!(rt; refuses::<Person>(alloc, "{\"age\": 256, \"name\": 1}", NumberOutOfRange, 0));
}

fn person_is_printed(alloc: Global, text: &str) -> Result<bool> {
    is_pretty(alloc, &read::<Person>(alloc, text)?, text)
}

#[test]
fn a_person_is_printed_as_it_was_read(rt: HostRuntime) {
    let text =
        "{\n  \"name\": \"Xiaoming\",\n  \"age\": 18,\n  \"phones\": [\n    \"+123456\"\n  ]\n}";
    assert!(rt; holds(person_is_printed(rt.alloc(), text)));
}

// How many elements a list has; of a number none is returned.
fn elements(nested: &Nested) -> Option<usize> {
    match nested {
        Nested::List(all) => Some(all.len()),
        Nested::Number(_) => None,
    }
}

fn elements_read(alloc: Global, text: &str) -> Result<Option<usize>> {
    Ok(elements(&read::<Nested>(alloc, text)?))
}

#[test]
fn lists_within_lists(rt: HostRuntime) {
    let alloc = rt.alloc();
    assert!(rt; matches!(elements_read(alloc, "[1,[2,[]],3]"), Ok(Some(3))));
    assert!(rt; refuses::<Nested>(alloc, "[1,[2,true],256]", TypeUnmatched, 0));
}

// How many elements are read, if a list is.
fn elements_of<'a, T: Deserialize<'a> + Drop>(alloc: Global, text: &'a str) -> Option<usize> {
    match read::<Vec<T>>(alloc, text) {
        Ok(all) => Some(all.len()),
        Err(_) => None,
    }
}

#[test]
fn lists_of_containers(rt: HostRuntime) {
    let alloc = rt.alloc();
    assert!(rt; elements_of::<Vec<u8>>(alloc, "[[1,2],[], [3]]") == Some(3));
    assert!(rt; elements_of::<(u8, String)>(alloc, "[[1,\"a\"],[2 , \"\\n\"]]") == Some(2));
    assert!(rt; elements_of::<BTreeMap<String, u8>>(alloc, "[{}, {\"a\":1,\"b\":2}]") == Some(2));
    assert!(rt; elements_of::<Option<Vec<u8>>>(alloc, "[null,[1],null]") == Some(3));
    assert!(rt; elements_of::<Person>(alloc, "[{\"name\":\"a\",\"age\":1}]") == Some(1));
}

fn pairs_are_refused(alloc: Global) -> bool {
    refuses::<Vec<(u8, u8)>>(alloc, "[[1,2],[3,4,5]]", TypeUnmatched, 0)
        && refuses::<Vec<(u8, u8)>>(alloc, "[[1,2],[3],[4,}]", InvalidJsonValue, 14)
}

#[test]
fn containers_that_are_refused_within_lists(rt: HostRuntime) {
    let alloc = rt.alloc();
    assert!(rt; refuses::<Vec<Vec<u8>>>(alloc, " [[1],null]", TypeUnmatched, 1));
    assert!(rt; pairs_are_refused(alloc));
    let past = "[{\"a\":256},{}]";
    assert!(rt; refuses::<Vec<BTreeMap<String, u8>>>(alloc, past, NumberOutOfRange, 0));
    assert!(rt; refuses::<Vec<Person>>(alloc, "[{\"age\":1}]", TypeUnmatched, 0));
}

// A text of no list of triples, and the code and the offset with which it is refused.
struct NoTriples {
    json: &'static str,
    code: ErrorCode,
    offset: usize,
}

impl Row for NoTriples {
    fn text(&self) -> &'static str {
        self.json
    }

    fn holds(&self, alloc: Global) -> bool {
        let triples = read::<Vec<(u8, u8, u8)>>(alloc, self.json);
        is_refused(triples, self.code, self.offset)
    }
}

const NO_TRIPLES: &[NoTriples] = &[
    NoTriples {
        json: "[[1,2,3],[4,5]]",
        code: TypeUnmatched,
        offset: 0,
    },
    NoTriples {
        json: " [[1,2,3],[4,5,6,7]]",
        code: TypeUnmatched,
        offset: 1,
    },
    NoTriples {
        json: "[[1,2,3],[4,5,256]]",
        code: NumberOutOfRange,
        offset: 0,
    },
    NoTriples {
        json: "[[1,2,300],[4]]",
        code: NumberOutOfRange,
        offset: 0,
    },
    NoTriples {
        json: "[[1,true,300]]",
        code: TypeUnmatched,
        offset: 0,
    },
    NoTriples {
        json: "[[1,2],[4,}]",
        code: InvalidJsonValue,
        offset: 10,
    },
    NoTriples {
        json: "[[1,2,3,4,}]",
        code: InvalidJsonValue,
        offset: 10,
    },
    NoTriples {
        json: "[[1,true,x]]",
        code: InvalidJsonValue,
        offset: 9,
    },
    NoTriples {
        json: "[[1,2,3],[4,5",
        code: EofWhileParsing,
        offset: 13,
    },
];

#[test]
fn triples_that_are_refused(rt: HostRuntime) {
    each_holds(&rt, rt.alloc(), NO_TRIPLES);
}

// What is read at the key `é`.
fn at_accent(alloc: Global, text: &str) -> Result<Option<u8>> {
    let map = read::<BTreeMap<char, u8>>(alloc, text)?;
    match map.get(&'\u{e9}') {
        Some(number) => Ok(Some(*number)),
        None => Ok(None),
    }
}

#[test]
fn characters_as_keys(rt: HostRuntime) {
    let alloc = rt.alloc();
    assert!(rt; matches!(at_accent(alloc, "{\"\\u00e9\":1,\"a\":2}"), Ok(Some(1))));
    assert!(rt; is_refused(at_accent(alloc, "{\"ab\":1}"), TypeUnmatched, 0));
}
