// The examples of README.md.
use json_doc::{JsonType, read_document};
use json_print::Serializer;
use json_text::{Result, SliceSource, VecSink, Words};
use json_value::{Edit, Path, PointerNode, Text, Value, View};
use reshape::run;
use std::alloc::Global;

// Whether the program prints the output that README.md shows.
fn is_reshaped(alloc: Global, words: &Words) -> bool {
    let mut source = SliceSource::new(b"{\"a\": 1, \"b\": 1.50}");
    let (mut sink, mut errs) = (VecSink::new(alloc), VecSink::new(alloc));
    let status = run(alloc, words, &mut source, &mut sink, &mut errs);
    status == 0 && sink.as_slice() == b"{\"a\":2,\"b\":1.50}".as_slice()
}

fn is_run(alloc: Global) -> Result<bool> {
    let mut words = Words::new(alloc);
    words.push("[[\"set\",[\"a\"],2]]")?;
    Ok(is_reshaped(alloc, &words))
}

#[test]
fn the_program(rt: HostRuntime) {
    assert!(rt; matches!(is_run(rt.alloc()), Ok(true)));
}

// Whether what is seen is what README.md says of it.
fn shows_ada(view: View<'_>) -> bool {
    let name = view.at("name").text() == Some("Ada");
    let born = view.at("born").at(1usize).literal() == Some("12.10");
    name && born && view.at("died").get_type() == JsonType::Null
}

fn is_read(alloc: Global) -> Result<bool> {
    let doc = read_document(alloc, "{\"name\": \"Ada\", \"born\": [1815, 12.10]}")?;
    Ok(shows_ada(View::packed(doc.view())))
}

#[test]
fn reading(rt: HostRuntime) {
    assert!(rt; matches!(is_read(rt.alloc()), Ok(true)));
}

// Appends true at the key `a`.
fn edit(value: &mut Value, alloc: Global) -> Result<()> {
    let mut path = Path::new(alloc);
    path.push(PointerNode::Key(Text::from_static("a")))?;
    let edit = Edit::Push {
        path,
        value: Value::new_bool(true),
    };
    value.apply(alloc, &edit)
}

fn edit_and_print(value: &mut Value, alloc: Global, json: &str) -> Result<bool> {
    edit(value, alloc)?;
    Ok(value.to_string(alloc)?.as_str() == json)
}

fn is_edited(alloc: Global) -> Result<bool> {
    let doc = read_document(alloc, "{\"a\": [1], \"b\": [2]}")?;
    let mut value = Value::from_place(alloc, &doc, doc.root())?;
    edit_and_print(&mut value, alloc, "{\"a\":[1,true],\"b\":[2]}")
}

#[test]
fn editing(rt: HostRuntime) {
    assert!(rt; matches!(is_edited(rt.alloc()), Ok(true)));
}

// The text of what is seen, in lines and in the order of the keys.
fn printed(alloc: Global, view: View<'_>) -> Result<VecSink> {
    let mut out = Serializer::pretty(alloc, VecSink::new(alloc)).sort_map_keys();
    view.emit(&mut out)?;
    Ok(out.into_inner())
}

fn is_printed(alloc: Global) -> Result<bool> {
    let doc = read_document(alloc, "{\"b\": [], \"a\": 1}")?;
    let sink = printed(alloc, View::packed(doc.view()))?;
    Ok(sink.as_slice() == b"{\n  \"a\": 1,\n  \"b\": []\n}".as_slice())
}

#[test]
fn printing(rt: HostRuntime) {
    assert!(rt; matches!(is_printed(rt.alloc()), Ok(true)));
}
