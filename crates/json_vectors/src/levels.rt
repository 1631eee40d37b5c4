// Edits that no words spell.
use json_print::Style;
use json_text::{Result, SliceSource, VecSink};
use json_value::{Edit, Path, Value};
use reshape::reshape;
use std::alloc::Global;

// The array of this element.
fn array_of(alloc: Global, element: Value) -> Result<Value> {
    let mut list = Vec::new(alloc);
    list.push(element)?;
    Ok(Value::from_vec(list))
}

// An array within an array, that many levels in all.
fn nested(alloc: Global, levels: usize) -> Result<Value> {
    let mut value = Value::new_array();
    for _ in 1..levels {
        value = array_of(alloc, value)?;
    }
    Ok(value)
}

// The one edit that sets the root to such an array.
fn edits_of(alloc: Global, levels: usize) -> Result<Vec<Edit>> {
    let (path, value) = (Path::new(alloc), nested(alloc, levels)?);
    let mut edits = Vec::new(alloc);
    edits.push(Edit::Set { path, value })?;
    Ok(edits)
}

// The compact text of what one edit makes of null.
fn edited(alloc: Global, edits: &[Edit]) -> Result<Vec<u8>> {
    let mut source = SliceSource::new(b"null");
    let mut sink = VecSink::new(alloc);
    match Style::new(None, false) {
        Some(compact) if edits.len() == 1 => {
            reshape(alloc, &mut source, &mut sink, edits, compact)?;
        }
        _ => {}
    }
    Ok(sink.into_vec())
}

// Whether the bytes are `levels` opening brackets and as many closing ones.
fn are_brackets(bytes: &[u8], levels: usize) -> bool {
    let opened = bytes.iter().take(levels).all(|byte| *byte == b'[');
    let closed = bytes.iter().skip(levels).all(|byte| *byte == b']');
    opened && closed && bytes.len() == levels.saturating_mul(2)
}

fn prints_levels(alloc: Global, levels: usize) -> Result<bool> {
    let edits = edits_of(alloc, levels)?;
    let output = edited(alloc, edits.as_slice())?;
    Ok(are_brackets(output.as_slice(), levels))
}

#[test]
fn a_value_of_more_levels_than_are_read(rt: HostRuntime) {
    assert!(rt; matches!(prints_levels(rt.alloc(), 300), Ok(true)));
}
