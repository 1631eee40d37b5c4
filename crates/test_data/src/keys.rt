// Keys that are texts, integers, booleans, and others.
use crate::looks::{holds, is_unwritten, is_value, is_written};
use json_text::{ErrorCode, Result};
use json_write::Serialize;
use std::alloc::Global;
use std::collections::BTreeMap;

// Whether this is written so, and the value that is made prints so.
fn is_both<T: Serialize>(alloc: Global, value: &T, text: &str) -> Result<bool> {
    Ok(is_written(alloc, value, text)? && is_value(alloc, value, text)?)
}

fn by_decimal_text(alloc: Global) -> Result<bool> {
    let mut map = BTreeMap::new(alloc);
    map.insert(2_i8, false)?;
    map.insert(-1, true)?;
    is_both(alloc, &map, "{\"-1\":true,\"2\":false}")
}

#[test]
fn integers_are_keys_by_their_decimal_text(rt: HostRuntime) {
    assert!(rt; holds(by_decimal_text(rt.alloc())));
}

fn list_is_no_key(alloc: Global) -> Result<bool> {
    let mut map = BTreeMap::new(alloc);
    map.insert(vec![in alloc; 32_u8, 64]?, 1_u8)?;
    Ok(is_unwritten(alloc, &map, ErrorCode::SerExpectKeyIsStrOrNum))
}

#[test]
fn a_list_is_no_key(rt: HostRuntime) {
    assert!(rt; holds(list_is_no_key(rt.alloc())));
}

fn content_is_a_key(alloc: Global) -> Result<bool> {
    let mut map = BTreeMap::new(alloc);
    map.insert(Some("k"), 1_u8)?;
    is_both(alloc, &map, "{\"k\":1}")
}

fn none_is_no_key(alloc: Global) -> Result<bool> {
    let mut map: BTreeMap<Option<char>, u8> = BTreeMap::new(alloc);
    map.insert(None, 1)?;
    Ok(is_unwritten(alloc, &map, ErrorCode::SerExpectKeyIsStrOrNum))
}

#[test]
fn what_is_there_is_a_key_by_its_content(rt: HostRuntime) {
    assert!(rt; holds(content_is_a_key(rt.alloc())));
    assert!(rt; holds(none_is_no_key(rt.alloc())));
}

fn booleans_are_keys(alloc: Global) -> Result<bool> {
    let mut map = BTreeMap::new(alloc);
    map.insert(true, ())?;
    map.insert(false, ())?;
    is_written(alloc, &map, "{\"false\":null,\"true\":null}")
}

fn characters_are_keys(alloc: Global) -> Result<bool> {
    let mut map = BTreeMap::new(alloc);
    map.insert('\u{e9}', 1_u128)?;
    is_value(alloc, &map, "{\"é\":1}")
}

#[test]
fn booleans_and_characters_are_keys(rt: HostRuntime) {
    assert!(rt; holds(booleans_are_keys(rt.alloc())));
    assert!(rt; holds(characters_are_keys(rt.alloc())));
}
