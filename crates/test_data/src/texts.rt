// What the types of Rust are written as.
use crate::looks::{holds, is_no_value, is_pretty, is_string, is_value, is_written};
use json_number::{Number, RawNumber};
use json_print::BufferedWriter;
use json_text::{ErrorCode, Result, Sink, VecSink, flush_all};
use json_write::{
    Serialize, to_string, to_string_pretty, to_vec, to_vec_pretty, to_writer, to_writer_pretty,
};
use std::alloc::Global;
use std::borrow::CowStr;
use std::collections::BTreeMap;
use test_samples::hinted::{Overstated, Understated};
use test_samples::tagged::Tagged;

fn unsigned_are_written(alloc: Global) -> Result<bool> {
    let all = (1_u8, (2_u16, (3_u32, (4_u64, (5_u128, 6_usize)))));
    is_written(alloc, &all, "[1,[2,[3,[4,[5,6]]]]]")
}

fn signed_are_made(alloc: Global) -> Result<bool> {
    let all = (-1_i8, (-2_i16, (-3_i32, (-4_i64, (-5_i128, -6_isize)))));
    is_value(alloc, &all, "[-1,[-2,[-3,[-4,[-5,-6]]]]]")
}

fn numbers_are_made(alloc: Global) -> Result<bool> {
    let both = (Number::from(7_u64), Number::from(-7_i64));
    is_value(alloc, &both, "[7,-7]")
}

#[test]
fn integers_of_each_type(rt: HostRuntime) {
    assert!(rt; holds(unsigned_are_written(rt.alloc())));
    assert!(rt; holds(signed_are_made(rt.alloc())));
    assert!(rt; holds(numbers_are_made(rt.alloc())));
}

const PAST: &str = "18446744073709551616";

fn literal_is_made(alloc: Global) -> Result<bool> {
    is_value(alloc, &RawNumber::new(alloc, PAST)?, PAST)
}

#[test]
fn integers_past_u64(rt: HostRuntime) {
    let alloc = rt.alloc();
    let large = 18446744073709551616_u128;
    assert!(rt; holds(is_written(alloc, &large, PAST)));
    assert!(rt; is_no_value(alloc, &large, ErrorCode::NumberOutOfRange));
    assert!(rt; holds(literal_is_made(alloc)));
}

fn texts_are_written(alloc: Global) -> Result<bool> {
    let owned = CowStr::Borrowed("a\"b");
    let all = ('\u{e9}', (owned, ("c", Some(()))));
    is_written(alloc, &all, "[\"é\",[\"a\\\"b\",[\"c\",null]]]")
}

fn string_is_written(alloc: Global) -> Result<bool> {
    let string = to_string(alloc, &false)?;
    is_written(alloc, &&string, "\"false\"")
}

#[test]
fn texts_and_nulls(rt: HostRuntime) {
    let alloc = rt.alloc();
    assert!(rt; holds(texts_are_written(alloc)));
    assert!(rt; holds(is_value(alloc, &(true, None::<u8>), "[true,null]")));
    assert!(rt; holds(string_is_written(alloc)));
}

// Whether this text is written by each call that indents.
fn is_indented<T: Serialize>(alloc: Global, value: &T, text: &str) -> Result<bool> {
    let mut sink = VecSink::new(alloc);
    to_writer_pretty(alloc, &mut sink, value)?;
    Ok(
        sink.as_slice() == text.as_bytes()
            && to_vec_pretty(alloc, value)?.as_slice() == text.as_bytes()
            && to_string_pretty(alloc, value)?.as_str() == text,
    )
}

fn no_elements(alloc: Global) -> Result<bool> {
    let list: Vec<u8> = Vec::new(alloc);
    is_indented(alloc, &list, "[]")
}

fn one_element(alloc: Global) -> Result<bool> {
    let mut list = Vec::new(alloc);
    list.push(1_u8)?;
    Ok(is_string(alloc, &list, "[1]")? && is_string(alloc, &list.as_slice(), "[1]")?)
}

#[test]
fn lists_without_and_with_elements(rt: HostRuntime) {
    assert!(rt; holds(no_elements(rt.alloc())));
    assert!(rt; holds(one_element(rt.alloc())));
}

// Whether this is written so, and so with a layout.
fn is_laid_out<T: Serialize>(alloc: Global, value: &T, text: &str, pretty: &str) -> Result<bool> {
    Ok(is_written(alloc, value, text)? && is_pretty(alloc, value, pretty)?)
}

#[test]
fn hints_change_nothing(rt: HostRuntime) {
    let alloc = rt.alloc();
    assert!(rt; holds(is_laid_out(alloc, &Understated { n: 7 }, "[7]", "[\n  7\n]")));
    assert!(rt; holds(is_laid_out(alloc, &Overstated, "[]", "[]")));
}

fn tags_are_written(alloc: Global) -> Result<bool> {
    let tags = vec![in alloc; "a", "b"]?;
    let ada = Tagged { name: "Ada", tags };
    let text = "{\"name\":\"Ada\",\"tags\":[\"a\",\"b\"]}";
    Ok(is_written(alloc, &ada, text)? && is_value(alloc, &ada, text)?)
}

#[test]
fn a_struct_with_a_list(rt: HostRuntime) {
    assert!(rt; holds(tags_are_written(rt.alloc())));
}

// What is written into a sink through a buffer that is flushed.
fn buffered<T: Serialize>(alloc: Global, value: &T) -> Result<VecSink> {
    let mut writer = BufferedWriter::new(alloc, VecSink::new(alloc))?;
    to_writer(alloc, &mut writer, value)?;
    flush_all(&mut writer)?;
    Ok(writer.into_inner())
}

fn is_buffered<T: Serialize>(alloc: Global, value: &T, text: &str) -> Result<bool> {
    let sink = buffered(alloc, value)?;
    let bytes = to_vec(alloc, value)?;
    Ok(sink.as_slice() == bytes.as_slice() && sink.as_slice() == text.as_bytes())
}

fn map_is_buffered(alloc: Global) -> Result<bool> {
    let mut map = BTreeMap::new(alloc);
    map.insert("hello", "world")?;
    map.insert("this_is_considered", "fast")?;
    is_buffered(
        alloc,
        &map,
        "{\"hello\":\"world\",\"this_is_considered\":\"fast\"}",
    )
}

#[test]
fn through_a_buffer_that_is_flushed(rt: HostRuntime) {
    assert!(rt; holds(map_is_buffered(rt.alloc())));
}
