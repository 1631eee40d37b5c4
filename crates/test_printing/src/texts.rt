// What no clause says: that calls with ample memory succeed, and the texts of one small tree.
ghost use Rattle.std.specs.Prelude.{◌≡◌, [], ◌∷◌, OnOk};
ghost use Rattle.json_grammar.specs.TokenStates.{a_value, state_in};
ghost use Rattle.json_grammar.specs.declared.Kind.TheVariants.{Array as array, Object as object};
ghost use Rattle.json_print.specs.Printer.{IsFresh};
ghost use Rattle.json_print.specs.Serializing.{out_of};
ghost use Rattle.json_print.specs.ExpectedEvents.{AwaitsTree, AwaitsMember};

use json_print::{
    BufferedWriter, CompactFormatter, Events, Formatter, PrettyFormatter, Serializer, Style,
    WriteBuffer,
};
use json_text::{ErrorCode, FakeSink, LentSink, Result, Sink, VecSink, flush_all, put_all};
use std::alloc::Global;

// Each of these gives one part, and says only what may follow it.
fn begin<E: Events>(out: &mut E, hint: Option<usize>) -> Result<()>
    requires { AwaitsTree (E.token_state (E.state out.old)) }
    ensures { OnOk result (AwaitsMember (E.token_state (E.state out.new))) }
{
    out.begin_object(hint)
}

fn end<E: Events>(out: &mut E) -> Result<()>
    requires { AwaitsMember (E.token_state (E.state out.old)) }
{
    out.end_object()
}

fn key<E: Events>(out: &mut E, key: &str) -> Result<()>
    requires { AwaitsMember (E.token_state (E.state out.old)) }
    ensures { OnOk result (E.token_state (E.state out.new) ≡ record { opened = object ∷ []; expected = a_value }) }
{
    out.key(key)
}

fn unsigned<E: Events>(out: &mut E, n: u128) -> Result<()>
    requires { E.token_state (E.state out.old) ≡ record { opened = object ∷ []; expected = a_value } }
    ensures { OnOk result (AwaitsMember (E.token_state (E.state out.new))) }
{
    out.uint(n)
}

fn begin_list<E: Events>(out: &mut E, hint: Option<usize>) -> Result<()>
    requires { E.token_state (E.state out.old) ≡ record { opened = object ∷ []; expected = a_value } }
    ensures { OnOk result (E.token_state (E.state out.new) ≡ state_in (array ∷ object ∷ [])) }
{
    out.begin_array(hint)
}

fn signed_element<E: Events>(out: &mut E, n: i128) -> Result<()>
    requires { E.token_state (E.state out.old) ≡ state_in (array ∷ object ∷ []) }
    ensures { OnOk result (E.token_state (E.state out.new) ≡ state_in (array ∷ object ∷ [])) }
{
    out.int(n)
}

fn unsigned_element<E: Events>(out: &mut E, n: u128) -> Result<()>
    requires { E.token_state (E.state out.old) ≡ state_in (array ∷ object ∷ []) }
    ensures { OnOk result (E.token_state (E.state out.new) ≡ state_in (array ∷ object ∷ [])) }
{
    out.uint(n)
}

fn boolean_element<E: Events>(out: &mut E, b: bool) -> Result<()>
    requires { E.token_state (E.state out.old) ≡ state_in (array ∷ object ∷ []) }
    ensures { OnOk result (E.token_state (E.state out.new) ≡ state_in (array ∷ object ∷ [])) }
{
    out.boolean(b)
}

fn null_element<E: Events>(out: &mut E) -> Result<()>
    requires { E.token_state (E.state out.old) ≡ state_in (array ∷ object ∷ []) }
    ensures { OnOk result (E.token_state (E.state out.new) ≡ state_in (array ∷ object ∷ [])) }
{
    out.null()
}

fn end_list<E: Events>(out: &mut E) -> Result<()>
    requires { E.token_state (E.state out.old) ≡ state_in (array ∷ object ∷ []) }
    ensures { OnOk result (AwaitsMember (E.token_state (E.state out.new))) }
{
    out.end_array()
}

fn begin_pairs<E: Events>(out: &mut E) -> Result<()>
    requires { E.token_state (E.state out.old) ≡ record { opened = object ∷ []; expected = a_value } }
    ensures { OnOk result (E.token_state (E.state out.new) ≡ state_in (object ∷ object ∷ [])) }
{
    out.begin_object(None)
}

fn inner_key<E: Events>(out: &mut E, key: &str) -> Result<()>
    requires { E.token_state (E.state out.old) ≡ state_in (object ∷ object ∷ []) }
    ensures { OnOk result (E.token_state (E.state out.new) ≡ record { opened = object ∷ object ∷ []; expected = a_value }) }
{
    out.key(key)
}

fn inner_null<E: Events>(out: &mut E) -> Result<()>
    requires { E.token_state (E.state out.old) ≡ record { opened = object ∷ object ∷ []; expected = a_value } }
    ensures { OnOk result (E.token_state (E.state out.new) ≡ state_in (object ∷ object ∷ [])) }
{
    out.null()
}

fn inner_text<E: Events>(out: &mut E, text: &str) -> Result<()>
    requires { E.token_state (E.state out.old) ≡ record { opened = object ∷ object ∷ []; expected = a_value } }
    ensures { OnOk result (E.token_state (E.state out.new) ≡ state_in (object ∷ object ∷ [])) }
{
    out.text(text)
}

fn end_pairs<E: Events>(out: &mut E) -> Result<()>
    requires { E.token_state (E.state out.old) ≡ state_in (object ∷ object ∷ []) }
    ensures { OnOk result (AwaitsMember (E.token_state (E.state out.new))) }
{
    out.end_object()
}

// `-25, 340282366920938463463374607431768211455, true`
fn elements<E: Events>(out: &mut E) -> Result<()>
    requires { E.token_state (E.state out.old) ≡ state_in (array ∷ object ∷ []) }
    ensures { OnOk result (E.token_state (E.state out.new) ≡ state_in (array ∷ object ∷ [])) }
{
    signed_element(out, -25)?;
    unsigned_element(out, u128::MAX)?;
    boolean_element(out, true)
}

// `"b": [-25, 340282366920938463463374607431768211455, true]`
fn list_member<E: Events>(out: &mut E) -> Result<()>
    requires { AwaitsMember (E.token_state (E.state out.old)) }
    ensures { OnOk result (AwaitsMember (E.token_state (E.state out.new))) }
{
    key(out, "b")?;
    begin_list(out, None)?;
    elements(out)?;
    end_list(out)
}

// `"d": null, "c": "\"\\\n\u001fé"`
fn inner_pairs<E: Events>(out: &mut E) -> Result<()>
    requires { E.token_state (E.state out.old) ≡ state_in (object ∷ object ∷ []) }
    ensures { OnOk result (E.token_state (E.state out.new) ≡ state_in (object ∷ object ∷ [])) }
{
    inner_key(out, "d")?;
    inner_null(out)?;
    inner_key(out, "c")?;
    inner_text(out, "\"\\\n\u{1f}é")
}

// `"a": {"d": null, "c": "\"\\\n\u001fé"}`
fn object_member<E: Events>(out: &mut E) -> Result<()>
    requires { AwaitsMember (E.token_state (E.state out.old)) }
    ensures { OnOk result (AwaitsMember (E.token_state (E.state out.new))) }
{
    key(out, "a")?;
    begin_pairs(out)?;
    inner_pairs(out)?;
    end_pairs(out)
}

// `"a": {}`
fn empty_object<E: Events>(out: &mut E) -> Result<()>
    requires { AwaitsMember (E.token_state (E.state out.old)) }
    ensures { OnOk result (AwaitsMember (E.token_state (E.state out.new))) }
{
    key(out, "a")?;
    begin_pairs(out)?;
    end_pairs(out)
}

// `"": []`
fn empty_list<E: Events>(out: &mut E) -> Result<()>
    requires { AwaitsMember (E.token_state (E.state out.old)) }
    ensures { OnOk result (AwaitsMember (E.token_state (E.state out.new))) }
{
    key(out, "")?;
    begin_list(out, None)?;
    end_list(out)
}

fn tree<E: Events>(out: &mut E) -> Result<()>
    requires { AwaitsTree (E.token_state (E.state out.old)) }
{
    begin(out, None)?;
    list_member(out)?;
    object_member(out)?;
    empty_object(out)?;
    empty_list(out)?;
    end(out)
}

fn integer_member<E: Events>(out: &mut E, name: &str, n: u128) -> Result<()>
    requires { AwaitsMember (E.token_state (E.state out.old)) }
    ensures { OnOk result (AwaitsMember (E.token_state (E.state out.new))) }
{
    key(out, name)?;
    unsigned(out, n)
}

// `{"b": 1, "a": 2, "c": 3}`
fn three_members<E: Events>(out: &mut E) -> Result<()>
    requires { AwaitsTree (E.token_state (E.state out.old)) }
{
    begin(out, None)?;
    integer_member(out, "b", 1)?;
    integer_member(out, "a", 2)?;
    integer_member(out, "c", 3)?;
    end(out)
}

// `"a": [null, null]`, with a hint of the length
fn two_nulls<E: Events>(out: &mut E, told: Option<usize>) -> Result<()>
    requires { AwaitsMember (E.token_state (E.state out.old)) }
    ensures { OnOk result (AwaitsMember (E.token_state (E.state out.new))) }
{
    key(out, "a")?;
    begin_list(out, told)?;
    null_element(out)?;
    null_element(out)?;
    end_list(out)
}

// `{"a": [null, null]}`, with hints of the lengths
fn two_elements<E: Events>(out: &mut E, told: Option<usize>) -> Result<()>
    requires { AwaitsTree (E.token_state (E.state out.old)) }
{
    begin(out, told)?;
    two_nulls(out, told)?;
    end(out)
}

// What is written.
#[derive(Clone, Copy)]
enum Piece {
    Tree,
    ThreeMembers,
    TwoElements(Option<usize>),
}

fn write<E: Events>(out: &mut E, piece: Piece) -> Result<()>
    requires { AwaitsTree (E.token_state (E.state out.old)) }
{
    match piece {
        Piece::Tree => tree(out),
        Piece::ThreeMembers => three_members(out),
        Piece::TwoElements(told) => two_elements(out, told),
    }
}

// Writes a piece by a serializer, and returns the writer.
fn written<W: Sink + Drop, F: Formatter + Drop>(
    mut out: Serializer<W, F>,
    piece: Piece,
) -> Result<W>
    requires { AwaitsTree (⟦<Serializer<W, F> as Events>⟧.token_state (⟦<Serializer<W, F> as Events>⟧.state out)) }
{
    write(&mut out, piece)?;
    Ok(out.into_inner())
}

fn compact(alloc: Global, piece: Piece) -> Result<VecSink> {
    written(Serializer::new(alloc, VecSink::new(alloc)), piece)
}

fn flushed(mut writer: BufferedWriter<VecSink>) -> Result<VecSink> {
    flush_all(&mut writer)?;
    Ok(writer.into_inner())
}

fn buffered(alloc: Global, piece: Piece) -> Result<VecSink> {
    let writer = BufferedWriter::new(alloc, VecSink::new(alloc))?;
    flushed(written(Serializer::new(alloc, writer), piece)?)
}

// The same with the members of each object in the order of their keys.
fn written_sorted<W: Sink + Drop, F: Formatter + Drop>(
    out: Serializer<W, F>,
    piece: Piece,
) -> Result<W>
    requires { IsFresh (out_of W.state out) }
{
    written(out.sort_map_keys(), piece)
}

fn sorted(alloc: Global, piece: Piece) -> Result<VecSink> {
    written_sorted(Serializer::new(alloc, VecSink::new(alloc)), piece)
}

fn pretty(alloc: Global, piece: Piece) -> Result<VecSink> {
    written(Serializer::pretty(alloc, VecSink::new(alloc)), piece)
}

fn sorted_with_tabs(alloc: Global, piece: Piece) -> Result<VecSink> {
    let tabs = PrettyFormatter::with_indent(b"\t");
    let out = Serializer::with_formatter(alloc, VecSink::new(alloc), tabs);
    written_sorted(out, piece)
}

// Whether this text was written.
fn is_text(written: Result<VecSink>, text: &str) -> bool {
    match written {
        Ok(sink) => sink.as_slice() == text.as_bytes(),
        Err(_) => false,
    }
}

#[test]
fn compact_text_through_a_buffer(rt: HostRuntime) {
    let text =
        "{\"b\":[-25,340282366920938463463374607431768211455,true],\"a\":{\"d\":null,\"c\":\"\\\"\\\\\\n\\u001fé\"},\"a\":{},\"\":[]}";
    assert!(rt; is_text(buffered(rt.alloc(), Piece::Tree), text));
}

fn puts<W: Sink>(writer: &mut W, bytes: &[u8]) -> bool {
    put_all(writer, bytes).is_ok() && flush_all(writer).is_ok()
}

// Writes `[]` into a sink that is lent, through a buffer, and returns whether that was done.
fn write_lent(buffer: WriteBuffer, sink: &mut VecSink) -> bool {
    let mut writer = BufferedWriter::with_buffer(buffer, LentSink::new(sink));
    let done = puts(&mut writer, b"[]");
    let _sink = writer.into_inner().into_inner();
    done
}

fn lent_is_written(alloc: Global) -> bool {
    let mut sink = VecSink::new(alloc);
    match WriteBuffer::new(alloc) {
        Ok(buffer) => write_lent(buffer, &mut sink) && sink.as_slice() == b"[]".as_slice(),
        Err(_) => false,
    }
}

#[test]
fn a_lent_sink_behind_a_buffer(rt: HostRuntime) {
    assert!(rt; lent_is_written(rt.alloc()));
}

#[test]
fn pretty_text(rt: HostRuntime) {
    let text =
        "{\n  \"b\": [\n    -25,\n    340282366920938463463374607431768211455,\n    true\n  ],\n  \"a\": {\n    \"d\": null,\n    \"c\": \"\\\"\\\\\\n\\u001fé\"\n  },\n  \"a\": {},\n  \"\": []\n}";
    assert!(rt; is_text(pretty(rt.alloc(), Piece::Tree), text));
}

#[test]
fn sorted_text_with_tabs(rt: HostRuntime) {
    let text =
        "{\n\t\"\": [],\n\t\"a\": {\n\t\t\"c\": \"\\\"\\\\\\n\\u001fé\",\n\t\t\"d\": null\n\t},\n\t\"a\": {},\n\t\"b\": [\n\t\t-25,\n\t\t340282366920938463463374607431768211455,\n\t\ttrue\n\t]\n}";
    assert!(rt; is_text(sorted_with_tabs(rt.alloc(), Piece::Tree), text));
}

#[test]
fn members_as_they_came(rt: HostRuntime) {
    let text = "{\"b\":1,\"a\":2,\"c\":3}";
    assert!(rt; is_text(compact(rt.alloc(), Piece::ThreeMembers), text));
}

#[test]
fn members_in_the_order_of_their_keys(rt: HostRuntime) {
    let text = "{\"a\":2,\"b\":1,\"c\":3}";
    assert!(rt; is_text(sorted(rt.alloc(), Piece::ThreeMembers), text));
}

const COMPACT: &str = "{\"a\":[null,null]}";

const PRETTY: &str = "{\n  \"a\": [\n    null,\n    null\n  ]\n}";

// Whether a hint of these lengths changes nothing, without a layout and with one.
fn length_changes_nothing(alloc: Global, told: usize) -> bool {
    let piece = Piece::TwoElements(Some(told));
    is_text(compact(alloc, piece), COMPACT) && is_text(pretty(alloc, piece), PRETTY)
}

fn lengths_change_nothing(alloc: Global) -> bool {
    length_changes_nothing(alloc, 0)
        && length_changes_nothing(alloc, 1)
        && length_changes_nothing(alloc, 3)
        && length_changes_nothing(alloc, usize::MAX)
}

#[test]
fn false_lengths_change_nothing(rt: HostRuntime) {
    assert!(rt; lengths_change_nothing(rt.alloc()));
}

fn sorted_length_changes_nothing(alloc: Global, told: usize) -> bool {
    is_text(sorted(alloc, Piece::TwoElements(Some(told))), COMPACT)
}

#[test]
fn lengths_of_sorted_objects_change_nothing(rt: HostRuntime) {
    assert!(rt; sorted_length_changes_nothing(rt.alloc(), 0));
    assert!(rt; sorted_length_changes_nothing(rt.alloc(), usize::MAX));
}

fn is_failed_write(answer: Result<()>) -> bool {
    match answer {
        Ok(()) => false,
        Err(error) => error.error_code() == ErrorCode::Io,
    }
}

// Whether the second part fails, and the third with the same error.
fn second_part_fails<E: Events>(out: &mut E) -> Result<bool>
    requires { AwaitsTree (E.token_state (E.state out.old)) }
{
    out.begin_array(None)?;
    let first = out.boolean(true);
    let again = out.null();
    Ok(again == first && is_failed_write(first))
}

// Whether the error of a sink that fails once is returned again, and no more is written.
fn error_comes_again(alloc: Global) -> Result<bool> {
    let mut out = Serializer::new(alloc, FakeSink::new(alloc, 2, &[1]));
    let same = second_part_fails(&mut out)?;
    Ok(same && out.into_inner().as_slice() == b"[".as_slice())
}

#[test]
fn an_error_stays(rt: HostRuntime) {
    assert!(rt; matches!(error_comes_again(rt.alloc()), Ok(true)));
}

fn write_pieces<W: Sink>(writer: &mut W) -> bool {
    let mut formatter = CompactFormatter;
    formatter.write_i8(writer, -128).is_ok()
        && formatter.write_u64(writer, u64::MAX).is_ok()
        && formatter.write_byte_array(writer, b"\x00\xff").is_ok()
        && formatter
            .write_string_fast(writer, "\t\u{7f}", false)
            .is_ok()
        && formatter.write_raw_value(writer, " ").is_ok()
}

fn pieces_are(alloc: Global, text: &str) -> bool {
    let mut writer = VecSink::new(alloc);
    write_pieces(&mut writer) && writer.as_slice() == text.as_bytes()
}

#[test]
fn single_pieces(rt: HostRuntime) {
    let text = "-12818446744073709551615[0,255]\\t\x7f ";
    assert!(rt; pieces_are(rt.alloc(), text));
}

// Whether an indent of whitespace and none are taken, and another is not.
fn styles_are_whitespace() -> bool {
    Style::new(Some(" \t\r\n"), true).is_some()
        && Style::new(Some("x"), false).is_none()
        && Style::new(None, false).is_some()
}

#[test]
fn styles(rt: HostRuntime) {
    assert!(rt; styles_are_whitespace());
}
