// Runs of bytes of one kind: each length before each byte of another kind, from each start.
ghost use Rattle.std.specs.Prelude.{◌+◌, ◌≤◌, length};

use crate::looks::next_of;
use json_text::{Event, Parser, check_utf8, digit_run, plain_run, ws_run};

// The greatest numbers of bytes before the other ones, and after them.
const BEFORE: usize = 100;

const BEHIND: usize = 40;

// The others are the bytes of one character, which are two at most.
const ROW: usize = BEFORE + 2 + BEHIND;

// What a reader has read before a run has two bytes.
const TEXT: usize = ROW + 2;

#[derive(Clone, Copy)]
enum Run {
    Whitespace,
    Gap,
    Plain,
    Digits,
    FewDigits,
}

// Where a reader stops in that many turns: after the last event or at what it refuses.
fn stop_in_text(text: &str, turns: usize) -> Option<usize> {
    let mut parser = Parser::new(text);
    for _ in 0..turns {
        match next_of(&mut parser) {
            Ok(Event::End) => return Some(text.len()),
            Ok(_) => {}
            Err(error) => return error.offset(),
        }
    }
    Some(parser.index())
}

// The same in bytes, after two others with which the text begins.
fn stop_of_reader(front: [u8; 2], turns: usize, bytes: &[u8]) -> Option<usize>
    requires { length bytes.now ≤ 142 }
{
    let mut all = [0; TEXT];
    let end = 2 + bytes.len();
    all[..2].copy_from_slice(&front);
    all[2..end].copy_from_slice(bytes);
    match check_utf8(&all[..end]) {
        Ok(text) => stop_in_text(text, turns),
        Err(_) => None,
    }
}

// Whether the run that begins here ends there. A gap is what a reader skips after a number, and few
// digits are those of an exponent.
fn ends_at(run: Run, bytes: &[u8], from: usize, end: usize) -> bool
    requires order { (from ≤ end) × (end ≤ length bytes.now) }
    requires few { length bytes.now ≤ 142 }
{
    let stop = Some(2 + end - from);
    match run {
        Run::Whitespace => ws_run(bytes, from) == end,
        Run::Gap => stop_of_reader(*b"10", 2, &bytes[from..]) == stop,
        Run::Plain => plain_run(bytes, from) == end,
        Run::Digits => digit_run(bytes, from) == end,
        Run::FewDigits => stop_of_reader(*b"1e", 1, &bytes[from..]) == stop,
    }
}

// Whether each run that begins up to this place ends there.
fn all_end_at(run: Run, bytes: &[u8], end: usize) -> bool
    requires { (end ≤ length bytes.now) × (length bytes.now ≤ 142) }
{
    for from in 0..end + 1 {
        if !ends_at(run, bytes, from, end) {
            return false;
        }
    }
    true
}

// Bytes that go on the run, over and over, with others between them that do not.
fn row(inside: &[u8], outside: &[u8], stop: usize) -> [u8; ROW] {
    let mut bytes = [0; ROW];
    for i in 0..ROW {
        if i >= stop && i - stop < outside.len() {
            bytes[i] = outside[i - stop];
        } else if inside.len() > 0 {
            bytes[i] = inside[i % inside.len()];
        }
    }
    bytes
}

// Whether a run of this length ends before these others, whatever is after them.
fn ends_before(run: Run, inside: &[u8], outside: &[u8], stop: usize) -> bool
    requires { (length outside.now ≤ 2) × (stop ≤ 100) }
{
    let bytes = row(inside, outside, stop);
    let end = stop + outside.len();
    all_end_at(run, &bytes[..end + BEHIND], stop) && all_end_at(run, &bytes[..end], stop)
}

// Whether a run alone ends where the bytes do.
fn ends_alone(run: Run, inside: &[u8], stop: usize) -> bool
    requires { stop ≤ 100 }
{
    let all = row(inside, &[], ROW);
    let end = stop + BEHIND;
    all_end_at(run, &all[..end], end) && all_end_at(run, &all[..stop], stop)
}

// The first length at which a run does not end before these others, or a run alone does not end
// where the bytes do.
fn wrong_length(run: Run, inside: &[u8], outside: &[u8]) -> Option<usize>
    requires { length outside.now ≤ 2 }
{
    for stop in 0..BEFORE + 1 {
        if !(ends_before(run, inside, outside, stop) && ends_alone(run, inside, stop)) {
            return Some(stop);
        }
    }
    None
}

// Runs of bytes, the bytes of each, and others.
const OF_BYTES: &[(Run, &[u8], &[u8])] = &[
    (Run::Whitespace, b" \t\n\r", b"x\x0b\x0c\x00\x1f\"\xa0"),
    (Run::Plain, b" !#[]~\x7f\x80\xff", b"\"\\\x00\x1f\n"),
    (Run::Digits, b"0123456789", b"/:a \x00\xb5"),
];

// The first byte before which a run of bytes does not end, and its length.
fn wrong_byte() -> Option<(u8, usize)> {
    for (run, inside, outside) in OF_BYTES {
        for other in *outside {
            if let Some(length) = wrong_length(*run, inside, &[*other]) {
                return Some((*other, length));
            }
        }
    }
    None
}

// Runs in a text, the bytes of each, and other characters.
const OF_TEXT: &[(Run, &[u8], &[&str])] = &[
    (
        Run::Gap,
        b" \t\n\r",
        &["x", "\x0b", "\x0c", "\x00", "\x1f", "\"", "\u{a0}"],
    ),
    (
        Run::FewDigits,
        b"0123456789",
        &["/", ":", "a", " ", "\x00", "\u{b5}"],
    ),
];

fn wrong_length_before(run: Run, inside: &[u8], other: &str) -> Option<usize> {
    if other.len() > 2 {
        return Some(0);
    }
    wrong_length(run, inside, other.as_bytes())
}

// The first character before which a run in a text does not end, and its length.
fn wrong_character() -> Option<(&'static str, usize)> {
    for (run, inside, others) in OF_TEXT {
        for other in *others {
            if let Some(length) = wrong_length_before(*run, inside, other) {
                return Some((*other, length));
            }
        }
    }
    None
}

#[test]
fn runs_of_each_length_from_each_start(rt: HostRuntime) {
    let byte = wrong_byte();
    assert!(rt; byte.is_none(), "{byte:?}");
    let character = wrong_character();
    assert!(rt; character.is_none(), "{character:?}");
}
