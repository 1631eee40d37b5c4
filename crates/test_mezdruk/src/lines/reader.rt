// The reader of lines.
use json_lines::{Line, LineReader};
use json_text::{FakeSource, Place, Result, SliceSource, Source};
use std::alloc::Global;

// Whether the next line of a source is this one; none is the end.
fn has_next<S: Source>(
    reader: &mut LineReader,
    source: &mut S,
    line: Option<Line<'_>>,
) -> Result<bool> {
    Ok(reader.next_line(source)? == line)
}

// Whether a reader of lines of at most `limit` bytes returns these, and then none.
fn has_lines<S: Source>(
    alloc: Global,
    limit: u8,
    source: &mut S,
    lines: &[Line<'_>],
) -> Result<bool> {
    let mut reader = LineReader::new(alloc, limit as usize)?;
    for line in lines {
        if !has_next(&mut reader, source, Some(*line))? {
            return Ok(false);
        }
    }
    has_next(&mut reader, source, None)
}

#[test]
fn reads_line_by_line(rt: HostRuntime) {
    let mut source = FakeSource::new(b"ab\n\nabcde\nabcd\nx", 1, &[]);
    let lines = [
        Line::Whole(b"ab"),
        Line::Whole(b""),
        Line::TooLong,
        Line::Whole(b"abcd"),
        Line::Whole(b"x"),
    ];
    assert!(rt; matches!(has_lines(rt.alloc(), 4, &mut source, &lines), Ok(true)));
}

// Whether the next line of a source fails where it is read.
fn fails_at_next<S: Source>(reader: &mut LineReader, source: &mut S) -> bool {
    matches!(reader.next_line(source), Err(error) if error.place == Place::Reading)
}

// Whether a reader whose source fails once fails again, at another source.
fn fails_again(alloc: Global) -> Result<bool> {
    let mut reader = LineReader::new(alloc, 4)?;
    let mut source = FakeSource::new(b"ab\ncd\nab", 4, &[1]);
    let whole = has_next(&mut reader, &mut source, Some(Line::Whole(b"ab")))?;
    let failed = fails_at_next(&mut reader, &mut source);
    Ok(whole && failed && fails_at_next(&mut reader, &mut SliceSource::new(b"z\n")))
}

#[test]
fn repeats_an_error(rt: HostRuntime) {
    assert!(rt; matches!(fails_again(rt.alloc()), Ok(true)));
}

// Three lines: of 70,000 bytes, of four, and of all others.
fn long_and_short(alloc: Global) -> Result<Vec<u8>> {
    let mut text = Vec::new(alloc);
    text.resize(70_000, b'a')?;
    text.extend_from_slice(b"\naaaa\n")?;
    text.resize(300_000, b'a')?;
    Ok(text)
}

fn passes_over(alloc: Global) -> Result<bool> {
    let text = long_and_short(alloc)?;
    let lines = [Line::TooLong, Line::Whole(b"aaaa"), Line::TooLong];
    has_lines(alloc, 10, &mut SliceSource::new(text.as_slice()), &lines)
}

#[test]
fn passes_over_long_lines(rt: HostRuntime) {
    assert!(rt; matches!(passes_over(rt.alloc()), Ok(true)));
}
