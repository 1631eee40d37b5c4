// JSON texts in colors.
use json_text::Result;
use mezdruk_files::Painter;
use std::alloc::Global;

// The pieces of texts, and what they are with colors.
struct ColorRow {
    pieces: &'static [&'static [u8]],
    painted: &'static [u8],
}

const ROWS: &[ColorRow] = &[
    ColorRow {
        pieces: &[b"null\n"],
        painted: b"\x1b[1;30mnull\x1b[0m\n",
    },
    ColorRow {
        pieces: &[b"true\n", b"-1.5e3\n", b"\"a\"\n"],
        painted: b"\x1b[0;39mtrue\x1b[0m\n\x1b[0;39m-1.5e3\x1b[0m\n\x1b[0;32m\"a\"\x1b[0m\n",
    },
    ColorRow {
        pieces: &[b"[false,[],null]"],
        painted: b"\x1b[1;39m[\x1b[0;39mfalse\x1b[1;39m,[],\x1b[1;30mnull\x1b[1;39m]\x1b[0m",
    },
    ColorRow {
        pieces: &[b"{\"a\":\"b\",\"c\":0}"],
        painted: b"\x1b[1;39m{\x1b[34;1m\"a\"\x1b[1;39m:\x1b[0;32m\"b\"\x1b[1;39m,\
            \x1b[34;1m\"c\"\x1b[1;39m:\x1b[0;39m0\x1b[1;39m}\x1b[0m",
    },
    ColorRow {
        pieces: &[b"{\"a\":[\"b\",{}],\"c\":1}"],
        painted: b"\x1b[1;39m{\x1b[34;1m\"a\"\x1b[1;39m:[\x1b[0;32m\"b\"\x1b[1;39m,{}],\
            \x1b[34;1m\"c\"\x1b[1;39m:\x1b[0;39m1\x1b[1;39m}\x1b[0m",
    },
    ColorRow {
        pieces: &[b"[{\"a\":1},\"b\"]"],
        painted: b"\x1b[1;39m[{\x1b[34;1m\"a\"\x1b[1;39m:\x1b[0;39m1\x1b[1;39m},\
            \x1b[0;32m\"b\"\x1b[1;39m]\x1b[0m",
    },
    ColorRow {
        pieces: &[b"[\"{,\\\"[\\\\\",\"]\"]"],
        painted: b"\x1b[1;39m[\x1b[0;32m\"{,\\\"[\\\\\"\x1b[1;39m,\x1b[0;32m\"]\"\x1b[1;39m]\x1b[0m",
    },
    ColorRow {
        pieces: &[b"{\n  \"a\": null\n}\n"],
        painted: b"\x1b[1;39m{\x1b[0m\n  \x1b[34;1m\"a\"\x1b[1;39m:\x1b[0m \x1b[1;30mnull\
            \x1b[0m\n\x1b[1;39m}\x1b[0m\n",
    },
    ColorRow {
        pieces: &[b"{\"a", b"\":tr", b"ue", b"}"],
        painted: b"\x1b[1;39m{\x1b[34;1m\"a\x1b[0m\x1b[34;1m\"\x1b[1;39m:\x1b[0;39mtr\x1b[0m\
            \x1b[0;39mue\x1b[0m\x1b[1;39m}\x1b[0m",
    },
    ColorRow {
        pieces: &[b"[\"\\", b"\"]\"", b"", b"]"],
        painted: b"\x1b[1;39m[\x1b[0;32m\"\\\x1b[0m\x1b[0;32m\"]\"\x1b[0m\x1b[1;39m]\x1b[0m",
    },
];

// Whether the pieces of the row come to what it has with colors.
fn is_painted(alloc: Global, row: &ColorRow) -> Result<bool> {
    let mut painter = Painter::new(alloc);
    let mut painted = Vec::new(alloc);
    for piece in row.pieces {
        painter.paint(piece, &mut painted)?;
    }
    Ok(painted.as_slice() == row.painted)
}

fn all_are_painted(alloc: Global) -> Result<bool> {
    for row in ROWS {
        if !is_painted(alloc, row)? {
            return Ok(false);
        }
    }
    Ok(true)
}

#[test]
fn each_part_has_its_color(rt: HostRuntime) {
    assert!(rt; matches!(all_are_painted(rt.alloc()), Ok(true)));
}
