// Lines and columns of the bytes of an input.
ghost use Rattle.std.specs.Prelude.{◌≡◌, ◌≤◌, ◌==◌, length, count_by};
ghost use Rattle.std.specs.List.{after_last};
ghost use Rattle.json_io.specs.Positions.{place_at};

use crate::Place;

fn newlines(bytes: &[u8]) -> usize
    ensures { result ≡ count_by (λ x. x == 10) bytes.now }
{
    bytes.iter().filter(|byte| **byte == b'\n').count()
}

fn last_line_len(bytes: &[u8]) -> usize
    ensures { result ≡ length (after_last (λ x. x == 10) bytes.now) }
{
    let mut start = bytes.len();
    'back: while start > 0 && bytes[start - 1] != b'\n' {
        start -= 1;
    }
    bytes.len() - start
}

/// Returns the place of an offset: its line is 1 plus the number of bytes 0A before it, and its
/// column 1 plus the number of bytes between the last of these, or the beginning, and it.
#[cold]
#[inline(never)]
#[tactic(auto, unfolding(crate::specs::Positions::place_at))]
pub fn place_of(bytes: &[u8], offset: usize) -> Place
    requires { offset ≤ length bytes.now }
    ensures { result ≡ place_at bytes.now offset }
{
    let before = &bytes[..offset];
    Place::At {
        offset,
        line: 1 + newlines(before),
        column: 1 + last_line_len(before),
    }
}
