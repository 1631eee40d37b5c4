// Text from bytes that are not UTF-8 throughout.
ghost use Rattle.std.specs.Prelude.{◌≡◌, ℕ, ◌≤◌, length, IfOk, IfSome};
ghost use Rattle.std.specs.List.Sorted.{IsNonDecreasingBy};
ghost use Rattle.std.specs.Str.Lossy.{utf8_lossy};
ghost use Rattle.json_io.specs.Errors.{OnlyNoMemory};
ghost use Rattle.json_text.specs.declared.repaired.IllFormed.{IllFormed};
ghost use Rattle.json_text.specs.Repaired.{origin_at, origin_of, last_shown as spec_last_shown};

use bstr::ByteSlice;
use json_io::Result;
use std::alloc::Global;
use std::marker::Model;

/// How many bytes U+FFFD has in UTF-8.
const REPLACEMENT_LEN: usize = 3;

/// A run of ill-formed bytes, from `from` up to `end` in the input, and where the U+FFFD that
/// replaced it begins.
#[derive(Clone, Copy)]
pub(crate) struct IllFormed {
    pub shown: usize,
    pub from: usize,
    pub end: usize,
}

/// A text that was made of any bytes: each ill-formed run in them became U+FFFD.
///
/// ```
/// use json_text::repair;
/// let repaired = repair(alloc, b"\"\xff\"")?;
/// assert_eq!(rt; repaired.as_str(), "\"\u{fffd}\"");
/// assert_eq!(rt; repaired.origin(4), 2);
/// ```
#[derive(Drop)]
pub struct Repaired {
    text: String,
    runs: Vec<IllFormed>,
}

impl Model for Repaired {
    ghost use Rattle.std.specs.Prelude.{string_bytes};
    ghost use Rattle.json_text.specs.Repaired.{RepairedText, IsRepaired};

    ghost Value = { RepairedText };

    ghost view = { λ a. record { text = string_bytes a.text; runs = a.runs.items } };

    ghost invariant = { λ a. IsRepaired
        (record { text = string_bytes a.text; runs = a.runs.items }) };
}

/// Returns the text of the bytes, with U+FFFD for each ill-formed run, as std's lossy conversion
/// cuts them (the Unicode Standard, section 3.9, "U+FFFD substitution of maximal subparts"). Fails
/// with `NoMemory` if memory runs out.
pub fn repair(alloc: Global, bytes: &[u8]) -> Result<Repaired>
    ensures text { IfOk result (λ r. r.text ≡ utf8_lossy bytes.now) }
    ensures origin { IfOk result (λ r. (k : ℕ) → k ≤ length r.text
        → origin_of r k ≡ origin_at bytes.now k) }
    ensures err { OnlyNoMemory result }
{
    let mut text = String::with_capacity(alloc, bytes.len())?;
    let mut runs = Vec::new(alloc);
    let mut read = 0;
    for chunk in ByteSlice::utf8_chunks(&bytes) {
        text.push_str(chunk.valid())?;
        read += chunk.valid().len();
        if !chunk.invalid().is_empty() {
            let end = read + chunk.invalid().len();
            runs.push(IllFormed {
                shown: text.len(),
                from: read,
                end,
            })?;
            text.push('\u{FFFD}')?;
            read = end;
        }
    }
    Ok(Repaired { text, runs })
}

// The last run whose U+FFFD begins at the offset or before.
fn last_shown(runs: &[IllFormed], offset: usize) -> Option<IllFormed>
    requires { IsNonDecreasingBy (λ (x : IllFormed). x.shown) runs.now }
    ensures last { result ≡ spec_last_shown runs.now offset }
    ensures before { IfSome result (λ run. run.shown ≤ offset) }
{
    let count = runs.partition_point(|run| run.shown <= offset);
    if count == 0 {
        return None;
    }
    Some(runs[count - 1])
}

impl Repaired {
    /// Returns the repaired text.
    pub fn as_str(&self) -> &str
        ensures { result.now ≡ self.now.text }
    {
        self.text.as_str()
    }

    /// Returns the offset in the input of an offset of the repaired text, both in bytes: for copied
    /// bytes their own, within a U+FFFD that replaced a run the beginning of that run, and at the
    /// end the input's length.
    pub fn origin(&self, offset: usize) -> usize
        requires { offset ≤ length self.now.text }
        ensures { result ≡ origin_of self.now offset }
    {
        match last_shown(&self.runs, offset) {
            None => offset,
            Some(run) => {
                let past = offset - run.shown;
                if past < REPLACEMENT_LEN {
                    run.from
                } else {
                    run.end + (past - REPLACEMENT_LEN)
                }
            }
        }
    }
}
