// Which elements an index and a slice select (RFC 9535, sections 2.3.3.2 and 2.3.4.2.2).
ghost use Rattle.std.specs.Prelude.{◌≡◌, ◌≢◌, ℕ, ◌<◌, pos, negsuc, ◌+ℤ◌, ◌-ℤ◌, neg_ℤ, MatchOption, unwrap_or};
ghost use Rattle.json_query.specs.Slices.{normalized, limited};

use crate::query::Slice;

/// Returns the index, counted from 0, of the element that `index` selects of `len` elements, or
/// `None` if it selects none.
pub(crate) fn element_index(index: i64, len: usize) -> Option<usize>
    ensures { MatchOption result ((i : ℕ) → i < len → normalized index len ≢ pos i)
        (λ i. (i < len) × (normalized index len ≡ pos i)) }
{
    let distance = index.unsigned_abs() as usize;
    if index >= 0 {
        return if distance < len { Some(distance) } else { None };
    }
    if distance <= len {
        Some(len - distance)
    } else {
        None
    }
}

// Returns the index, counted from 0, or from the end of `len` elements if it is below 0: at least 0
// and at most `len`.
fn limited_index(index: i64, len: usize) -> usize
    ensures { pos result ≡ limited (pos 0) (pos len) (normalized index len) }
{
    let distance = index.unsigned_abs() as usize;
    if index >= 0 {
        distance.min(len)
    } else {
        len.saturating_sub(distance)
    }
}

// Returns one more than the index, which is at least -1 and at most `len - 1`.
fn after_limited(index: i64, len: usize) -> usize
    ensures { pos result
        ≡ limited (negsuc 0) (pos len -ℤ pos 1) (normalized index len) +ℤ pos 1 }
{
    let distance = index.unsigned_abs() as usize;
    if index < 0 {
        return len.saturating_sub(distance - 1);
    }
    if distance < len { distance + 1 } else { len }
}

// Returns where a slice that goes forwards begins.
fn forward_begin(start: Option<i64>, len: usize) -> usize
    ensures { pos result
        ≡ limited (pos 0) (pos len) (normalized (unwrap_or start (pos 0)) len) }
{
    limited_index(start.unwrap_or(0), len)
}

// Returns where a slice that goes forwards ends.
fn forward_end(end: Option<i64>, len: usize) -> usize
    ensures { pos result
        ≡ limited (pos 0) (pos len) (normalized (unwrap_or end (pos len)) len) }
{
    match end {
        Some(index) => limited_index(index, len),
        None => len,
    }
}

// Returns one more than the index above which a slice that goes backwards stays.
fn backward_begin(end: Option<i64>, len: usize) -> usize
    ensures { pos result ≡ limited (negsuc 0) (pos len -ℤ pos 1)
        (normalized (unwrap_or end (neg_ℤ (pos len) -ℤ pos 1)) len) +ℤ pos 1 }
{
    match end {
        Some(index) => after_limited(index, len),
        None => 0,
    }
}

// Returns one more than the index at which a slice that goes backwards begins.
fn backward_end(start: Option<i64>, len: usize) -> usize
    ensures { pos result ≡ limited (negsuc 0) (pos len -ℤ pos 1)
        (normalized (unwrap_or start (pos len -ℤ pos 1)) len) +ℤ pos 1 }
{
    match start {
        Some(index) => after_limited(index, len),
        None => len,
    }
}

/// The indexes that a slice selects: from `begin` on and before `end`, those that are some steps
/// away from the first, or from the last if the slice goes backwards. With the step 0 there are
/// none.
#[derive(Clone, Copy)]
pub(crate) struct Indexes {
    begin: usize,
    end: usize,
    step: usize,
    backwards: bool,
}

impl Indexes {
    ghost use Rattle.json_query.specs.Indexes.{AreIndexesOf, is_index};

    /// Returns the indexes that `slice` selects of `len` elements.
    pub(crate) fn new(slice: Slice, len: usize) -> Indexes
        ensures { AreIndexesOf result slice.start slice.end slice.step len }
    {
        let step = slice.step.unsigned_abs() as usize;
        if slice.step < 0 {
            return Indexes {
                begin: backward_begin(slice.end, len),
                end: backward_end(slice.start, len),
                step,
                backwards: true,
            };
        }
        Indexes {
            begin: forward_begin(slice.start, len),
            end: forward_end(slice.end, len),
            step,
            backwards: false,
        }
    }

    /// Returns whether the index is one of them.
    pub(crate) fn contains(self, i: usize) -> bool
        ensures { result ≡ is_index self i }
    {
        if i < self.begin || i >= self.end || self.step == 0 {
            return false;
        }
        let distance = if self.backwards {
            self.end - 1 - i
        } else {
            i - self.begin
        };
        distance % self.step == 0
    }
}
