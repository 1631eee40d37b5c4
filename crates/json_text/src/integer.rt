// Integers of few digits, by value.
ghost use Rattle.std.specs.Prelude.{◌≡◌, ◌⊎◌, ℕ, ◌+◌, ◌^◌, ◌<◌, ◌≤◌, true, false, length, None, IfSome};
ghost use Rattle.std.specs.Str.{all_ascii_digits};
ghost use Rattle.std.specs.Str.Parse.{digits_value};
ghost use Rattle.json_grammar.specs.Given.{piece};
ghost use Rattle.json_text.specs.Numbers.{NumberTo, NoDigit, GoesOn};
ghost use Rattle.json_text.specs.Nexts.{IsShortInteger};
ghost use Rattle.json_text.specs.NextLiterals.{IsShortNegative};
ghost use Rattle.json_scan.specs.Runs.{ByteAt};
ghost use Rattle.json_text.specs.declared.integer.DigitsRead.TheVariants as DigitsRead;

use json_scan::{BLOCK, byte_is, digit_is, digits_in_block};

/// An integer of at most this many digits always fits 64 bits.
const MOST_DIGITS: usize = 19;

/// How many digits are read as one word.
const WORD: usize = 8;

/// A word of the digit 0.
const ZEROS: u64 = 0x3030_3030_3030_3030;

/// The powers of ten up to the eighth.
static POWERS_OF_TEN: [u64; 9] = [
    1,
    10,
    100,
    1_000,
    10_000,
    100_000,
    1_000_000,
    10_000_000,
    100_000_000,
];

/// The number that digits denote, and the offset after them.
#[derive(Clone, Copy)]
pub(crate) struct Digits {
    pub value: u64,
    pub end: usize,
}

/// The offset after the most digits that are looked at.
#[inline(always)]
fn farthest(len: usize, from: usize) -> usize
    requires { from ≤ len }
    ensures within { (from ≤ result) × (result ≤ len) }
    ensures few { result ≤ from + 19 }
    ensures most { result < from + 19 → result ≡ len }
{
    if len - from > MOST_DIGITS {
        from + MOST_DIGITS
    } else {
        len
    }
}

/// The number that a few digits write, as one word: the first is the highest of its bytes.
#[inline(always)]
fn word_value(bytes: &[u8], from: usize, count: usize) -> u64
    requires within { from + 8 ≤ length bytes.now }
    requires few { (0 < count) × (count ≤ 8) }
    requires digits { all_ascii_digits (piece bytes.now from (from + count)) ≡ true }
    ensures { result ≡ digits_value 10 (piece bytes.now from (from + count)) }
{
    let word = u64::from_be_bytes([
        bytes[from],
        bytes[from + 1],
        bytes[from + 2],
        bytes[from + 3],
        bytes[from + 4],
        bytes[from + 5],
        bytes[from + 6],
        bytes[from + 7],
    ]);
    let unused = 64 - 8 * count;
    let digits = (word >> unused) - (ZEROS >> unused);
    // of two bytes the lower one has both digits
    let pairs = digits + (digits >> 8) * 10;
    pairs % 256
        + (pairs >> 16) % 256 * 100
        + (pairs >> 32) % 256 * 10_000
        + (pairs >> 48) % 256 * 1_000_000
}

/// Returns 10 to the power of the exponent, which is at most 8.
#[inline(always)]
fn power_of_ten(exponent: usize) -> u64
    requires { exponent ≤ 8 }
    ensures { result ≡ 10 ^ exponent }
{
    POWERS_OF_TEN[exponent]
}

/// Returns the number that nine to 16 digits write, as two words.
#[inline(always)]
fn two_words_value(bytes: &[u8], from: usize, count: usize) -> u64
    requires within { from + 16 ≤ length bytes.now }
    requires few { (8 < count) × (count ≤ 16) }
    requires digits { all_ascii_digits (piece bytes.now from (from + count)) ≡ true }
    ensures { result ≡ digits_value 10 (piece bytes.now from (from + count)) }
{
    let rest = count - WORD;
    let high = word_value(bytes, from, WORD);
    let low = word_value(bytes, from + WORD, rest);
    let shifted = high * power_of_ten(rest);
    shifted + low
}

/// Returns the number that one to 16 digits write.
#[inline(always)]
fn block_value(bytes: &[u8], from: usize, count: usize) -> u64
    requires within { from + 16 ≤ length bytes.now }
    requires few { (0 < count) × (count ≤ 16) }
    requires digits { all_ascii_digits (piece bytes.now from (from + count)) ≡ true }
    ensures { result ≡ digits_value 10 (piece bytes.now from (from + count)) }
{
    if count > WORD {
        two_words_value(bytes, from, count)
    } else {
        word_value(bytes, from, count)
    }
}

/// What the bytes of a range write in digits.
#[derive(Clone, Copy)]
pub enum DigitsRead {
    /// They are digits, which write the number.
    Value(u64),
    /// They are not all digits.
    NotDigits,
    /// It is not known: the input has 16 digits or more where they begin, or fewer than 16 bytes.
    NotRead,
}

/// Returns what the bytes from `from` up to `end` write in digits, by one block of 16, which may go
/// beyond `end`. The range must not be empty.
///
/// ```
/// use json_text::internal::{DigitsRead, read_digits};
/// let input = b"[1815, 12.10, 7, 8]";
/// assert!(rt; matches!(read_digits(input, 1, 5), DigitsRead::Value(1815)));
/// assert!(rt; matches!(read_digits(input, 1, 6), DigitsRead::NotDigits));
/// assert!(rt; matches!(read_digits(input, 14, 15), DigitsRead::NotRead));
/// ```
#[inline(always)]
pub fn read_digits(bytes: &[u8], from: usize, end: usize) -> DigitsRead
    requires order { from < end }
    requires within { end ≤ length bytes.now }
    ensures value { (v : ℕ) → result ≡ DigitsRead.Value v
        → (all_ascii_digits (piece bytes.now from end) ≡ true)
        × (v ≡ digits_value 10 (piece bytes.now from end)) }
    ensures none { result ≡ DigitsRead.NotDigits
        → all_ascii_digits (piece bytes.now from end) ≡ false }
    ensures unread { result ≡ DigitsRead.NotRead → (length bytes.now < from + 16)
        ⊎ (all_ascii_digits (piece bytes.now from (from + 16)) ≡ true) }
{
    if bytes.len() - from < BLOCK {
        return DigitsRead::NotRead;
    }
    let digits = digits_in_block(bytes, from);
    if digits == BLOCK {
        return DigitsRead::NotRead;
    }
    let count = end - from;
    if digits < count {
        return DigitsRead::NotDigits;
    }
    DigitsRead::Value(block_value(bytes, from, count))
}

/// Digits from `from` on, at most 19, of which some have been read.
#[inline(never)]
fn more_digits(bytes: &[u8], from: usize, read: Digits) -> Digits
    requires order { from ≤ read.end }
    requires within { read.end ≤ length bytes.now }
    requires few { read.end ≤ from + 19 }
    requires digits { all_ascii_digits (piece bytes.now from read.end) ≡ true }
    requires value { read.value ≡ digits_value 10 (piece bytes.now from read.end) }
    ensures within { (from ≤ result.end) × (result.end ≤ length bytes.now) }
    ensures few { result.end ≤ from + 19 }
    ensures digits { all_ascii_digits (piece bytes.now from result.end) ≡ true }
    ensures stop { result.end < from + 19 → NoDigit bytes.now result.end }
    ensures value { result.value ≡ digits_value 10 (piece bytes.now from result.end) }
{
    let limit = farthest(bytes.len(), from);
    let mut value = read.value;
    let mut at = read.end;
    'digits: while at < limit && bytes[at].is_ascii_digit() {
        value = value * 10 + u64::from(bytes[at] - b'0');
        at += 1;
    }
    Digits { value, end: at }
}

/// Digits from `from` on, at most 19.
#[inline(always)]
fn few_digits(bytes: &[u8], from: usize) -> Digits
    requires { from ≤ length bytes.now }
    ensures within { (from ≤ result.end) × (result.end ≤ length bytes.now) }
    ensures few { result.end ≤ from + 19 }
    ensures digits { all_ascii_digits (piece bytes.now from result.end) ≡ true }
    ensures stop { result.end < from + 19 → NoDigit bytes.now result.end }
    ensures value { result.value ≡ digits_value 10 (piece bytes.now from result.end) }
{
    let none = Digits {
        value: 0,
        end: from,
    };
    if bytes.len() - from < BLOCK {
        return more_digits(bytes, from, none);
    }
    let count = digits_in_block(bytes, from);
    if count == 0 {
        return none;
    }
    let few = count.min(WORD);
    let first = Digits {
        value: word_value(bytes, from, few),
        end: from + few,
    };
    if count > WORD {
        return more_digits(bytes, from, first);
    }
    first
}

/// Returns whether a number that was read up to the end of digits may go on with the byte there.
#[inline(always)]
fn goes_on(bytes: &[u8], at: usize) -> bool
    ensures digit { result ≡ false → NoDigit bytes.now at }
    ensures dot { result ≡ false → ¬ (ByteAt bytes.now at 46) }
    ensures exponent { result ≡ false → ¬ (ByteAt bytes.now at 101) }
    ensures capital { result ≡ false → ¬ (ByteAt bytes.now at 69) }
    ensures on { result ≡ true → GoesOn bytes.now at }
{
    digit_is(bytes, at)
        || byte_is(bytes, at, b'.')
        || byte_is(bytes, at, b'e')
        || byte_is(bytes, at, b'E')
}

/// The longest number that begins at `from`, where it has at most 19 digits and nothing else.
#[inline(always)]
pub(crate) fn integer_at(bytes: &[u8], from: usize) -> Option<Digits>
    requires { from ≤ length bytes.now }
    ensures number { IfSome result (λ d. NumberTo bytes.now from d.end) }
    ensures some { IfSome result (λ d. (from < d.end) × (d.end ≤ from + 19)) }
    ensures digits { IfSome result (λ d. all_ascii_digits (piece bytes.now from d.end) ≡ true) }
    ensures value { IfSome result (λ d. d.value ≡ digits_value 10 (piece bytes.now from d.end)) }
    ensures none { result ≡ None → (e : ℕ) → ¬ (IsShortInteger bytes.now from e) }
{
    let digits = few_digits(bytes, from);
    if digits.end == from || goes_on(bytes, digits.end) {
        return None;
    }
    if bytes[from] == b'0' && digits.end > from + 1 {
        return None;
    }
    Some(digits)
}

/// Returns the number that the digits write of the longest number that begins at `from`, if it has
/// a minus, at most 19 digits and nothing else.
#[inline(always)]
pub(crate) fn negative_at(bytes: &[u8], from: usize) -> Option<Digits>
    requires { from ≤ length bytes.now }
    ensures negative { IfSome result (λ d. IsShortNegative bytes.now from d.end) }
    ensures value { IfSome result (λ d. d.value
        ≡ digits_value 10 (piece bytes.now (from + 1) d.end)) }
    ensures none { result ≡ None → (e : ℕ) → ¬ (IsShortNegative bytes.now from e) }
{
    if !byte_is(bytes, from, b'-') {
        return None;
    }
    match integer_at(bytes, from + 1) {
        Some(digits) => Some(digits),
        None => None,
    }
}
