// The names so far of the objects that are open in a text.
ghost use Rattle.std.specs.Prelude.{◌≡◌, ◌<◌, ◌≤◌, List, ℕ, [], ◌∷◌, length, drop, get_or, false, IfOk, OnOk};
ghost use Rattle.std.specs.Cow.{cow_str_bytes};
ghost use Rattle.json_grammar.specs.Tree.{key_token};
ghost use Rattle.json_grammar.specs.Grammar.{chars};
ghost use Rattle.json_grammar.specs.Repeated.{Keys, outer_keys};
ghost use Rattle.json_io.specs.Errors.{OnlyNoMemory};
ghost use Rattle.json_doc.specs.OpenNames.{front_of, row_has, names_have, HasNames, HasSomeNames, TakesIn};

use json_io::Result;
use json_text::Span;
use std::alloc::Global;
use std::borrow::CowStr;
use std::collections::BTreeSet;
use std::mem;

/// The greatest number of names of an object that are compared one by one.
const FEW: usize = 16;

// A byte, or 0 after the end.
#[inline(always)]
fn byte_or_zero(bytes: &[u8], at: usize) -> u8
    ensures { result ≡ get_or bytes.now at 0 }
{
    match bytes.get(at) {
        Some(byte) => *byte,
        None => 0,
    }
}

/// Returns the first eight bytes of a name as a big-endian number, with zero bytes after the end of
/// a shorter name. If the numbers of two names differ, the name with the smaller number comes first
/// in the order of bytes. If they are equal, the names themselves have to be compared.
///
/// ```
/// use json_doc::internal::front_number;
/// assert_eq!(rt; front_number("b"), 0x62_00_00_00_00_00_00_00);
/// assert!(rt; front_number("altitude") < front_number("b"));
/// assert_eq!(rt; front_number("latitude 1"), front_number("latitude 2"));
/// ```
pub fn front_number(name: &str) -> u64
    ensures { result ≡ front_of name.now }
{
    let bytes = name.as_bytes();
    u64::from_be_bytes([
        byte_or_zero(bytes, 0),
        byte_or_zero(bytes, 1),
        byte_or_zero(bytes, 2),
        byte_or_zero(bytes, 3),
        byte_or_zero(bytes, 4),
        byte_or_zero(bytes, 5),
        byte_or_zero(bytes, 6),
        byte_or_zero(bytes, 7),
    ])
}

/// The names of an open container around the innermost one.
#[derive(Drop)]
pub struct OuterKeys<'a> {
    // where its few names begin
    start: usize,
    many: BTreeSet<(u64, CowStr<'a>)>,
}

/// The names so far of each open container. The first names of an object are in a list and are
/// compared one by one. All others are in an ordered set, so that a name of an object of n members
/// takes no more than some log n comparisons. There the number of its first bytes precedes it, so
/// that few comparisons look at the name itself, and it is borrowed from the text, unless it has
/// escapes.
#[derive(Drop)]
pub struct OpenKeys<'a> {
    alloc: Global,
    // names borrowed from the text as they are, at most 16 of each open container, those of the
    // innermost last
    few: Vec<&'a str>,
    // where those of the innermost begin
    start: usize,
    // all other names of the innermost
    many: BTreeSet<(u64, CowStr<'a>)>,
    outer: Vec<OuterKeys<'a>>,
}

impl<'a> OpenKeys<'a> {
    /// Creates a value without names, where no container is open. Allocates nothing.
    pub fn new(alloc: Global) -> OpenKeys<'a>
        ensures { HasNames result [] }
    {
        OpenKeys {
            alloc,
            few: Vec::new(alloc),
            start: 0,
            many: BTreeSet::new(alloc),
            outer: Vec::new(alloc),
        }
    }

    /// Begins a container, which has no names yet, in the innermost one. Fails with `NoMemory` if
    /// memory runs out.
    pub fn begin(&mut self) -> Result<()>
        ensures ok { OnOk result ((all : List Keys) → HasNames self.old all
            → HasNames self.new ([] ∷ all)) }
        ensures err { OnlyNoMemory result }
    {
        let many = mem::replace(&mut self.many, BTreeSet::new(self.alloc));
        let start = self.start;
        self.outer.push(OuterKeys { start, many })?;
        self.start = self.few.len();
        Ok(())
    }

    /// Ends the innermost container and forgets its names.
    pub fn end(&mut self)
        ensures { (all : List Keys) → HasNames self.old all → HasNames self.new (outer_keys all) }
    {
        if let Some(outer) = self.outer.pop() {
            self.few.truncate(self.start);
            self.start = outer.start;
            self.many = outer.many;
        }
    }

    // Whether the innermost container has the name already.
    fn in_row(&self, name: &str) -> bool
        requires { self.now.start ≤ length self.now.few.items }
        ensures { result ≡ row_has (drop self.now.start self.now.few.items) name.now }
    {
        self.few[self.start..].contains(&name)
    }

    // Whether the innermost container has the name.
    fn has(&self, name: &'a str) -> bool
        requires { self.now.start ≤ length self.now.few.items }
        ensures { result
            ≡ names_have (drop self.now.start self.now.few.items) self.now.many name.now }
    {
        self.in_row(name)
            || self
                .many
                .contains(&(front_number(name), CowStr::Borrowed(name)))
    }

    // Returns whether the innermost container has the name. If not, the name goes into the set.
    fn take_into_set(&mut self, name: CowStr<'a>) -> Result<bool>
        requires some { HasSomeNames self.old }
        requires inside { 0 < length self.old.outer.items }
        ensures ok { IfOk result (λ had.
            TakesIn had self.old self.new (key_token (cow_str_bytes name.entry))) }
        ensures err { OnlyNoMemory result }
    {
        if self.in_row(name.as_str()) {
            return Ok(true);
        }
        let front = front_number(name.as_str());
        let added = self.many.insert((front, name))?;
        Ok(!added)
    }

    // Returns whether the innermost container has the name, which has no escapes. If not, the name
    // goes into the list of its container if that has room, and else into the set.
    fn take_plain(&mut self, name: &'a str) -> Result<bool>
        requires some { HasSomeNames self.old }
        requires inside { 0 < length self.old.outer.items }
        ensures ok { IfOk result (λ had. TakesIn had self.old self.new (key_token name.now)) }
        ensures err { OnlyNoMemory result }
    {
        if self.few.len() - self.start >= FEW {
            return self.take_into_set(CowStr::Borrowed(name));
        }
        if self.has(name) {
            return Ok(true);
        }
        self.few.push(name)?;
        Ok(false)
    }

    // Returns whether the innermost container has the name, which has escapes. If not, the
    // unescaped name goes into the set.
    fn take_escaped(&mut self, name: Span<'_>) -> Result<bool>
        requires some { HasSomeNames self.old }
        requires inside { 0 < length self.old.outer.items }
        requires spelled { (s : List ℕ) × chars name.lossy s name.raw.now }
        ensures ok { IfOk result (λ had. (s : List ℕ) → chars name.entry.lossy s name.entry.raw.now
            → TakesIn had self.old self.new (key_token s)) }
        ensures err { OnlyNoMemory result }
    {
        let mut bytes = Vec::with_capacity(self.alloc, name.raw_len())?;
        name.unescape_into(&mut bytes);
        let name = unsafe { String::from_utf8_unchecked(bytes) };
        self.take_into_set(CowStr::Owned(name))
    }

    /// Adds the next name of the text to those of the innermost object, and returns whether the
    /// object has it already. Fails with `NoMemory` if memory runs out.
    pub fn take_key(&mut self, name: Span<'a>) -> Result<bool>
        requires some { HasSomeNames self.old }
        requires spelled { (s : List ℕ) × chars name.lossy s name.raw.now }
        ensures ok { IfOk result (λ had. (s : List ℕ) → chars name.entry.lossy s name.entry.raw.now
            → TakesIn had self.old self.new (key_token s)) }
        ensures err { OnlyNoMemory result }
    {
        if self.outer.is_empty() {
            return Ok(false);
        }
        match name.plain() {
            Some(text) => self.take_plain(text),
            None => self.take_escaped(name),
        }
    }
}
