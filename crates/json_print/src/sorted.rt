// An open object whose members wait for its end, to be put in the order of their keys.
ghost use Rattle.std.specs.Prelude.{◌≡◌, ◌<◌, length, slice_get, None, Some, true, false, OnOk, IfOk, ◌^◌, ◌-◌};
ghost use Rattle.json_io.specs.Errors.{OnlyNoMemory};
ghost use Rattle.json_io.specs.Transfer.{Puts};
ghost use Rattle.json_print.specs.Parts.{meaning};
ghost use Rattle.json_print.specs.Printer.{key_more, no_layer, pair_filed, row_with, text_put};
ghost use Rattle.json_print.specs.Rows.{IsOrderOf, key_bytes, key_next, members_bytes, members_next, row_bytes, row_next, value_bytes, value_next};

use crate::Formatter;
use crate::order::{Numbered, sort_pairs};
use crate::part::{Part, write_part};
use json_io::{Result, Sink, SinkError, put_all};
use std::alloc::Global;
use std::marker::Model;

// Bytes in memory.
#[derive(Drop)]
struct Scratch {
    bytes: Vec<u8>,
}

impl Sink for Scratch {
    // No call counts how often memory ran out: the count stays at its last value.
    ghost state = { λ s. record {
      gained = Some s.bytes.items;
      faults = 0;
      lacks = 2 ^ 64 - 1;
      unflushed = false;
      loan = None;
    } };

    #[inline(always)]
    fn write(&mut self, piece: &[u8]) -> std::result::Result<usize, SinkError> {
        match self.bytes.extend_from_slice(piece) {
            Ok(()) => Ok(piece.len()),
            Err(_) => Err(SinkError::NoMemory),
        }
    }

    fn flush(&mut self) -> std::result::Result<(), SinkError> {
        Ok(())
    }
}

// A finished member: the range of its key among the keys, and of its text among the texts.
#[derive(Clone, Copy)]
pub(crate) struct Member {
    key_from: usize,
    key_to: usize,
    text_from: usize,
    text_to: usize,
}

#[derive(Drop)]
pub(crate) struct SortedObject {
    // The unescaped keys, one after the other.
    keys: String,
    // The texts of the values, one after the other.
    texts: Scratch,
    members: Vec<Member>,
    // Where the key and the text of the open member begin.
    key_from: usize,
    text_from: usize,
}

impl Model for SortedObject {
    ghost use Rattle.std.specs.Prelude.{string_bytes};
    ghost use Rattle.json_print.specs.Printer.{Layer};
    ghost use Rattle.json_print.specs.Members.{HoldMembers, layer_of};

    ghost Value = { Layer };

    ghost view = { λ o. layer_of (string_bytes o.keys) o.texts.bytes.items o.members.items
        o.key_from o.text_from };

    ghost invariant = { λ o. HoldMembers (string_bytes o.keys) o.texts.bytes.items o.members.items
        o.key_from o.text_from };
}

impl SortedObject {
    pub(crate) fn new(alloc: Global) -> SortedObject
        ensures { result ≡ no_layer }
    {
        SortedObject {
            keys: String::new(alloc),
            texts: Scratch {
                bytes: Vec::new(alloc),
            },
            members: Vec::new(alloc),
            key_from: 0,
            text_from: 0,
        }
    }

    // Takes all out.
    pub(crate) fn clear(&mut self)
        ensures { self.new ≡ no_layer }
    {
        self.keys.clear();
        self.texts.bytes.clear();
        self.members.clear();
        self.key_from = 0;
        self.text_from = 0;
    }

    // A call of the formatter, into the text of the open member.
    #[inline(never)]
    pub(crate) fn call<F: Formatter>(&mut self, formatter: &mut F, part: Part<'_>) -> Result<()>
        ensures ok { OnOk result (self.new ≡ text_put self.old
            (F.form.piece formatter.old (meaning part.entry))) }
        ensures next { OnOk result (formatter.new ≡
            F.form.next formatter.old (meaning part.entry)) }
        ensures err { OnlyNoMemory result }
    {
        write_part(formatter, &mut self.texts, part)
    }

    // More of the key of the open member.
    pub(crate) fn push_key(&mut self, key: &str) -> Result<()>
        ensures ok { OnOk result (self.new ≡ key_more self.old key.now) }
        ensures err { OnlyNoMemory result }
    {
        self.keys.push_str(key)?;
        Ok(())
    }

    // The open member is finished.
    pub(crate) fn file(&mut self) -> Result<()>
        ensures ok { OnOk result (self.new ≡ pair_filed self.old) }
        ensures err { OnlyNoMemory result }
    {
        let key_to = self.keys.len();
        let text_to = self.texts.bytes.len();
        self.members.push(Member {
            key_from: self.key_from,
            key_to,
            text_from: self.text_from,
            text_to,
        })?;
        self.key_from = key_to;
        self.text_from = text_to;
        Ok(())
    }

    // The key and the text of a finished member.
    fn row(&self, number: usize) -> (&str, &[u8])
        requires { number < length self.now.rows }
        ensures { slice_get self.now.rows number ≡ Some (row_with result.0.now result.1.now) }
    {
        let member = self.members[number];
        let key = &self.keys[member.key_from..member.key_to];
        let text = &self.texts.bytes[member.text_from..member.text_to];
        (key, text)
    }

    // The finished members in the order of their keys.
    pub(crate) fn in_order(&self, alloc: Global) -> Result<Vec<Numbered<'_>>>
        ensures ok { IfOk result (λ order. IsOrderOf order.items self.now.rows) }
        ensures err { OnlyNoMemory result }
    {
        let mut order = Vec::with_capacity(alloc, self.members.len())?;
        for number in 0..self.members.len() {
            let (key, _) = self.row(number);
            order.push(Numbered {
                key: key.as_bytes(),
                number,
            })?;
        }
        sort_pairs(&mut order);
        Ok(order)
    }

    // The rows of an object within, in their order, into the text of the open member.
    #[inline(never)]
    pub(crate) fn take_rows<F: Formatter>(
        &mut self,
        formatter: &mut F,
        object: &SortedObject,
        order: &[Numbered<'_>],
    ) -> Result<()>
        requires { IsOrderOf order.now object.now.rows }
        ensures ok { OnOk result (self.new ≡ text_put self.old
            (members_bytes F.form formatter.old object.now)) }
        ensures next { OnOk result (formatter.new ≡ members_next F.form formatter.old object.now) }
        ensures err { OnlyNoMemory result }
    {
        put_rows(formatter, &mut self.texts, object, order)
    }
}

fn put_key<F: Formatter, W: Sink>(
    formatter: &mut F,
    writer: &mut W,
    first: bool,
    key: &str,
) -> Result<()>
    ensures puts { Puts (W.state writer.old) (W.state writer.new)
        (key_bytes F.form formatter.old first key.now) result }
    ensures next { OnOk result (formatter.new ≡ key_next F.form formatter.old first key.now) }
{
    formatter.begin_object_key(writer, first)?;
    formatter.write_string_fast(writer, key, true)?;
    formatter.end_object_key(writer)
}

fn put_value<F: Formatter, W: Sink>(formatter: &mut F, writer: &mut W, text: &[u8]) -> Result<()>
    ensures puts { Puts (W.state writer.old) (W.state writer.new)
        (value_bytes F.form formatter.old text.now) result }
    ensures next { OnOk result (formatter.new ≡ value_next F.form formatter.old) }
{
    formatter.begin_object_value(writer)?;
    put_all(writer, text)?;
    formatter.end_object_value(writer)
}

fn put_row<F: Formatter, W: Sink>(
    formatter: &mut F,
    writer: &mut W,
    first: bool,
    row: (&str, &[u8]),
) -> Result<()>
    ensures puts { Puts (W.state writer.old) (W.state writer.new)
        (row_bytes F.form formatter.old first (row_with row.entry.0.now row.entry.1.now)) result }
    ensures next { OnOk result (formatter.new ≡
        row_next F.form formatter.old first (row_with row.entry.0.now row.entry.1.now)) }
{
    put_key(formatter, writer, first, row.0)?;
    put_value(formatter, writer, row.1)
}

// The rows of the object in their order.
pub(crate) fn put_rows<F: Formatter, W: Sink>(
    formatter: &mut F,
    writer: &mut W,
    object: &SortedObject,
    order: &[Numbered<'_>],
) -> Result<()>
    requires { IsOrderOf order.now object.now.rows }
    ensures puts { Puts (W.state writer.old) (W.state writer.new)
        (members_bytes F.form formatter.old object.now) result }
    ensures next { OnOk result (formatter.new ≡ members_next F.form formatter.old object.now) }
{
    let mut at = 0;
    'rows: while at < order.len() {
        let row = object.row(order[at].number);
        match put_row(formatter, writer, at == 0, row) {
            Ok(()) => {}
            Err(error) => return Err(error),
        }
        at += 1;
    }
    Ok(())
}
