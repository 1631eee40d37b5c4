// The steps of a serializer.
ghost use Rattle.std.specs.Prelude.{◌≡◌, None, Some, true};
ghost use Rattle.json_print.specs.Calls.{boolean_call, null_call, number_call, string_call, unsigned_call};
ghost use Rattle.json_print.specs.Closing.{closed};
ghost use Rattle.json_print.specs.Parts.{meaning};
ghost use Rattle.json_print.specs.Printer.{emptied, emptied_in, filed_in, is_first, key_kept, key_written, keyed, layered_in, members_put, no_layer, opened_up, took_begin, took_end, took_key, took_scalar, value_begun, value_ended};
ghost use Rattle.json_print.specs.Rows.{IsOrderOf, members_written};
ghost use Rattle.json_print.specs.Serializing.{StepsBy, out_of};

use super::{Serializer, SerializerFailed, SerializerResult};
use crate::order::Numbered;
use crate::part::Part;
use crate::sorted::{SortedObject, put_rows};
use crate::{ExpectedEvent, Formatter};
use json_grammar::Kind;
use json_io::{Error, ErrorCode, Sink};

#[inline(always)]
fn first_key(turn: ExpectedEvent) -> bool
    ensures { result ≡ is_first turn }
{
    match turn {
        ExpectedEvent::Key(first) => first,
        _ => true,
    }
}

impl<W: Sink, F: Formatter> Serializer<W, F> {
    // What is written before a value, where members wait.
    #[inline(never)]
    fn value_begin(&mut self) -> SerializerResult
        requires { self.old.failed ≡ None }
        ensures { StepsBy W.state self.old self.new (value_begun F.form) result }
    {
        match self.turn {
            ExpectedEvent::Value | ExpectedEvent::Key(_) | ExpectedEvent::Done => Ok(()),
            ExpectedEvent::Element(first) => self.call_waiting(Part::BeginElement(first)),
            ExpectedEvent::Member if self.sorts => Ok(()),
            ExpectedEvent::Member => self.call_waiting(Part::BeginMember),
        }
    }

    // The open member of the innermost object is finished.
    #[inline(never)]
    fn file(&mut self) -> SerializerResult
        requires { self.old.failed ≡ None }
        ensures { StepsBy W.state self.old self.new filed_in result }
    {
        match self.objects.last_mut() {
            None => Ok(()),
            Some(object) => match object.file() {
                Ok(()) => Ok(()),
                Err(error) => Err(self.halt(error)),
            },
        }
    }

    // What is written after a value, where members wait.
    #[inline(never)]
    fn value_end(&mut self) -> SerializerResult
        requires { self.old.failed ≡ None }
        ensures { StepsBy W.state self.old self.new (value_ended F.form) result }
    {
        match self.opened.last() {
            None => {
                self.turn = ExpectedEvent::Done;
                Ok(())
            }
            Some(Kind::Array) => {
                self.turn = ExpectedEvent::Element(false);
                self.call_waiting(Part::EndElement)
            }
            Some(Kind::Object) => {
                self.turn = ExpectedEvent::Key(false);
                if self.sorts {
                    self.file()
                } else {
                    self.call_waiting(Part::EndMember)
                }
            }
        }
    }

    // A scalar where members wait.
    #[inline(never)]
    fn scalar_waiting(&mut self, part: Part<'_>) -> SerializerResult
        requires { self.old.failed ≡ None }
        ensures { StepsBy W.state self.old self.new
            (λ s. took_scalar F.form s (meaning part.entry)) result }
    {
        self.value_begin()?;
        self.call_waiting(part)?;
        self.value_end()
    }

    // A string where members wait.
    #[inline(never)]
    fn string_waiting(&mut self, text: &str) -> SerializerResult
        requires { self.old.failed ≡ None }
        ensures { StepsBy W.state self.old self.new
            (λ s. took_scalar F.form s (string_call true text.now)) result }
    {
        self.scalar_waiting(Part::Text(text))
    }

    // The scalars, each out of line: what is in line where tokens are given stays small.
    #[inline(never)]
    pub(super) fn null_value(&mut self) -> SerializerResult
        requires { self.old.failed ≡ None }
        ensures { StepsBy W.state self.old self.new
            (λ s. took_scalar F.form s null_call) result }
    {
        if !self.objects.is_empty() {
            return self.scalar_waiting(Part::Null);
        }
        self.value_begin_straight()?;
        self.null_straight()?;
        self.value_end_straight()
    }

    #[inline(never)]
    pub(super) fn boolean_value(&mut self, b: bool) -> SerializerResult
        requires { self.old.failed ≡ None }
        ensures { StepsBy W.state self.old self.new
            (λ s. took_scalar F.form s (boolean_call b)) result }
    {
        if !self.objects.is_empty() {
            return self.scalar_waiting(Part::Bool(b));
        }
        self.value_begin_straight()?;
        self.boolean_straight(b)?;
        self.value_end_straight()
    }

    #[inline(never)]
    pub(super) fn scalar(&mut self, part: Part<'_>) -> SerializerResult
        requires { self.old.failed ≡ None }
        ensures { StepsBy W.state self.old self.new
            (λ s. took_scalar F.form s (meaning part.entry)) result }
    {
        if !self.objects.is_empty() {
            return self.scalar_waiting(part);
        }
        self.value_begin_straight()?;
        self.part_straight(part)?;
        self.value_end_straight()
    }

    #[inline(never)]
    pub(super) fn unsigned(&mut self, n: u128) -> SerializerResult
        requires { self.old.failed ≡ None }
        ensures { StepsBy W.state self.old self.new
            (λ s. took_scalar F.form s (unsigned_call n)) result }
    {
        if !self.objects.is_empty() {
            return self.scalar_waiting(Part::Uint(n));
        }
        self.value_begin_straight()?;
        self.unsigned_straight(n)?;
        self.value_end_straight()
    }

    #[inline(never)]
    pub(super) fn number(&mut self, literal: &str) -> SerializerResult
        requires { self.old.failed ≡ None }
        ensures { StepsBy W.state self.old self.new
            (λ s. took_scalar F.form s (number_call literal.now)) result }
    {
        if !self.objects.is_empty() {
            return self.scalar_waiting(Part::Number(literal));
        }
        self.value_begin_straight()?;
        self.number_straight(literal)?;
        self.value_end_straight()
    }

    #[inline(never)]
    pub(super) fn string(&mut self, text: &str) -> SerializerResult
        requires { self.old.failed ≡ None }
        ensures { StepsBy W.state self.old self.new
            (λ s. took_scalar F.form s (string_call true text.now)) result }
    {
        if !self.objects.is_empty() {
            return self.string_waiting(text);
        }
        self.value_begin_straight()?;
        self.text_straight(text)?;
        self.value_end_straight()
    }

    // An object without members, in memory that was used before where there is some.
    fn empty_object(&mut self) -> SortedObject
        ensures empty { result ≡ no_layer }
        ensures state { out_of W.state self.new ≡ out_of W.state self.old }
        ensures failed { self.new.failed ≡ self.old.failed }
    {
        match self.spare.pop() {
            None => SortedObject::new(self.alloc),
            Some(mut object) => {
                object.clear();
                object
            }
        }
    }

    // Puts an object on those whose members wait.
    #[inline(never)]
    fn open_object(&mut self) -> SerializerResult
        requires { self.old.failed ≡ None }
        ensures { StepsBy W.state self.old self.new layered_in result }
    {
        let object = self.empty_object();
        match self.objects.push(object) {
            Ok(()) => Ok(()),
            Err(error) => Err(self.halt(Error::from(error))),
        }
    }

    // Puts a container on those that are open.
    #[inline(always)]
    fn open(&mut self, kind: Kind) -> SerializerResult
        requires { self.old.failed ≡ None }
        ensures { StepsBy W.state self.old self.new (λ s. opened_up s kind) result }
    {
        match self.opened.push(kind) {
            Ok(()) => {}
            Err(_) => return Err(self.halt_by(ErrorCode::NoMemory)),
        }
        match kind {
            Kind::Array => {
                self.turn = ExpectedEvent::Element(true);
                Ok(())
            }
            Kind::Object => {
                self.turn = ExpectedEvent::Key(true);
                if self.sorts {
                    self.open_object()
                } else {
                    Ok(())
                }
            }
        }
    }

    // The beginning of a container where members wait.
    #[inline(never)]
    fn begin_waiting(&mut self, kind: Kind) -> SerializerResult
        requires { self.old.failed ≡ None }
        ensures { StepsBy W.state self.old self.new (λ s. took_begin F.form s kind) result }
    {
        self.value_begin()?;
        self.call_waiting(Part::Begin(kind))?;
        self.open(kind)
    }

    #[inline(never)]
    pub(super) fn begin(&mut self, kind: Kind) -> SerializerResult
        requires { self.old.failed ≡ None }
        ensures { StepsBy W.state self.old self.new (λ s. took_begin F.form s kind) result }
    {
        if !self.objects.is_empty() {
            return self.begin_waiting(kind);
        }
        self.value_begin_straight()?;
        self.begin_straight(kind)?;
        self.open(kind)
    }

    // The rows of an object in this order.
    fn put_in_order(&mut self, object: &SortedObject, order: &[Numbered<'_>]) -> SerializerResult
        requires goes { self.old.failed ≡ None }
        requires order { IsOrderOf order.now object.now.rows }
        ensures { StepsBy W.state self.old self.new (members_written F.form object.now) result }
    {
        match self.objects.last_mut() {
            None => match put_rows(&mut self.formatter, &mut self.writer, object, order) {
                Ok(()) => Ok(()),
                Err(error) => Err(self.halt(error)),
            },
            Some(outer) => match outer.take_rows(&mut self.formatter, object, order) {
                Ok(()) => Ok(()),
                Err(error) => Err(self.halt(error)),
            },
        }
    }

    // The rows of an object in the order of their keys.
    fn put_object(&mut self, object: &SortedObject) -> SerializerResult
        requires { self.old.failed ≡ None }
        ensures { StepsBy W.state self.old self.new (members_put F.form object.now) result }
    {
        match object.in_order(self.alloc) {
            Ok(order) => self.put_in_order(object, &order),
            Err(error) => Err(self.halt(error)),
        }
    }

    // The members of the innermost object in their order.
    #[inline(never)]
    fn put_members(&mut self) -> SerializerResult
        requires { self.old.failed ≡ None }
        ensures { StepsBy W.state self.old self.new (emptied_in F.form) result }
    {
        match self.objects.pop() {
            None => Ok(()),
            Some(object) => {
                let went = self.put_object(&object);
                let _ = self.spare.push(object);
                went
            }
        }
    }

    // What is written before the end of a container.
    #[inline(always)]
    fn empty(&mut self, kind: Kind) -> SerializerResult
        requires { self.old.failed ≡ None }
        ensures { StepsBy W.state self.old self.new (λ s. emptied F.form s kind) result }
    {
        match kind {
            Kind::Array => Ok(()),
            Kind::Object => {
                if self.sorts {
                    self.put_members()
                } else {
                    Ok(())
                }
            }
        }
    }

    // The end of a container after its members, where members wait around it.
    #[inline(never)]
    fn close_waiting(&mut self, kind: Kind) -> SerializerResult
        requires { self.old.failed ≡ None }
        ensures { StepsBy W.state self.old self.new (λ s. closed F.form s kind) result }
    {
        self.call_waiting(Part::End(kind))?;
        let _ = self.opened.pop();
        self.value_end()
    }

    // The end of a container after its members.
    #[inline(always)]
    fn close(&mut self, kind: Kind) -> SerializerResult
        requires { self.old.failed ≡ None }
        ensures { StepsBy W.state self.old self.new (λ s. closed F.form s kind) result }
    {
        if !self.objects.is_empty() {
            return self.close_waiting(kind);
        }
        self.end_straight(kind)?;
        let _ = self.opened.pop();
        self.value_end_straight()
    }

    #[inline(never)]
    pub(super) fn end(&mut self, kind: Kind) -> SerializerResult
        requires { self.old.failed ≡ None }
        ensures { StepsBy W.state self.old self.new (λ s. took_end F.form s kind) result }
    {
        self.empty(kind)?;
        self.close(kind)
    }

    // The key of the open member of the innermost object.
    #[inline(never)]
    fn keep_key(&mut self, key: &str) -> SerializerResult
        requires { self.old.failed ≡ None }
        ensures { StepsBy W.state self.old self.new (λ s. key_kept s key.now) result }
    {
        match self.objects.last_mut() {
            None => Ok(()),
            Some(object) => match object.push_key(key) {
                Ok(()) => Ok(()),
                Err(error) => Err(self.halt(error)),
            },
        }
    }

    // A key and what is written around it, where members wait.
    #[inline(never)]
    fn key_waiting(&mut self, key: &str) -> SerializerResult
        requires { self.old.failed ≡ None }
        ensures { StepsBy W.state self.old self.new (λ s. key_written F.form s key.now) result }
    {
        let first = first_key(self.turn);
        self.call_waiting(Part::BeginKey(first))?;
        self.call_waiting(Part::Text(key))?;
        self.call_waiting(Part::EndKey)
    }

    // A key and what is written around it.
    #[inline(always)]
    fn write_key(&mut self, key: &str) -> SerializerResult
        requires { self.old.failed ≡ None }
        ensures { StepsBy W.state self.old self.new (λ s. key_written F.form s key.now) result }
    {
        if !self.objects.is_empty() {
            return self.key_waiting(key);
        }
        let first = first_key(self.turn);
        self.begin_key_straight(first)?;
        self.text_straight(key)?;
        self.end_key_straight()
    }

    #[inline(always)]
    fn put_key(&mut self, key: &str) -> SerializerResult
        requires { self.old.failed ≡ None }
        ensures { StepsBy W.state self.old self.new (λ s. keyed F.form s key.now) result }
    {
        if self.sorts {
            self.keep_key(key)
        } else {
            self.write_key(key)
        }
    }

    #[inline(never)]
    pub(super) fn key_text(&mut self, key: &str) -> SerializerResult
        requires { self.old.failed ≡ None }
        ensures { StepsBy W.state self.old self.new (λ s. took_key F.form s key.now) result }
    {
        self.put_key(key)?;
        self.turn = ExpectedEvent::Member;
        Ok(())
    }
}
