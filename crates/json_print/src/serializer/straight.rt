// The calls of a formatter where no member waits, straight to the writer.
ghost use Rattle.std.specs.Prelude.{◌≡◌, None, [], true};
ghost use Rattle.json_print.specs.Calls.{begin_call, begin_key, boolean_call, end_call, end_element, end_key, end_member, null_call, number_call, string_call, unsigned_call};
ghost use Rattle.json_print.specs.Parts.{meaning};
ghost use Rattle.json_print.specs.Printer.{call, value_begun, value_ended};
ghost use Rattle.json_print.specs.Serializing.{StepsBy, out_of};

use super::{Serializer, SerializerResult};
use crate::part::{Part, write_part, write_uint};
use crate::{ExpectedEvent, Formatter};
use json_grammar::Kind;
use json_io::Sink;

// A call of the formatter, whose error is kept.
macro_rules! straight {
    ($out:ident, $call:expr) => {
        match $call {
            Ok(()) => Ok(()),
            Err(error) => Err($out.halt_by(error.code)),
        }
    };
}

impl<W: Sink, F: Formatter> Serializer<W, F> {
    #[inline(always)]
    pub(super) fn null_straight(&mut self) -> SerializerResult
        requires goes { self.old.failed ≡ None }
        requires straight { self.old.objects.items ≡ [] }
        ensures steps { StepsBy W.state self.old self.new (λ s. call F.form s null_call) result }
        ensures straight { self.new.objects.items ≡ [] }
    {
        straight!(self, self.formatter.write_null(&mut self.writer))
    }

    #[inline(always)]
    pub(super) fn boolean_straight(&mut self, b: bool) -> SerializerResult
        requires goes { self.old.failed ≡ None }
        requires straight { self.old.objects.items ≡ [] }
        ensures steps { StepsBy W.state self.old self.new (λ s.
            call F.form s (boolean_call b)) result }
        ensures straight { self.new.objects.items ≡ [] }
    {
        straight!(self, self.formatter.write_bool(&mut self.writer, b))
    }

    #[inline(always)]
    pub(super) fn part_straight(&mut self, part: Part<'_>) -> SerializerResult
        requires goes { self.old.failed ≡ None }
        requires straight { self.old.objects.items ≡ [] }
        ensures steps { StepsBy W.state self.old self.new (λ s.
            call F.form s (meaning part.entry)) result }
        ensures straight { self.new.objects.items ≡ [] }
    {
        straight!(
            self,
            write_part(&mut self.formatter, &mut self.writer, part)
        )
    }

    #[inline(always)]
    pub(super) fn unsigned_straight(&mut self, n: u128) -> SerializerResult
        requires goes { self.old.failed ≡ None }
        requires straight { self.old.objects.items ≡ [] }
        ensures steps { StepsBy W.state self.old self.new (λ s.
            call F.form s (unsigned_call n)) result }
        ensures straight { self.new.objects.items ≡ [] }
    {
        straight!(self, write_uint(&mut self.formatter, &mut self.writer, n))
    }

    #[inline(always)]
    pub(super) fn number_straight(&mut self, literal: &str) -> SerializerResult
        requires goes { self.old.failed ≡ None }
        requires straight { self.old.objects.items ≡ [] }
        ensures steps { StepsBy W.state self.old self.new (λ s.
            call F.form s (number_call literal.now)) result }
        ensures straight { self.new.objects.items ≡ [] }
    {
        straight!(
            self,
            self.formatter.write_number_str(&mut self.writer, literal)
        )
    }

    #[inline(always)]
    pub(super) fn text_straight(&mut self, text: &str) -> SerializerResult
        requires goes { self.old.failed ≡ None }
        requires straight { self.old.objects.items ≡ [] }
        ensures steps { StepsBy W.state self.old self.new (λ s.
            call F.form s (string_call true text.now)) result }
        ensures straight { self.new.objects.items ≡ [] }
    {
        straight!(
            self,
            self.formatter
                .write_string_fast(&mut self.writer, text, true)
        )
    }

    #[inline(always)]
    pub(super) fn begin_key_straight(&mut self, first: bool) -> SerializerResult
        requires goes { self.old.failed ≡ None }
        requires straight { self.old.objects.items ≡ [] }
        ensures steps { StepsBy W.state self.old self.new (λ s.
            call F.form s (begin_key first)) result }
        ensures straight { self.new.objects.items ≡ [] }
    {
        straight!(
            self,
            self.formatter.begin_object_key(&mut self.writer, first)
        )
    }

    #[inline(always)]
    pub(super) fn end_key_straight(&mut self) -> SerializerResult
        requires goes { self.old.failed ≡ None }
        requires straight { self.old.objects.items ≡ [] }
        ensures steps { StepsBy W.state self.old self.new (λ s. call F.form s end_key) result }
        ensures straight { self.new.objects.items ≡ [] }
    {
        straight!(self, self.formatter.end_object_key(&mut self.writer))
    }

    #[inline(always)]
    fn end_element_straight(&mut self) -> SerializerResult
        requires goes { self.old.failed ≡ None }
        requires straight { self.old.objects.items ≡ [] }
        ensures steps { StepsBy W.state self.old self.new (λ s. call F.form s end_element) result }
        ensures straight { self.new.objects.items ≡ [] }
    {
        straight!(self, self.formatter.end_array_value(&mut self.writer))
    }

    #[inline(always)]
    fn end_member_straight(&mut self) -> SerializerResult
        requires goes { self.old.failed ≡ None }
        requires straight { self.old.objects.items ≡ [] }
        ensures steps { StepsBy W.state self.old self.new (λ s. call F.form s end_member) result }
        ensures straight { self.new.objects.items ≡ [] }
    {
        straight!(self, self.formatter.end_object_value(&mut self.writer))
    }

    #[inline(always)]
    pub(super) fn begin_straight(&mut self, kind: Kind) -> SerializerResult
        requires goes { self.old.failed ≡ None }
        requires straight { self.old.objects.items ≡ [] }
        ensures { StepsBy W.state self.old self.new (λ s. call F.form s (begin_call kind)) result }
    {
        match kind {
            Kind::Array => straight!(self, self.formatter.begin_array(&mut self.writer)),
            Kind::Object => straight!(self, self.formatter.begin_object(&mut self.writer)),
        }
    }

    #[inline(always)]
    pub(super) fn end_straight(&mut self, kind: Kind) -> SerializerResult
        requires goes { self.old.failed ≡ None }
        requires straight { self.old.objects.items ≡ [] }
        ensures steps { StepsBy W.state self.old self.new
            (λ s. call F.form s (end_call kind)) result }
        ensures straight { self.new.objects.items ≡ [] }
    {
        match kind {
            Kind::Array => straight!(self, self.formatter.end_array(&mut self.writer)),
            Kind::Object => straight!(self, self.formatter.end_object(&mut self.writer)),
        }
    }

    // What is written before a value.
    #[inline(always)]
    pub(super) fn value_begin_straight(&mut self) -> SerializerResult
        requires goes { self.old.failed ≡ None }
        requires straight { self.old.objects.items ≡ [] }
        ensures steps { StepsBy W.state self.old self.new (value_begun F.form) result }
        ensures straight { self.new.objects.items ≡ [] }
    {
        match self.turn {
            ExpectedEvent::Element(first) => {
                straight!(
                    self,
                    self.formatter.begin_array_value(&mut self.writer, first)
                )
            }
            ExpectedEvent::Member if self.sorts => Ok(()),
            ExpectedEvent::Member => straight!(
                self,
                self.formatter.begin_object_value(&mut self.writer)
            ),
            _ => Ok(()),
        }
    }

    // What is written after a value.
    #[inline(always)]
    pub(super) fn value_end_straight(&mut self) -> SerializerResult
        requires goes { self.old.failed ≡ None }
        requires straight { self.old.objects.items ≡ [] }
        ensures { StepsBy W.state self.old self.new (value_ended F.form) result }
    {
        match self.opened.last() {
            None => {
                self.turn = ExpectedEvent::Done;
                Ok(())
            }
            Some(Kind::Array) => {
                self.turn = ExpectedEvent::Element(false);
                self.end_element_straight()
            }
            Some(Kind::Object) => {
                self.turn = ExpectedEvent::Key(false);
                if self.sorts {
                    Ok(())
                } else {
                    self.end_member_straight()
                }
            }
        }
    }
}
