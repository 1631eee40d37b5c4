// Events that build a value.
ghost use Rattle.std.specs.Prelude.{◌≡◌, ◌⊎◌, None, Some, false, true, OnOk, IfOk, IfErr, IsErr, option_map, pos, refl};
ghost use Rattle.std.specs.Fmt.{decimal, signed_decimal};
ghost use Rattle.json_grammar.specs.Tree.{Tree, num, null_token, begin, end, key_token};
ghost use Rattle.json_grammar.specs.declared.Kind.TheVariants.{Array as array};
ghost use Rattle.json_io.specs.Errors.{no_memory, out_of_range, OnlyNoMemory};
ghost use Rattle.json_model.specs.Datum.{tree_of_datum as datum_tree};
ghost use Rattle.json_model.specs.Merged.{merged};
ghost use Rattle.json_print.specs.Data.{parts};
ghost use Rattle.json_print.specs.Given.{given, given_integer};
ghost use Rattle.json_value.specs.Denotes.{tree_of};
ghost use Rattle.json_write.specs.Building.{Build, Builds, StopsAs, StopsBuild, StopsMemory, at_start, build_after, build_of, first_refusal, frame_take, is_inside, new_frame, value_added};

use crate::Serialize;
use crate::level::OpenContainer;
use crate::nesting::Nesting;
use json_grammar::Kind;
use json_io::{Error, ErrorCode, Place, Result};
use json_number::RawNumber;
use json_print::Events;
use json_value::{Text, Value};
use std::alloc::Global;
use std::mem;

#[derive(Drop)]
pub(crate) struct ValueBuilder {
    alloc: Global,
    nesting: Nesting,
    // The innermost open container, or what takes the root.
    top: OpenContainer,
    outer: Vec<OpenContainer>,
    failed: Option<Error>,
}

// Returns the error of an integer that lies outside `i64` and `u64`.
fn out_of_range_error() -> Error
    ensures { result ≡ out_of_range }
{
    Error {
        code: ErrorCode::NumberOutOfRange,
        place: Place::None,
    }
}

fn signed_value(n: i128) -> Result<Value>
    ensures ok { IfOk result (λ v. tree_of v ≡ num (signed_decimal n)) }
    ensures inside { OnOk result (is_inside n ≡ true) }
    ensures err { IfErr result (λ e. (e ≡ out_of_range) × (is_inside n ≡ false)) }
{
    if let Ok(unsigned) = u64::try_from(n) {
        return Ok(Value::new_u64(unsigned));
    }
    match i64::try_from(n) {
        Ok(signed) => Ok(Value::new_i64(signed)),
        Err(_) => Err(out_of_range_error()),
    }
}

fn unsigned_value(n: u128) -> Result<Value>
    ensures ok { IfOk result (λ v. tree_of v ≡ num (decimal n)) }
    ensures inside { OnOk result (is_inside (pos n) ≡ true) }
    ensures err { IfErr result (λ e. (e ≡ out_of_range) × (is_inside (pos n) ≡ false)) }
{
    match u64::try_from(n) {
        Ok(unsigned) => Ok(Value::new_u64(unsigned)),
        Err(_) => Err(out_of_range_error()),
    }
}

impl ValueBuilder {
    fn new(alloc: Global) -> ValueBuilder
        ensures start { build_of result ≡ at_start }
        ensures fresh { result.failed ≡ None }
    {
        ValueBuilder {
            alloc,
            nesting: Nesting::new(alloc),
            top: OpenContainer::new(alloc, Kind::Array),
            outer: Vec::new(alloc),
            failed: None,
        }
    }

    // Adds a value to the innermost open container.
    fn place(&mut self, value: Value) -> Result<()>
        ensures { Builds (value_added (tree_of value)) StopsMemory self.old self.new
            (given null_token) result }
    {
        if let Some(error) = self.failed {
            return Err(error);
        }
        self.nesting.finish_value();
        match self.top.take(value) {
            Ok(()) => Ok(()),
            Err(error) => {
                self.failed = Some(error);
                Err(error)
            }
        }
    }

    // Keeps an error, and returns it.
    fn refuse(&mut self, error: Error) -> Result<()>
        ensures err { IsErr result }
        ensures takes { Builds build_after (StopsAs error) self.old self.new
            (given null_token) result }
    {
        if let Some(error) = self.failed {
            return Err(error);
        }
        self.failed = Some(error);
        Err(error)
    }

    fn begin_level(&mut self, kind: Kind) -> Result<()>
        ensures ok { OnOk result (build_of self.new
            ≡ build_after (build_of self.old) (given (begin kind))) }
        ensures err { OnlyNoMemory result }
        ensures failed { self.new.failed ≡ self.old.failed }
    {
        self.nesting.begin(kind)?;
        let outer = mem::replace(&mut self.top, OpenContainer::new(self.alloc, kind));
        self.outer.push(outer)?;
        Ok(())
    }

    fn end_level(&mut self, kind: Kind) -> Result<()>
        ensures ok { OnOk result (build_of self.new
            ≡ build_after (build_of self.old) (given (end kind))) }
        ensures err { OnlyNoMemory result }
        ensures failed { self.new.failed ≡ self.old.failed }
    {
        self.nesting.end(kind);
        let outer = match self.outer.pop() {
            Some(level) => level,
            None => OpenContainer::new(self.alloc, Kind::Array),
        };
        let level = mem::replace(&mut self.top, outer);
        let value = level.into_value(self.alloc)?;
        self.top.take(value)
    }

    fn begin(&mut self, kind: Kind) -> Result<()>
        ensures { Builds build_after StopsMemory self.old self.new (given (begin kind)) result }
    {
        if let Some(error) = self.failed {
            return Err(error);
        }
        match self.begin_level(kind) {
            Ok(()) => Ok(()),
            Err(error) => {
                self.failed = Some(error);
                Err(error)
            }
        }
    }

    fn end(&mut self, kind: Kind) -> Result<()>
        ensures { Builds build_after StopsMemory self.old self.new (given (end kind)) result }
    {
        if let Some(error) = self.failed {
            return Err(error);
        }
        match self.end_level(kind) {
            Ok(()) => Ok(()),
            Err(error) => {
                self.failed = Some(error);
                Err(error)
            }
        }
    }

    // Returns the value that was built.
    fn into_value(self) -> Value
        ensures { (t : Tree) → (build_of self).work.top ≡ frame_take (new_frame array) t
            → tree_of result ≡ t }
    {
        self.top.into_first()
    }
}

impl Events for ValueBuilder {
    ghost State = { Build };

    ghost state = { build_of };

    ghost after = { build_after };

    ghost token_state = { λ b. b.token_state };

    ghost stopped = { StopsBuild };

    ghost failed = { λ b. b.failed };

    ghost moves = { λ s t. refl };

    fn null(&mut self) -> Result<()> {
        self.place(Value::new_null())
    }

    fn boolean(&mut self, b: bool) -> Result<()> {
        self.place(Value::new_bool(b))
    }

    fn int(&mut self, n: i128) -> Result<()> {
        match signed_value(n) {
            Ok(value) => self.place(value),
            Err(error) => self.refuse(error),
        }
    }

    fn uint(&mut self, n: u128) -> Result<()> {
        match unsigned_value(n) {
            Ok(value) => self.place(value),
            Err(error) => self.refuse(error),
        }
    }

    fn raw_number(&mut self, literal: &str) -> Result<()> {
        match RawNumber::new(self.alloc, literal) {
            Ok(number) => self.place(Value::from_raw_number(number)),
            Err(error) => self.refuse(error),
        }
    }

    fn text(&mut self, s: &str) -> Result<()> {
        match Value::copy_str(self.alloc, s) {
            Ok(value) => self.place(value),
            Err(error) => self.refuse(error),
        }
    }

    fn begin_array(&mut self, hint: Option<usize>) -> Result<()> {
        let _ = hint;
        self.begin(Kind::Array)
    }

    fn end_array(&mut self) -> Result<()> {
        self.end(Kind::Array)
    }

    fn begin_object(&mut self, hint: Option<usize>) -> Result<()> {
        let _ = hint;
        self.begin(Kind::Object)
    }

    fn key(&mut self, s: &str) -> Result<()> {
        match Text::copy(self.alloc, s) {
            Ok(key) => {
                if let Some(error) = self.failed {
                    return Err(error);
                }
                self.nesting.key(s);
                self.top.set_key(key);
                Ok(())
            }
            Err(error) => self.refuse(error),
        }
    }

    fn end_object(&mut self) -> Result<()> {
        self.end(Kind::Object)
    }
}

/// Returns the `Value` that `value` is written as. If an object has a key more than once, the last
/// of its values counts, at the place of the first.
///
/// Fails with `NumberOutOfRange` exactly if an integer that is no key lies outside both `i64` and
/// `u64`, and with `SerExpectKeyIsStrOrNum` exactly if a key has no text; if `value` has both, the
/// first of them from the left decides. Fails with `NoMemory` if memory runs out.
pub fn to_value<T: Serialize>(alloc: Global, value: &T) -> Result<Value>
    ensures ok { IfOk result (λ v.
        option_map merged (datum_tree (T.datum value.now)) ≡ Some (tree_of v)) }
    ensures fits { OnOk result (first_refusal (parts (T.datum value.now)) ≡ None) }
    ensures err { IfErr result (λ e. (e ≡ no_memory)
        ⊎ (first_refusal (parts (T.datum value.now)) ≡ Some e)) }
{
    let mut builder = ValueBuilder::new(alloc);
    value.serialize(&mut builder)?;
    Ok(builder.into_value())
}
