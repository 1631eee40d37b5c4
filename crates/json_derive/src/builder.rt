// A struct that is read member by member.
ghost use Rattle.std.specs.Prelude.{◌≡◌, ℕ, List, None, Some, OnOk, IfOk, IfErr, IfSome};
ghost use Rattle.json_model.specs.Datum.{Datum, Data, list_datum};
ghost use Rattle.json_io.specs.declared.error.ErrorCode.TheVariants as ErrorCode;
ghost use Rattle.json_data.specs.Reader.{ReadsTree, ReadsNonNull, Misses, StopsReading};
ghost use Rattle.json_data.specs.Reading.{gives};
ghost use Rattle.json_tokens.specs.Refusals.{error_without_place as spec_refusal};
ghost use Rattle.json_tokens.specs.TokensStates.{NotWhole, WantsValue};
ghost use Rattle.json_derive.specs.Fields.{Struct, struct_step, no_members, made_struct, struct_datum, read_struct as spec_read_struct, BuildFails};

use json_data::{Members, read_members, try_read_members};
use json_io::{ErrorCode, Result};
use json_tokens::{InputStr, Tokens, error_without_place};
use std::alloc::Global;

/// The fields of a struct as far as they were read from the members of an object, each of which may
/// still be missing. `tools/make/derive` writes the impls.
///
/// ```
/// use json_data::from_str;
/// use test_samples::account::Customer;
/// let ada = from_str::<Customer>(alloc, "{\"age\": 36, \"name\": \"Ada\"}")?;
/// assert_eq!(rt; (ada.name.as_str(), ada.age), ("Ada", 36));
/// assert!(rt; ada.phones.is_empty());
/// ```
pub trait Builder<S: InputStr>: Sized {
    /// The struct that is built.
    type Built;

    /// The fields of the struct, and whether members of other names are refused.
    ghost shape: { Struct };

    /// What was read so far of each field.
    ghost so_far: { Self → Data };

    /// What the fields of the struct mean as data.
    ghost values: { Self.Built → List Datum };

    /// Creates a builder for which no member was read yet.
    fn new() -> Self
        ensures { so_far result ≡ no_members shape.fields };

    /// Takes the value of the member `name` from `tokens`, and keeps what it reads for the field of
    /// that name. If no field has the name, the value is skipped, or refused if the struct is
    /// strict. All tokens of a refused value were taken. Fails with the refusal, as the source of
    /// tokens does, or with `NoMemory`.
    fn member<T: Tokens<S>>(&mut self, alloc: Global, name: &str, tokens: &mut T) -> Result<()>
        requires { WantsValue (T.state tokens.old) }
        ensures ok { OnOk result (ReadsTree T.taken T.state
            (struct_step shape (list_datum (so_far self.old)) name.now)
            tokens.old tokens.new (gives (list_datum (so_far self.new)))) }
        ensures err { IfErr result (λ e. StopsReading T.taken T.state
            (struct_step shape (list_datum (so_far self.old)) name.now) tokens.old tokens.new e) };

    /// Returns the struct. Fails with `TypeUnmatched` if a member is missing that has to be there,
    /// and with `NoMemory` if memory for a default runs out.
    fn build(self, alloc: Global) -> Result<Self::Built>
        ensures ok { IfOk result (λ v. made_struct shape (list_datum (so_far self))
            ≡ gives (struct_datum shape (values v))) }
        ensures err { IfErr result (λ e.
            BuildFails (made_struct shape (list_datum (so_far self))) e) };
}

// A builder as the members that `read_members` reads.
#[derive(Drop)]
struct Building<B> {
    builder: B,
}

impl<S: InputStr, B: Builder<S>> Members<S> for Building<B> {
    ghost so_far = { λ b. list_datum (B.so_far b.builder) };

    ghost step = { struct_step B.shape };

    fn member<T: Tokens<S>>(&mut self, alloc: Global, name: &str, tokens: &mut T) -> Result<()> {
        self.builder.member(alloc, name, tokens)
    }
}

/// Returns the value of a field whose member has to be there: what `value` holds. Fails with
/// `TypeUnmatched`, without a place, if it is `None`.
pub fn required<V>(value: Option<V>) -> Result<V>
    ensures ok { IfOk result (λ v. value ≡ Some v) }
    ensures err { IfErr result (λ e.
        (e ≡ spec_refusal ErrorCode.TypeUnmatched) × (value ≡ None)) }
{
    match value {
        Some(value) => Ok(value),
        None => Err(error_without_place(ErrorCode::TypeUnmatched)),
    }
}

/// Reads an object and returns the struct that the builder `B` builds of its members. Fails with
/// `TypeUnmatched` if the next value is no object, or if a member is missing that has to be there.
/// If a member is refused (it is no value of its field's type), the rest of the object is taken
/// before its error is returned. Fails as the source of tokens does, or with `NoMemory` if memory
/// runs out.
pub fn read_struct<S: InputStr, B: Builder<S> + Drop, T: Tokens<S>>(
    alloc: Global,
    tokens: &mut T,
) -> Result<B::Built>
    requires { WantsValue (T.state tokens.old) }
    ensures ok { IfOk result (λ v. ReadsTree T.taken T.state (spec_read_struct B.shape)
        tokens.old tokens.new (gives (struct_datum B.shape (B.values v)))) }
    ensures err { IfErr result (λ e.
        StopsReading T.taken T.state (spec_read_struct B.shape) tokens.old tokens.new e) }
{
    let mut members = Building { builder: B::new() };
    match read_members(alloc, &mut members, tokens) {
        Ok(()) => {}
        Err(error) => return Err(error),
    }
    let Building { builder } = members;
    match builder.build(alloc) {
        Ok(built) => Ok(built),
        Err(error) => Err(error),
    }
}

/// Reads a struct as [`read_struct`] does if the fast path [`Tokens::begins`] of the source finds
/// the beginning of an object. Otherwise returns `None` and takes nothing. Fails as [`read_struct`]
/// does.
pub fn try_read_struct<S: InputStr, B: Builder<S> + Drop, T: Tokens<S>>(
    alloc: Global,
    tokens: &mut T,
) -> Result<Option<B::Built>>
    requires { NotWhole (T.state tokens.old) }
    ensures none { IfOk result (λ o. o ≡ None → tokens.new ≡ tokens.old) }
    ensures ok { IfOk result (λ o. IfSome o (λ v.
        ReadsNonNull T.taken T.state (spec_read_struct B.shape)
        tokens.old tokens.new (gives (struct_datum B.shape (B.values v))))) }
    ensures err { IfErr result (λ e.
        Misses T.taken T.state (spec_read_struct B.shape) tokens.old tokens.new e) }
{
    let mut members = Building { builder: B::new() };
    match try_read_members(alloc, &mut members, tokens) {
        Ok(true) => {}
        Ok(false) => return Ok(None),
        Err(error) => return Err(error),
    }
    let Building { builder } = members;
    match builder.build(alloc) {
        Ok(built) => Ok(Some(built)),
        Err(error) => Err(error),
    }
}
