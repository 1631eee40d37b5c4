// Objects as types of a program's own.
ghost use Rattle.std.specs.Prelude.{◌≡◌, ℕ, List, true, false, OnOk, IfOk, IfErr};
ghost use Rattle.json_grammar.specs.declared.Kind.TheVariants.{Object as object};
ghost use Rattle.json_grammar.specs.Tree.{Tree, begin as begin_token};
ghost use Rattle.json_model.specs.Datum.{Datum};
ghost use Rattle.json_data.specs.Members.{read_members as spec_read_members};
ghost use Rattle.json_tokens.specs.Pieces.{Says};
ghost use Rattle.json_data.specs.Reader.{ReadsTree, ReadsNonNull, Misses, StopsReading};
ghost use Rattle.json_data.specs.Reading.{Reading, gives};
ghost use Rattle.json_tokens.specs.ExpectedTokens.{InObject};
ghost use Rattle.json_tokens.specs.TokensStates.{NotWhole, WantsValue, TakesOne};

use crate::brackets::open_container;
use crate::keys::next_name;
use crate::readers::leave_after;
use json_grammar::Kind;
use json_io::Result;
use json_tokens::{InputStr, Piece, Tokens};
use std::alloc::Global;

/// What was read so far of an object, for [`read_members`]: a type that takes the members one after
/// another.
///
/// ```
/// use json_data::{InputStr, Members, TextTokens, Tokens, read_members};
/// #[derive(Drop)]
/// struct Count(u64);
/// impl<S: InputStr> Members<S> for Count {
///     ghost use Rattle.json_model.specs.Datum.{null_datum};
///     ghost use Rattle.json_data.specs.Reading.{gives};
///     ghost so_far = { λ _. null_datum };
///     ghost step = { λ _ _ _. gives null_datum };
///     fn member<T: Tokens<S>>(
///         &mut self,
///         _: Global,
///         _: &str,
///         tokens: &mut T,
///     ) -> json_text::Result<()> {
///         self.0 = self.0.wrapping_add(1);
///         tokens.skip()
///     }
/// }
/// let mut count = Count(0);
/// let mut tokens = TextTokens::new("{\"a\": 1, \"b\": [2]}");
/// read_members(alloc, &mut count, &mut tokens)?;
/// assert_eq!(rt; count.0, 2);
/// ```
pub trait Members<S: InputStr>: Sized {
    /// What the members that were read so far mean as data.
    ghost so_far: { Self → Datum };

    /// What is read once one more member was taken, given what was read so far, the name and the
    /// value: a datum, or the code of the error that refuses the member.
    ghost step: { Datum → List ℕ → Tree → Reading };

    /// Takes the value of the member `name` from `tokens`: reads it, or skips it if the name is
    /// unknown. If it is refused, all its tokens were taken.
    fn member<T: Tokens<S>>(&mut self, alloc: Global, name: &str, tokens: &mut T) -> Result<()>
        requires { WantsValue (T.state tokens.old) }
        ensures ok { OnOk result (ReadsTree T.taken T.state (step (so_far self.old) name.now)
            tokens.old tokens.new (gives (so_far self.new))) }
        ensures err { IfErr result (λ e.
            StopsReading T.taken T.state
            (step (so_far self.old) name.now) tokens.old tokens.new e) };
}

// Takes the value of the member whose name a piece says.
#[inline(always)]
fn read_member<S: InputStr, M: Members<S>, T: Tokens<S>>(
    alloc: Global,
    members: &mut M,
    key: Piece<S>,
    tokens: &mut T,
) -> Result<()>
    requires { WantsValue (T.state tokens.old) }
    ensures ok { (s : List ℕ) → Says s key.escaped (S.bytes key.text)
        → OnOk result (ReadsTree T.taken T.state (M.step (M.so_far members.old) s)
        tokens.old tokens.new (gives (M.so_far members.new))) }
    ensures err { (s : List ℕ) → Says s key.escaped (S.bytes key.text)
        → IfErr result (λ e.
        StopsReading T.taken T.state (M.step (M.so_far members.old) s) tokens.old tokens.new e) }
{
    let name = key.to_text(alloc)?;
    members.member(alloc, name.as_str(), tokens)
}

// Takes what is left of an object whose beginning was taken, each member in its order.
#[inline(never)]
fn read_rest<S: InputStr, M: Members<S>, T: Tokens<S>>(
    alloc: Global,
    members: &mut M,
    tokens: &mut T,
) -> Result<()>
    requires { InObject (T.state tokens.old).expected }
    ensures ok { (a : T) → TakesOne T.taken T.state a tokens.old (begin_token object)
        → OnOk result (ReadsNonNull T.taken T.state
        (spec_read_members M.step (M.so_far members.old))
        a tokens.new (gives (M.so_far members.new))) }
    ensures err { (a : T) → TakesOne T.taken T.state a tokens.old (begin_token object)
        → IfErr result (λ e. Misses T.taken T.state
        (spec_read_members M.step (M.so_far members.old)) a tokens.new e) }
{
    'each: loop {
        let key = match next_name(tokens)? {
            Some(key) => key,
            None => return Ok(()),
        };
        match read_member(alloc, members, key, tokens) {
            Ok(()) => {}
            Err(e) => return Err(leave_after(tokens, e)),
        }
    }
}

/// Reads an object: passes each member to `members`, in the order of the text. Fails with
/// `TypeUnmatched` if the next value is no object. If a member is refused, the rest of the object
/// is taken before its error is returned. Fails with `NoMemory` if a name with escapes cannot be
/// copied, and otherwise as the source of tokens does.
#[inline(always)]
pub fn read_members<S: InputStr, M: Members<S>, T: Tokens<S>>(
    alloc: Global,
    members: &mut M,
    tokens: &mut T,
) -> Result<()>
    requires { WantsValue (T.state tokens.old) }
    ensures ok { OnOk result
        (ReadsTree T.taken T.state (spec_read_members M.step (M.so_far members.old))
        tokens.old tokens.new (gives (M.so_far members.new))) }
    ensures err { IfErr result (λ e. StopsReading T.taken T.state
        (spec_read_members M.step (M.so_far members.old)) tokens.old tokens.new e) }
{
    open_container(tokens, Kind::Object)?;
    read_rest(alloc, members, tokens)
}

/// Reads an object as [`read_members`] does if the fast path [`Tokens::begins`] of the source finds
/// its beginning. Returns whether an object was read. If not, nothing was taken and `members` is as
/// it was. Fails as [`read_members`] does.
#[inline(always)]
pub fn try_read_members<S: InputStr, M: Members<S>, T: Tokens<S>>(
    alloc: Global,
    members: &mut M,
    tokens: &mut T,
) -> Result<bool>
    requires { NotWhole (T.state tokens.old) }
    ensures none { IfOk result (λ b. b ≡ false → tokens.new ≡ tokens.old) }
    ensures kept { IfOk result (λ b. b ≡ false → members.new ≡ members.old) }
    ensures ok { IfOk result (λ b. b ≡ true
        → ReadsNonNull T.taken T.state (spec_read_members M.step (M.so_far members.old))
        tokens.old tokens.new (gives (M.so_far members.new))) }
    ensures err { IfErr result (λ e. Misses T.taken T.state
        (spec_read_members M.step (M.so_far members.old)) tokens.old tokens.new e) }
{
    if !tokens.begins(Kind::Object) {
        return Ok(false);
    }
    match read_rest(alloc, members, tokens) {
        Ok(()) => Ok(true),
        Err(e) => Err(e),
    }
}
