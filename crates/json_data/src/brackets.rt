// Brackets of lists and objects.
ghost use Rattle.std.specs.Prelude.{OnOk, IfErr};
ghost use Rattle.json_grammar.specs.Tree.{Tree, Token as Tok, begin as begin_token};
ghost use Rattle.json_data.specs.Reader.{StopsReading, RefusesOthers};
ghost use Rattle.json_data.specs.Reading.{Reading};
ghost use Rattle.json_tokens.specs.TokensStates.{NotWhole, WantsValue, TakesOne, FailsWithTokens};

use json_grammar::Kind;
use json_io::{ErrorCode, Result};
use json_tokens::{InputStr, Tokens, begin_kind, error_without_place};

/// Takes the next token.
#[inline(never)]
pub(crate) fn skip_token<S: InputStr, T: Tokens<S>>(tokens: &mut T) -> Result<()>
    requires { NotWhole (T.state tokens.old) }
    ensures ok { OnOk result ((x : Tok) × TakesOne T.taken T.state tokens.old tokens.new x) }
    ensures err { FailsWithTokens (T.state tokens.old) (T.state tokens.new) result }
{
    let _token = tokens.next()?;
    Ok(())
}

/// Takes the opening bracket for `open_container` if the fast path for it did not.
#[inline(never)]
fn open_by_kind<S: InputStr, T: Tokens<S>>(tokens: &mut T, kind: Kind) -> Result<()>
    requires { WantsValue (T.state tokens.old) }
    ensures ok { OnOk result
        (TakesOne T.taken T.state tokens.old tokens.new (begin_token kind)) }
    ensures err { (f : Tree → Reading) → RefusesOthers kind f
        → IfErr result (λ e. StopsReading T.taken T.state f tokens.old tokens.new e) }
{
    if tokens.peek()? != begin_kind(kind) {
        tokens.skip()?;
        return Err(error_without_place(ErrorCode::TypeUnmatched));
    }
    let _begin = tokens.next()?;
    Ok(())
}

/// Takes the bracket that opens a container of the kind. Another value is taken whole and refused.
#[inline(always)]
pub(crate) fn open_container<S: InputStr, T: Tokens<S>>(tokens: &mut T, kind: Kind) -> Result<()>
    requires { WantsValue (T.state tokens.old) }
    ensures ok { OnOk result
        (TakesOne T.taken T.state tokens.old tokens.new (begin_token kind)) }
    ensures err { (f : Tree → Reading) → RefusesOthers kind f
        → IfErr result (λ e. StopsReading T.taken T.state f tokens.old tokens.new e) }
{
    if tokens.begins(kind) {
        return Ok(());
    }
    open_by_kind(tokens, kind)
}
