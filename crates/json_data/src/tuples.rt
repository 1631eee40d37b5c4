// Tuples: arrays of a fixed number of elements.
ghost use Rattle.std.specs.Prelude.{List, [], ◌∷◌, IfOk, IfErr};
ghost use Rattle.json_grammar.specs.declared.Kind.TheVariants.{Array as array};
ghost use Rattle.json_grammar.specs.Tree.{Tree, begin as begin_token};
ghost use Rattle.json_model.specs.Datum.{Datum, list_datum, list_data};
ghost use Rattle.json_tokens.specs.ExpectedTokens.{InArray};
ghost use Rattle.json_tokens.specs.TokensStates.{TakesOne};
ghost use Rattle.json_data.specs.Reading.{Reading, gives, gives_all};
ghost use Rattle.json_data.specs.Reader.{ReadsNonNull, Misses};
ghost use Rattle.json_data.specs.Tuples.{read_tuple, ReadsElements, StopsElements};

use crate::brackets::{open_container, skip_token};
use crate::deserialize::DeserializeFrom;
use crate::readers::{leave_after, next_element};
use json_grammar::Kind;
use json_io::{ErrorCode, Result};
use json_tokens::{InputStr, TokenKind, Tokens, error_without_place};
use std::alloc::Global;

/// The last elements of a tuple, each of a type of its own: a pair of one element and the elements
/// after it, or `()` where there are none.
trait ReadElements<S: InputStr>: Sized {
    /// What each of the elements reads of its tree.
    ghost readings: { List (Tree → Reading) };

    /// What the elements mean.
    ghost datums: { Self → List Datum };

    /// Reads the elements that are left of the innermost open array, and takes its end. Fails with
    /// the error of the first element that is refused, or with `TypeUnmatched` if the array has
    /// fewer or more elements; the rest of the array is taken then. Fails as the source of tokens
    /// does, or with `NoMemory` if memory runs out.
    fn read<T: Tokens<S>>(alloc: Global, tokens: &mut T) -> Result<Self>
        requires { InArray (T.state tokens.old).expected }
        ensures ok { IfOk result (λ p. ReadsElements T.taken T.state readings
            tokens.old tokens.new (gives_all (datums p))) }
        ensures err { IfErr result
            (λ e. StopsElements T.taken T.state readings tokens.old tokens.new e) };
}

impl<S: InputStr> ReadElements<S> for () {
    ghost readings = { [] };

    ghost datums = { λ _. [] };

    #[inline(always)]
    fn read<T: Tokens<S>>(alloc: Global, tokens: &mut T) -> Result<()> {
        let _ = alloc;
        if tokens.ends(Kind::Array) {
            return Ok(());
        }
        if tokens.peek()? != TokenKind::EndArray {
            tokens.leave()?;
            return Err(error_without_place(ErrorCode::TypeUnmatched));
        }
        skip_token(tokens)?;
        Ok(())
    }
}

impl<S: InputStr, A: DeserializeFrom<S> + Drop, R: ReadElements<S>> ReadElements<S> for (A, R) {
    ghost readings = { A.from_tree ∷ R.readings };

    ghost datums = { λ p. A.datum p.0 ∷ R.datums p.1 };

    #[inline(always)]
    fn read<T: Tokens<S>>(alloc: Global, tokens: &mut T) -> Result<(A, R)> {
        let first = match next_element(alloc, tokens) {
            Ok(Some(first)) => first,
            Ok(None) => return Err(error_without_place(ErrorCode::TypeUnmatched)),
            Err(e) => return Err(leave_after(tokens, e)),
        };
        let rest = R::read(alloc, tokens)?;
        Ok((first, rest))
    }
}

/// Reads the elements of an array whose beginning was taken, and takes its end. Fails as
/// `ReadElements::read` does.
#[inline(always)]
fn read_tuple_elements<S: InputStr, P: ReadElements<S>, T: Tokens<S>>(
    alloc: Global,
    tokens: &mut T,
) -> Result<P>
    requires { InArray (T.state tokens.old).expected }
    ensures ok { (a : T) → TakesOne T.taken T.state a tokens.old (begin_token array)
        → IfOk result (λ p. ReadsNonNull T.taken T.state (read_tuple P.readings)
        a tokens.new (gives (list_datum (list_data (P.datums p))))) }
    ensures err { (a : T) → TakesOne T.taken T.state a tokens.old (begin_token array)
        → IfErr result (λ e. Misses T.taken T.state (read_tuple P.readings) a tokens.new e) }
{
    P::read(alloc, tokens)
}

impl<S: InputStr, A: DeserializeFrom<S> + Drop, B: DeserializeFrom<S> + Drop> DeserializeFrom<S>
    for (A, B) {
    ghost datum = { λ p. list_datum (list_data (A.datum p.0 ∷ B.datum p.1 ∷ [])) };

    ghost from_tree = { read_tuple (A.from_tree ∷ B.from_tree ∷ []) };

    fn deserialize<T: Tokens<S>>(alloc: Global, tokens: &mut T) -> Result<(A, B)> {
        open_container(tokens, Kind::Array)?;
        let (first, (second, ())) = read_tuple_elements(alloc, tokens)?;
        Ok((first, second))
    }

    fn try_deserialize<T: Tokens<S>>(alloc: Global, tokens: &mut T) -> Result<Option<(A, B)>> {
        if !tokens.begins(Kind::Array) {
            return Ok(None);
        }
        let (first, (second, ())) = read_tuple_elements(alloc, tokens)?;
        Ok(Some((first, second)))
    }
}

impl<
    S: InputStr,
    A: DeserializeFrom<S> + Drop,
    B: DeserializeFrom<S> + Drop,
    C: DeserializeFrom<S> + Drop,
> DeserializeFrom<S> for (A, B, C) {
    ghost datum = { λ p. list_datum (list_data (A.datum p.0 ∷ B.datum p.1 ∷ C.datum p.2 ∷ [])) };

    ghost from_tree = { read_tuple (A.from_tree ∷ B.from_tree ∷ C.from_tree ∷ []) };

    fn deserialize<T: Tokens<S>>(alloc: Global, tokens: &mut T) -> Result<(A, B, C)> {
        open_container(tokens, Kind::Array)?;
        let (first, (second, (third, ()))) = read_tuple_elements(alloc, tokens)?;
        Ok((first, second, third))
    }

    fn try_deserialize<T: Tokens<S>>(alloc: Global, tokens: &mut T) -> Result<Option<(A, B, C)>> {
        if !tokens.begins(Kind::Array) {
            return Ok(None);
        }
        let (first, (second, (third, ()))) = read_tuple_elements(alloc, tokens)?;
        Ok(Some((first, second, third)))
    }
}

impl<
    S: InputStr,
    A: DeserializeFrom<S> + Drop,
    B: DeserializeFrom<S> + Drop,
    C: DeserializeFrom<S> + Drop,
    D: DeserializeFrom<S> + Drop,
> DeserializeFrom<S> for (A, B, C, D) {
    ghost datum = { λ p. list_datum (list_data (A.datum p.0 ∷ B.datum p.1 ∷ C.datum p.2
        ∷ D.datum p.3 ∷ [])) };

    ghost from_tree = { read_tuple (A.from_tree ∷ B.from_tree ∷ C.from_tree ∷ D.from_tree ∷ []) };

    fn deserialize<T: Tokens<S>>(alloc: Global, tokens: &mut T) -> Result<(A, B, C, D)> {
        open_container(tokens, Kind::Array)?;
        let (first, (second, (third, (fourth, ())))) = read_tuple_elements(alloc, tokens)?;
        Ok((first, second, third, fourth))
    }

    fn try_deserialize<T: Tokens<S>>(
        alloc: Global,
        tokens: &mut T,
    ) -> Result<Option<(A, B, C, D)>> {
        if !tokens.begins(Kind::Array) {
            return Ok(None);
        }
        let (first, (second, (third, (fourth, ())))) = read_tuple_elements(alloc, tokens)?;
        Ok(Some((first, second, third, fourth)))
    }
}

impl<
    S: InputStr,
    A: DeserializeFrom<S> + Drop,
    B: DeserializeFrom<S> + Drop,
    C: DeserializeFrom<S> + Drop,
    D: DeserializeFrom<S> + Drop,
    E: DeserializeFrom<S> + Drop,
> DeserializeFrom<S> for (A, B, C, D, E) {
    ghost datum = { λ p. list_datum (list_data (A.datum p.0 ∷ B.datum p.1 ∷ C.datum p.2
        ∷ D.datum p.3 ∷ E.datum p.4 ∷ [])) };

    ghost from_tree = { read_tuple (A.from_tree ∷ B.from_tree ∷ C.from_tree ∷ D.from_tree
        ∷ E.from_tree ∷ []) };

    fn deserialize<T: Tokens<S>>(alloc: Global, tokens: &mut T) -> Result<(A, B, C, D, E)> {
        open_container(tokens, Kind::Array)?;
        let (first, (second, (third, (fourth, (fifth, ()))))) = read_tuple_elements(alloc, tokens)?;
        Ok((first, second, third, fourth, fifth))
    }

    fn try_deserialize<T: Tokens<S>>(
        alloc: Global,
        tokens: &mut T,
    ) -> Result<Option<(A, B, C, D, E)>> {
        if !tokens.begins(Kind::Array) {
            return Ok(None);
        }
        let (first, (second, (third, (fourth, (fifth, ()))))) = read_tuple_elements(alloc, tokens)?;
        Ok(Some((first, second, third, fourth, fifth)))
    }
}

impl<
    S: InputStr,
    A: DeserializeFrom<S> + Drop,
    B: DeserializeFrom<S> + Drop,
    C: DeserializeFrom<S> + Drop,
    D: DeserializeFrom<S> + Drop,
    E: DeserializeFrom<S> + Drop,
    F: DeserializeFrom<S> + Drop,
> DeserializeFrom<S> for (A, B, C, D, E, F) {
    ghost datum = { λ p. list_datum (list_data (A.datum p.0 ∷ B.datum p.1 ∷ C.datum p.2
        ∷ D.datum p.3 ∷ E.datum p.4 ∷ F.datum p.5 ∷ [])) };

    ghost from_tree = { read_tuple (A.from_tree ∷ B.from_tree ∷ C.from_tree ∷ D.from_tree
        ∷ E.from_tree ∷ F.from_tree ∷ []) };

    fn deserialize<T: Tokens<S>>(alloc: Global, tokens: &mut T) -> Result<(A, B, C, D, E, F)> {
        open_container(tokens, Kind::Array)?;
        let (first, (second, (third, (fourth, (fifth, (sixth, ())))))) = read_tuple_elements(
            alloc, tokens,
        )?;
        Ok((first, second, third, fourth, fifth, sixth))
    }

    fn try_deserialize<T: Tokens<S>>(
        alloc: Global,
        tokens: &mut T,
    ) -> Result<Option<(A, B, C, D, E, F)>> {
        if !tokens.begins(Kind::Array) {
            return Ok(None);
        }
        let (first, (second, (third, (fourth, (fifth, (sixth, ())))))) = read_tuple_elements(
            alloc, tokens,
        )?;
        Ok(Some((first, second, third, fourth, fifth, sixth)))
    }
}

impl<
    S: InputStr,
    A: DeserializeFrom<S> + Drop,
    B: DeserializeFrom<S> + Drop,
    C: DeserializeFrom<S> + Drop,
    D: DeserializeFrom<S> + Drop,
    E: DeserializeFrom<S> + Drop,
    F: DeserializeFrom<S> + Drop,
    G: DeserializeFrom<S> + Drop,
> DeserializeFrom<S> for (A, B, C, D, E, F, G) {
    ghost datum = { λ p. list_datum (list_data (A.datum p.0 ∷ B.datum p.1 ∷ C.datum p.2
        ∷ D.datum p.3 ∷ E.datum p.4 ∷ F.datum p.5 ∷ G.datum p.6 ∷ [])) };

    ghost from_tree = { read_tuple (A.from_tree ∷ B.from_tree ∷ C.from_tree ∷ D.from_tree
        ∷ E.from_tree ∷ F.from_tree ∷ G.from_tree ∷ []) };

    fn deserialize<T: Tokens<S>>(alloc: Global, tokens: &mut T) -> Result<(A, B, C, D, E, F, G)> {
        open_container(tokens, Kind::Array)?;
        let (first, (second, (third, (fourth, (fifth, (sixth, (seventh, ()))))))) =
            read_tuple_elements(alloc, tokens)?;
        Ok((first, second, third, fourth, fifth, sixth, seventh))
    }

    fn try_deserialize<T: Tokens<S>>(
        alloc: Global,
        tokens: &mut T,
    ) -> Result<Option<(A, B, C, D, E, F, G)>> {
        if !tokens.begins(Kind::Array) {
            return Ok(None);
        }
        let (first, (second, (third, (fourth, (fifth, (sixth, (seventh, ()))))))) =
            read_tuple_elements(alloc, tokens)?;
        Ok(Some((first, second, third, fourth, fifth, sixth, seventh)))
    }
}

impl<
    S: InputStr,
    A: DeserializeFrom<S> + Drop,
    B: DeserializeFrom<S> + Drop,
    C: DeserializeFrom<S> + Drop,
    D: DeserializeFrom<S> + Drop,
    E: DeserializeFrom<S> + Drop,
    F: DeserializeFrom<S> + Drop,
    G: DeserializeFrom<S> + Drop,
    H: DeserializeFrom<S> + Drop,
> DeserializeFrom<S> for (A, B, C, D, E, F, G, H) {
    ghost datum = { λ p. list_datum (list_data (A.datum p.0 ∷ B.datum p.1 ∷ C.datum p.2
        ∷ D.datum p.3 ∷ E.datum p.4 ∷ F.datum p.5 ∷ G.datum p.6 ∷ H.datum p.7 ∷ [])) };

    ghost from_tree = { read_tuple (A.from_tree ∷ B.from_tree ∷ C.from_tree ∷ D.from_tree
        ∷ E.from_tree ∷ F.from_tree ∷ G.from_tree ∷ H.from_tree ∷ []) };

    fn deserialize<T: Tokens<S>>(
        alloc: Global,
        tokens: &mut T,
    ) -> Result<(A, B, C, D, E, F, G, H)> {
        open_container(tokens, Kind::Array)?;
        let (first, (second, (third, (fourth, (fifth, (sixth, (seventh, (eighth, ())))))))) =
            read_tuple_elements(alloc, tokens)?;
        Ok((first, second, third, fourth, fifth, sixth, seventh, eighth))
    }

    fn try_deserialize<T: Tokens<S>>(
        alloc: Global,
        tokens: &mut T,
    ) -> Result<Option<(A, B, C, D, E, F, G, H)>> {
        if !tokens.begins(Kind::Array) {
            return Ok(None);
        }
        let (first, (second, (third, (fourth, (fifth, (sixth, (seventh, (eighth, ())))))))) =
            read_tuple_elements(alloc, tokens)?;
        Ok(Some((first, second, third, fourth, fifth, sixth, seventh, eighth)))
    }
}
