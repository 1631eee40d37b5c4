// Maps.
ghost use Rattle.std.specs.Prelude.{IfOk, IfErr, map};
ghost use Rattle.json_grammar.specs.declared.Kind.TheVariants.{Object as object};
ghost use Rattle.json_grammar.specs.Tree.{begin as begin_token};
ghost use Rattle.json_model.specs.Datum.{rows_datum, list_rows, row_of};
ghost use Rattle.json_data.specs.Reader.{ReadsNonNull, Misses};
ghost use Rattle.json_data.specs.Reading.{gives, read_map};
ghost use Rattle.json_tokens.specs.ExpectedTokens.{InObject};
ghost use Rattle.json_tokens.specs.TokensStates.{TakesOne};

use crate::brackets::open_container;
use crate::deserialize::DeserializeFrom;
use crate::keys::{FromKey, next_name};
use crate::readers::leave_after;
use json_grammar::Kind;
use json_io::{ErrorCode, Result};
use json_tokens::{InputStr, Tokens, error_without_place};
use std::alloc::Global;
use std::collections::BTreeMap;

/// Reads the members of a map whose beginning was taken, and takes its end.
#[inline(never)]
fn read_rows<S: InputStr, K: FromKey<S> + Drop, V: DeserializeFrom<S> + Drop, T: Tokens<S>>(
    alloc: Global,
    tokens: &mut T,
) -> Result<BTreeMap<K, V>>
    requires { InObject (T.state tokens.old).expected }
    ensures ok { (a : T) → TakesOne T.taken T.state a tokens.old (begin_token object)
        → IfOk result (λ m. ReadsNonNull T.taken T.state
        (read_map K.from_text V.from_tree) a tokens.new
        (gives (rows_datum (list_rows (map (row_of K.key_datum V.datum) m.entries))))) }
    ensures err { (a : T) → TakesOne T.taken T.state a tokens.old (begin_token object)
        → IfErr result (λ e.
        Misses T.taken T.state (read_map K.from_text V.from_tree) a tokens.new e) }
{
    let mut all = BTreeMap::new(alloc);
    'each: loop {
        let piece = match next_name(tokens)? {
            Some(piece) => piece,
            None => return Ok(all),
        };
        let key = match K::from_key(alloc, &piece) {
            Ok(key) => key,
            Err(e) => return Err(leave_after(tokens, e)),
        };
        match V::deserialize(alloc, tokens) {
            Ok(item) => {
                if all.insert(key, item).is_err() {
                    return Err(error_without_place(ErrorCode::NoMemory));
                }
            }
            Err(e) => return Err(leave_after(tokens, e)),
        }
    }
}

impl<S: InputStr, K: FromKey<S> + Drop, V: DeserializeFrom<S> + Drop> DeserializeFrom<S>
    for BTreeMap<K, V> {
    ghost datum = { λ m. rows_datum (list_rows (map (row_of K.key_datum V.datum) m.entries)) };

    ghost from_tree = { read_map K.from_text V.from_tree };

    fn deserialize<T: Tokens<S>>(alloc: Global, tokens: &mut T) -> Result<BTreeMap<K, V>> {
        open_container(tokens, Kind::Object)?;
        read_rows(alloc, tokens)
    }

    fn try_deserialize<T: Tokens<S>>(
        alloc: Global,
        tokens: &mut T,
    ) -> Result<Option<BTreeMap<K, V>>> {
        if !tokens.begins(Kind::Object) {
            return Ok(None);
        }
        match read_rows(alloc, tokens) {
            Ok(all) => Ok(Some(all)),
            Err(e) => Err(e),
        }
    }
}
