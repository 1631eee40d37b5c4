// Makes response objects.
ghost use Rattle.std.specs.Prelude.{◌≡◌, IfOk, codes, option_map};
ghost use Rattle.json_grammar.specs.Tree.{text};
ghost use Rattle.json_value.specs.Denotes.{tree_of, pair_of};
ghost use Rattle.json_value.specs.Seen.{seen};
ghost use Rattle.json_rpc.specs.Requests.{version};
ghost use Rattle.json_rpc.specs.Responses.{error_object, response as response_of, result_response, error_response};
ghost use Rattle.json_io.specs.Errors.{OnlyNoMemory};

use crate::error::RpcError;
use json_io::Result;
use json_value::{Object, Pair, Text, Value, View};
use std::alloc::Global;

/// The form in which a response (JSON-RPC 2.0, section 5) is made: a value, or its parts for
/// writing.
pub(crate) trait Respond: Sized + Drop {
    ghost use Rattle.std.specs.Prelude.{◌≡◌, IfOk};
    ghost use Rattle.json_grammar.specs.Tree.{Tree};
    ghost use Rattle.json_value.specs.Denotes.{tree_of};
    ghost use Rattle.json_rpc.specs.Responses.{result_response, error_response};

    /// The response object.
    ghost response: { Self → Tree };

    /// Makes the response that carries a result.
    fn with_result(alloc: Global, outcome: Value, id: Value) -> Result<Self>
        ensures ok { IfOk result (λ r. response r
            ≡ result_response (tree_of outcome) (tree_of id)) }
        ensures only { OnlyNoMemory result };

    /// Makes the response that carries an error.
    fn with_error(alloc: Global, error: RpcError, id: Value) -> Result<Self>
        ensures ok { IfOk result (λ r. response r ≡ error_response error (tree_of id)) }
        ensures only { OnlyNoMemory result };

    /// Makes the reply of the responses to a batch.
    fn of_batch(responses: Value) -> Self
        ensures { response result ≡ tree_of responses };
}

// Returns a member.
fn member(name: &'static str, value: Value) -> Pair
    ensures { pair_of result ≡ (name.now, tree_of value) }
{
    Pair::new(Text::from_static(name), value)
}

// Returns an error object (JSON-RPC 2.0, section 5.1).
fn error_object(alloc: Global, error: RpcError) -> Result<Value>
    ensures ok { IfOk result (λ v. tree_of v ≡ error_object error) }
    ensures only { OnlyNoMemory result }
{
    let mut members = Vec::with_capacity(alloc, 2)?;
    members.push(member("code", Value::new_i64(error.code())))?;
    members.push(member("message", Value::from_static_str(error.message())))?;
    Ok(Object::from_list(members).into_value())
}

// Returns a response object (JSON-RPC 2.0, section 5).
fn response(alloc: Global, name: &'static str, outcome: Value, id: Value) -> Result<Value>
    ensures ok { IfOk result (λ v. tree_of v
        ≡ response_of name.now (tree_of outcome) (tree_of id)) }
    ensures only { OnlyNoMemory result }
{
    let mut members = Vec::with_capacity(alloc, 3)?;
    members.push(member("jsonrpc", Value::from_static_str("2.0")))?;
    members.push(member(name, outcome))?;
    members.push(member("id", id))?;
    Ok(Object::from_list(members).into_value())
}

impl Respond for Value {
    ghost response = { tree_of };

    fn with_result(alloc: Global, outcome: Value, id: Value) -> Result<Value> {
        response(alloc, "result", outcome, id)
    }

    fn with_error(alloc: Global, error: RpcError, id: Value) -> Result<Value> {
        let error = error_object(alloc, error)?;
        response(alloc, "error", error, id)
    }

    fn of_batch(responses: Value) -> Value {
        responses
    }
}

/// Returns the response with the result `outcome`; `None` without an id.
pub(crate) fn result_response<R: Respond>(
    alloc: Global,
    outcome: Value,
    id: Option<View<'_>>,
) -> Result<Option<R>>
    ensures ok { IfOk result (λ o. option_map R.response o
        ≡ option_map (result_response (tree_of outcome)) (option_map seen id.entry)) }
    ensures only { OnlyNoMemory result }
{
    match id {
        Some(id) => {
            let id = id.to_value(alloc)?;
            let reply = R::with_result(alloc, outcome, id)?;
            Ok(Some(reply))
        }
        None => Ok(None),
    }
}

/// Returns the response with an error; `None` without an id.
pub(crate) fn error_response<R: Respond>(
    alloc: Global,
    error: RpcError,
    id: Option<View<'_>>,
) -> Result<Option<R>>
    ensures ok { IfOk result (λ o. option_map R.response o
        ≡ option_map (error_response error) (option_map seen id.entry)) }
    ensures only { OnlyNoMemory result }
{
    match id {
        Some(id) => {
            let id = id.to_value(alloc)?;
            let reply = R::with_error(alloc, error, id)?;
            Ok(Some(reply))
        }
        None => Ok(None),
    }
}
