// Request objects.
ghost use Rattle.std.specs.Prelude.{◌≡◌, option_map};
ghost use Rattle.json_value.specs.Seen.{seen};
ghost use Rattle.json_rpc.specs.Requests.{are_params, is_id, is_valid, request_of};
ghost use Rattle.json_rpc.specs.Denoted.{request_seen};

use json_doc::JsonType;
use json_value::View;

// A valid request object (JSON-RPC 2.0, section 4). Without an id it is a notification.
#[derive(Clone, Copy)]
pub(crate) struct Request<'a> {
    pub(crate) method: &'a str,
    pub(crate) params: Option<View<'a>>,
    pub(crate) id: Option<View<'a>>,
}

// Returns whether these can be the params of a request.
fn are_params(params: Option<View<'_>>) -> bool
    ensures { result ≡ are_params (option_map seen params.entry) }
{
    match params {
        Some(params) => matches!(params.get_type(), JsonType::Array | JsonType::Object),
        None => true,
    }
}

// Returns whether this can be the id of a request.
fn is_id(id: Option<View<'_>>) -> bool
    ensures { result ≡ is_id (option_map seen id.entry) }
{
    match id {
        Some(id) => matches!(
            id.get_type(),
            JsonType::String | JsonType::Number | JsonType::Null
        ),
        None => true,
    }
}

// Returns whether a request object with these members is valid.
fn is_valid(version: &str, params: Option<View<'_>>, id: Option<View<'_>>) -> bool
    ensures { result ≡ is_valid version.now (option_map seen params.entry)
        (option_map seen id.entry) }
{
    version == "2.0" && are_params(params) && is_id(id)
}

/// Reads a request object (JSON-RPC 2.0, section 4); `None` if it is not valid.
pub(crate) fn read_request(view: View<'_>) -> Option<Request<'_>>
    ensures { option_map request_seen result ≡ request_of (seen view.entry) }
{
    let version = view.get("jsonrpc")?.text()?;
    let method = view.get("method")?.text()?;
    let params = view.get("params");
    let id = view.get("id");
    if is_valid(version, params, id) {
        Some(Request { method, params, id })
    } else {
        None
    }
}
