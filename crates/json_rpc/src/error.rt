// The errors of JSON-RPC.
ghost use Rattle.std.specs.Prelude.{◌≡◌};
ghost use Rattle.std.specs.Fmt.{signed_decimal};
ghost use Rattle.json_rpc.specs.Responses.{error_code, error_message};

/// An error that a response object carries (JSON-RPC 2.0, section 5.1).
///
/// ```
/// use json_rpc::RpcError;
/// assert_eq!(rt; RpcError::MethodNotFound.code(), -32601);
/// assert_eq!(rt; RpcError::MethodNotFound.message(), "Method not found");
/// ```
#[derive(Clone, Copy, Debug, PartialEq, Eq, Drop)]
pub enum RpcError {
    /// The line is not a JSON text in UTF-8, has more than 1,048,576 bytes, or has more than 254
    /// levels of arrays and objects.
    ParseError,
    /// The value is not a valid request object (section 4), or is an empty array (section 6).
    InvalidRequest,
    /// The method is none of `get`, `set`, `insert`, `push`, `remove`, `patch`, `merge`, `undo` and
    /// `redo`.
    MethodNotFound,
    /// The parameters are not those of the method: one is missing, there is another one, or one does
    /// not have the form that the method requires, as a patch that is not an array of operations
    /// (RFC 6902, sections 3 and 4).
    InvalidParams,
    /// A key or an index of the path or of a pointer, or the one to remove, is not in the document.
    NotFound,
    /// The path, a pointer or the method requires an array or an object, and the value there has
    /// another type.
    TypeUnmatched,
    /// An operation `test` of a patch found another value than its own (RFC 6902, section 4.6).
    TestFailed,
}

impl RpcError {
    /// Returns the `code` of the error object, a negative number such as -32601.
    pub fn code(self) -> i64
        ensures { signed_decimal result ≡ error_code self }
    {
        match self {
            RpcError::ParseError => -32700,
            RpcError::InvalidRequest => -32600,
            RpcError::MethodNotFound => -32601,
            RpcError::InvalidParams => -32602,
            RpcError::NotFound => -32000,
            RpcError::TypeUnmatched => -32001,
            RpcError::TestFailed => -32002,
        }
    }

    /// Returns the `message` of the error object, a short phrase without a full stop.
    pub fn message(self) -> &'static str
        ensures { result.now ≡ error_message self }
    {
        match self {
            RpcError::ParseError => "Parse error",
            RpcError::InvalidRequest => "Invalid Request",
            RpcError::MethodNotFound => "Method not found",
            RpcError::InvalidParams => "Invalid params",
            RpcError::NotFound => "Not found",
            RpcError::TypeUnmatched => "Type unmatched",
            RpcError::TestFailed => "Test failed",
        }
    }
}
