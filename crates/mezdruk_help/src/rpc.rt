// What the program `mezdruk rpc` says of itself.
use crate::usage::{HELP_OPTION, SHORT_HELP_OPTION, SHORT_VERSION_OPTION, Usage, VERSION_OPTION};
use json_command::About;

/// What `--help` or `-h` alone prints.
const HELP: &str = "\
mezdruk rpc serves JSON-RPC 2.0 over one JSON document, which begins as null.
It reads requests from standard input, one line each, and writes each reply as
a line to standard output before it reads the next line. How it begins with the
document of a file is said by `mezdruk --help`.

Usage: mezdruk rpc [OPTION]

Options, at most one:
  -h, --help    print this text
  -V, --version print the version

A line is a request or a batch of requests, at most 1,048,576 bytes and 254
levels. The methods take their params by position, or by these names:
  get     [path]               return the value that the path leads to
  set     [path, value]        put the value where the path leads
  insert  [path, key, value]   put a member into the object there
  push    [path, value]        append an element to the array there
  remove  [path, step]         take a key or the element of an index out
  patch   [patch]              apply a JSON Patch (RFC 6902), all of it or nothing
  merge   [patch]              apply a JSON Merge Patch (RFC 7396)
  undo    []                   take back the last change
  redo    []                   make the change again that was undone last
Those from set to merge return null, undo and redo whether there was a change
to undo or redo. At most 1,000 changes can be undone. For example:
      {\"jsonrpc\": \"2.0\", \"method\": \"set\", \"params\": [[], {\"a\": 1}], \"id\": 1}
      {\"jsonrpc\": \"2.0\", \"method\": \"get\", \"params\": [[\"a\"]], \"id\": 2}

A path is an array of steps, from the root on: a key, or an index from 0.
The path [] is the root. A request without an id has no reply.

Errors in replies:
  -32700  the line is no JSON text, or is too long or too deep
  -32600  the value is no valid request
  -32601  there is no method of this name
  -32602  the params are not those of the method, or have another form, as a
          patch that is no array of operations
  -32000  there is no such key or index
  -32001  a step, a pointer or the method meets a value of another kind
  -32002  an operation test of a patch finds another value

Status:
  0  every line was served
  2  the arguments are not valid
  4  reading failed
  5  writing failed
  6  memory ran out
  7  the input has more than 4,294,967,295 bytes
  8  the arguments could not be read, for example because one is not UTF-8
";

/// What `--version` or `-V` alone prints.
const VERSION: &str = "mezdruk rpc 0.1.0\nRattle logic dac8208d650f15bf\n";

/// The help and the version of the program `mezdruk rpc`.
pub const ABOUT_RPC: About = About {
    help: HELP,
    version: VERSION,
    hint: "Run `mezdruk rpc --help` for usage.\n",
};

/// What the program `mezdruk rpc` accepts on its command line.
pub const USAGE_RPC: Usage = Usage {
    program: "mezdruk rpc",
    about: ABOUT_RPC,
    options: &[
        HELP_OPTION,
        SHORT_HELP_OPTION,
        VERSION_OPTION,
        SHORT_VERSION_OPTION,
    ],
    operand: None,
    missing: None,
};
