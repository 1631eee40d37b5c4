// What the program `mezdruk` says of itself.

use json_command::About;

/// What `--help` alone prints.
const HELP: &str = "\
mezdruk lays out, checks, reads and edits JSON documents. Without FILE, or for
`-`, it reads standard input. Each document that is written has a newline after
it. Numbers stay as they were written.

Usage: mezdruk COMMAND [OPTION..] [OPERAND..] [FILE..]

Commands:
  fmt                      lay documents out, by two spaces
  check                    print nothing; errors and the status tell
  get PATH                 print the value where the path leads
  keys PATH, length PATH   print the keys of the object there, one a line, or the
                           number of elements or members
  query QUERY              print the values that a JSONPath query (RFC 9535)
                           without filters selects, one a line
  edit EDITS               apply an array of edits in turn
  set PATH VALUE           put a value where the path leads
  insert PATH KEY VALUE    put a member into the object there
  push PATH VALUE          append an element to the array there
  remove PATH STEP         take a key or an index out
  patch PATCH              apply a JSON Patch (RFC 6902)
  merge PATCH              apply a JSON Merge Patch (RFC 7396)
  overlay FILE..           merge the documents of the files after the first into
                           that of the first, one after another
  diff OLD NEW             print the patch from the document of the file OLD to
                           that of NEW; status 1 if the two differ
  reshape, lines, rpc, history
                           run that program on the arguments that follow;
                           `mezdruk lines --help` prints the help of `lines`
  help COMMAND             print the help of a command, as COMMAND --help does

PATH is a JSON Pointer, as /tags/0, or a JSON array of steps, as '[\"tags\", 0]';
KEY is a JSON string, VALUE any JSON text, and STEP a JSON string or an index
from 0:
  mezdruk set /version '\"1.3.0\"' package.json
EDITS are as in `reshape`: '[[\"set\", [\"version\"], \"1.3.0\"]]'.

Options, before COMMAND or after it, in any order, each at most once but for
--path:
  -c, --compact, --pretty, --indent=N, --indent N, --tabs
                           no whitespace; an indent of two spaces, of N spaces,
                           0 to 8, or of a tab; compact where none is given, but
                           for fmt
  -S, --sort-keys          sort the members of each object by their keys
  --unique-keys            refuse an object with two members of one key
  --depth=N                refuse more than N levels, 0 to 1024; 254 without it
  -r, --raw                of get, keys and query: print a string's content
  --path=PATH              of get, any number of times: one more value, on a
                           line of its own
  --count                  of query: print how many values are selected
  -e, --exit-status        of query: status 3 if nothing is selected in any
                           document
  --merge                  of diff: print a merge patch
  --string                 of set, insert and push, before VALUE: take it as a
                           string
  --lines                  each line of the input is a document
  --stream                 documents follow one another; not with --unique-keys
                           and not with --depth=N
  --bom                    skip a byte order mark at the beginning of the input,
                           which is refused without it
  -C, --color, --color=always; --color=auto; -M, --color=never
                           colors for what is printed, but for --raw and -i:
                           always; as without the option, on a terminal where
                           NO_COLOR is empty and TERM is not dumb; never
  -i, --in-place           write each FILE in place, not of check, get, keys,
                           length, query and diff; an edit keeps the layout of
                           the file if no option asks for one
  -v, --verbose            beside -i: say how many of the files were changed
  --document=FILE, --document FILE
                           of rpc: begin with the document of FILE, not null
  --save                   of rpc, beside that: write FILE in place after each
                           change, before its reply, in the layout it has
  --edits=FILE, --patch=FILE, --merge=FILE
                           take EDITS or PATCH from a file, for edit, patch and
                           merge; before operands and files
  --                       after it no argument is an option
  -h, --help, -V, --version
                           print this text or the version; each is given alone

Status: the greatest of those of the documents
  0  done
  1  a document is not valid; of diff: the two differ
  2  the arguments are not valid; of diff: also if a document is not valid
  3  an edit or a patch does not apply; of query: see --exit-status
  4  reading failed
  5  writing failed, or nobody reads the output
  6  memory ran out
  8  the arguments could not be read, for example because one is not UTF-8
";

/// What `--version` alone prints.
const VERSION: &str = "mezdruk 0.1.0\nRattle logic dac8208d650f15bf\n";

/// The help and the version of the program `mezdruk`.
pub const ABOUT_MEZDRUK: About = About {
    help: HELP,
    version: VERSION,
    hint: "Run `mezdruk --help` for usage.\n",
};
