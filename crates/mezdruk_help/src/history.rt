// What the program `mezdruk history` says of itself.
use crate::usage::{
    ArgumentForm, HELP_OPTION, MissingGroup, OPERAND_GROUP, SHORT_HELP_OPTION,
    SHORT_VERSION_OPTION, TextArgument, Usage, VERSION_OPTION,
};
use json_command::About;

/// What `--help` or `-h` alone prints.
const HELP: &str = "\
mezdruk history reads a JSON text from standard input, makes edits, undos and
redos in turn, and writes the value after them to standard output, compact.

Usage: mezdruk history CALLS

CALLS is a JSON array of edits, of [\"undo\"] and of [\"redo\"]:
  [\"set\", path, value]           put the value where the path leads
  [\"insert\", path, key, value]   put a member into the object there
  [\"push\", path, value]          append an element to the array there
  [\"remove\", path, step]         remove the members of a key, or an element
  [\"undo\"]                       undo the latest edit that is not undone
  [\"redo\"]                       redo the edit that was undone last
      mezdruk history '[[\"push\", [], 1], [\"undo\"], [\"redo\"]]'

An edit leaves nothing to redo. An undo with nothing to undo changes nothing,
and so does a redo with nothing to redo.

A path is an array of steps, from the root on: a key, or an index from 0.
The path [] is the root.

Options:
  -h, --help    print this text; given alone
  -V, --version print the version; given alone

Status:
  0  done
  1  the input is not valid: too large, not UTF-8, no JSON text, or more than
     254 levels
  2  the arguments are not valid
  3  an edit does not apply; its number counts all elements of CALLS, from 0
  4  reading failed
  5  writing failed
  6  memory ran out
  8  the arguments could not be read, for example because one is not UTF-8
";

/// What `--version` or `-V` alone prints.
const VERSION: &str = "mezdruk history 0.1.0\nRattle logic dac8208d650f15bf\n";

/// The help and the version of the program `mezdruk history`.
pub const ABOUT_HISTORY: About = About {
    help: HELP,
    version: VERSION,
    hint: "Run `mezdruk history --help` for usage.\n",
};

/// What the program `mezdruk history` accepts on its command line.
pub const USAGE_HISTORY: Usage = Usage {
    program: "mezdruk history",
    about: ABOUT_HISTORY,
    options: &[
        HELP_OPTION,
        SHORT_HELP_OPTION,
        VERSION_OPTION,
        SHORT_VERSION_OPTION,
    ],
    operand: Some(TextArgument {
        name: "CALLS",
        form: ArgumentForm::Calls,
    }),
    missing: Some(MissingGroup {
        group: OPERAND_GROUP,
        name: "CALLS",
    }),
};
