// What the program `reshape` says of itself.

use crate::usage::{
    ALONE, ArgumentForm, HELP_OPTION, OptionForm, OptionValue, SHORT_HELP_OPTION,
    SHORT_VERSION_OPTION, TextArgument, Usage, VERSION_OPTION,
};
use json_command::About;

/// What `--help` or `-h` alone prints.
const HELP: &str = "\
reshape reads a JSON text from standard input, edits it, and writes it to
standard output.

Usage: reshape [OPTION..] [EDITS]

Options, in any order, each at most once, and one of the first three at most:
  --pretty      indent by two spaces
  --indent=N    indent by N spaces, 0 to 8
  --tabs        indent by a tab
  --sort-keys   sort the members of each object by the bytes of their keys
  --unique-keys refuse input in which an object has two members of one key
  --depth=N     refuse input of more than N levels, 0 to 1024; 254 without it
  --make=N      read nothing; make an array of N records, 0 to 100000, print it
                compact and sorted, and tell the bytes and sums of both; given
                alone
  -h, --help    print this text; given alone
  -V, --version print the version; given alone

EDITS is a JSON array of edits, which are applied in order:
  [\"set\", path, value]           put the value where the path leads
      reshape '[[\"set\", [\"version\"], \"1.2.0\"]]'
  [\"insert\", path, key, value]   put a member into the object there
      reshape '[[\"insert\", [], \"license\", \"MIT\"]]'
  [\"push\", path, value]          append an element to the array there
      reshape '[[\"push\", [\"tags\"], \"new\"]]'
  [\"remove\", path, step]         take a key or the element of an index out
      reshape '[[\"remove\", [\"tags\"], 0]]'

A path is an array of steps, from the root on: a key, or an index from 0.
The path [] is the root.

Status:
  0  done
  1  the input is not valid: too large, not UTF-8, no JSON text, too many
     levels, or a key that repeats where keys have to be unique
  2  the arguments are not valid
  3  an edit does not apply
  4  reading failed
  5  writing failed
  6  memory ran out
  8  the arguments could not be read, for example because one is not UTF-8
";

/// What `--version` or `-V` alone prints.
const VERSION: &str = "reshape 0.1.0\nRattle logic dac8208d650f15bf\n";

/// The help and the version of the program `reshape`.
pub const ABOUT_RESHAPE: About = About {
    help: HELP,
    version: VERSION,
    hint: "Run `reshape --help` for usage.\n",
};

/// What the program `reshape` accepts on its command line.
pub const USAGE_RESHAPE: Usage = Usage {
    program: "reshape",
    about: ABOUT_RESHAPE,
    options: &[
        OptionForm {
            name: "--pretty",
            value: OptionValue::Nothing,
            group: 1,
        },
        OptionForm {
            name: "--indent",
            value: OptionValue::Number(8),
            group: 1,
        },
        OptionForm {
            name: "--tabs",
            value: OptionValue::Nothing,
            group: 1,
        },
        OptionForm {
            name: "--sort-keys",
            value: OptionValue::Nothing,
            group: 2,
        },
        OptionForm {
            name: "--unique-keys",
            value: OptionValue::Nothing,
            group: 3,
        },
        OptionForm {
            name: "--depth",
            value: OptionValue::Number(1_024),
            group: 4,
        },
        OptionForm {
            name: "--make",
            value: OptionValue::Number(100_000),
            group: ALONE,
        },
        HELP_OPTION,
        SHORT_HELP_OPTION,
        VERSION_OPTION,
        SHORT_VERSION_OPTION,
    ],
    operand: Some(TextArgument {
        name: "EDITS",
        form: ArgumentForm::Edits,
    }),
    missing: None,
};
