// What the program `mezdruk lines` says of itself.
use crate::usage::{
    ArgumentForm, HELP_OPTION, MissingGroup, OPERAND_GROUP, OptionForm, OptionValue,
    SHORT_HELP_OPTION, SHORT_VERSION_OPTION, TextArgument, Usage, VERSION_OPTION,
};
use json_command::About;

/// What `--help` or `-h` alone prints.
const HELP: &str = "\
mezdruk lines reads JSON Lines from standard input, one JSON text a line, and
writes a row of cells for each line to standard output.

Usage: mezdruk lines [OPTION..] COLUMNS

COLUMNS is a JSON array of 1 to 64 columns, [path, kind]:
  [path, \"text\"]   the string there, as JSON
  [path, \"int\"]    the integer there, from -2^63 to 2^64 - 1
  [path, \"bool\"]   true or false
  [path, \"json\"]   any value, compact
      mezdruk lines '[[[\"id\"], \"int\"], [[\"user\", \"name\"], \"text\"]]'

A path is an array of steps, from the root on: a key, or an index from 0.
The path [] is the root.

Options, before or after the columns:
  --has=PATH    write a row only where the path leads to a value
      mezdruk lines --has='[\"error\"]' '[[[], \"json\"]]'
  --csv         write CSV (RFC 4180): a header and a record for each row
  --strict      stop at the first bad line
  -h, --help    print this text; given alone
  -V, --version print the version; given alone

The cells of a row are separated by tabs. A cell is - where the path leads to
no value, or to one of another kind. Lines of whitespace are skipped. A line
is bad if it has more than 1048576 bytes, is not UTF-8, or is no JSON text of
at most 254 levels. Its number and its error go to standard error, and the
other lines are filtered all the same. With --strict no line after the first
bad one has a row or an error.

With --csv the cells are separated by commas, and a row ends with CR and LF.
The header names each column by its path, as COLUMNS has it but without
spaces. A string is written as it is, other values as JSON. A cell is between
double quotes if it has a comma, a double quote, CR or LF, or is an empty
string. Where there is no value the cell is empty.

Status:
  0  done
  1  done, or with --strict stopped, and some line is bad
  2  the arguments are not valid
  4  reading failed
  5  writing failed
  6  memory ran out
  7  the input has more than 4294967295 bytes
  8  the arguments could not be read, for example because one is not UTF-8
";

/// What `--version` or `-V` alone prints.
const VERSION: &str = "mezdruk lines 0.1.0\nRattle logic dac8208d650f15bf\n";

/// The help and the version of the program `mezdruk lines`.
pub const ABOUT_LINES: About = About {
    help: HELP,
    version: VERSION,
    hint: "Run `mezdruk lines --help` for usage.\n",
};

/// What the program `mezdruk lines` accepts on its command line.
pub const USAGE_LINES: Usage = Usage {
    program: "mezdruk lines",
    about: ABOUT_LINES,
    options: &[
        OptionForm {
            name: "--has",
            value: OptionValue::Text(TextArgument {
                name: "PATH",
                form: ArgumentForm::Path,
            }),
            group: 1,
        },
        OptionForm {
            name: "--csv",
            value: OptionValue::Nothing,
            group: 2,
        },
        OptionForm {
            name: "--strict",
            value: OptionValue::Nothing,
            group: 3,
        },
        HELP_OPTION,
        SHORT_HELP_OPTION,
        VERSION_OPTION,
        SHORT_VERSION_OPTION,
    ],
    operand: Some(TextArgument {
        name: "COLUMNS",
        form: ArgumentForm::Columns,
    }),
    missing: Some(MissingGroup {
        group: OPERAND_GROUP,
        name: "COLUMNS",
    }),
};
