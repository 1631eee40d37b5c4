// What the program `json_patch` says of itself.
use crate::usage::{
    ArgumentForm, HELP_OPTION, MissingGroup, OptionForm, OptionValue, SHORT_HELP_OPTION,
    SHORT_VERSION_OPTION, TextArgument, Usage, VERSION_OPTION,
};
use json_command::About;

/// What `--help` or `-h` alone prints.
const HELP: &str = "\
json_patch reads a JSON text from standard input, changes it by a patch, and
writes it to standard output, compact.

Usage: json_patch --patch=PATCH
       json_patch --merge=PATCH

  --patch=PATCH   apply a JSON Patch (RFC 6902)
      json_patch --patch='[{\"op\": \"remove\", \"path\": \"/tags/0\"}]'
  --merge=PATCH   apply a JSON Merge Patch (RFC 7396)
      json_patch --merge='{\"license\": \"MIT\", \"private\": null}'
  -h, --help      print this text
  -V, --version   print the version

PATCH is a JSON text of at most 254 levels. A JSON Patch is an array of
operations, which are applied in order, all or none:
  {\"op\": \"add\", \"path\": P, \"value\": V}
  {\"op\": \"remove\", \"path\": P}
  {\"op\": \"replace\", \"path\": P, \"value\": V}
  {\"op\": \"move\", \"from\": P, \"path\": P}
  {\"op\": \"copy\", \"from\": P, \"path\": P}
  {\"op\": \"test\", \"path\": P, \"value\": V}
P is a JSON Pointer (RFC 6901), as \"/tags/0\". The pointer \"\" is the root.

Status:
  0  done
  1  the input is not valid: too large, not UTF-8, no JSON text, or too many
     levels
  2  the arguments are not valid
  3  the patch does not apply
  4  reading failed
  5  writing failed
  6  memory ran out
  8  the arguments could not be read, for example because one is not UTF-8
";

/// What `--version` or `-V` alone prints.
const VERSION: &str = "json_patch 0.1.0\nRattle logic dac8208d650f15bf\n";

/// The help and the version of the program `json_patch`.
pub const ABOUT_JSON_PATCH: About = About {
    help: HELP,
    version: VERSION,
    hint: "Run `json_patch --help` for usage.\n",
};

/// What the program `json_patch` accepts on its command line.
pub const USAGE_JSON_PATCH: Usage = Usage {
    program: "json_patch",
    about: ABOUT_JSON_PATCH,
    options: &[
        OptionForm {
            name: "--patch",
            value: OptionValue::Text(TextArgument {
                name: "PATCH",
                form: ArgumentForm::Any,
            }),
            group: 1,
        },
        OptionForm {
            name: "--merge",
            value: OptionValue::Text(TextArgument {
                name: "PATCH",
                form: ArgumentForm::Any,
            }),
            group: 1,
        },
        HELP_OPTION,
        SHORT_HELP_OPTION,
        VERSION_OPTION,
        SHORT_VERSION_OPTION,
    ],
    operand: None,
    missing: Some(MissingGroup {
        group: 1,
        name: "--patch=PATCH or --merge=PATCH",
    }),
};
