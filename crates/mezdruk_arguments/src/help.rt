// The help of each command.
ghost use Rattle.std.specs.Prelude.{◌≡◌};
ghost use Rattle.mezdruk_arguments.specs.Help.{help_asked};

use crate::verb::Verb;
use json_io::Words;

/// Returns the command whose help the arguments ask for. They do if they are the name of a command
/// and one of `--help` and `-h`, and nothing more. Returns `None` for all other arguments.
///
/// ```
/// use mezdruk_arguments::{Verb, help_asked};
/// use json_text::Words;
/// let mut words = Words::new(alloc);
/// words.push("fmt")?;
/// assert_eq!(rt; help_asked(&words), None);
/// words.push("--help")?;
/// assert_eq!(rt; help_asked(&words), Some(Verb::Fmt));
/// assert!(rt; Verb::Fmt.help().starts_with("mezdruk fmt"));
/// ```
pub fn help_asked(words: &Words) -> Option<Verb>
    ensures { result ≡ help_asked words.now }
{
    if words.len() != 2 {
        return None;
    }
    match words.word(1) {
        "--help" | "-h" => Verb::of_word(words.word(0)),
        _ => None,
    }
}

impl Verb {
    /// Returns the text of the command's help: its usage, what it does, its operands, and its
    /// options without those that every command has.
    pub fn help(self) -> &'static str {
        match self {
            Verb::Fmt => FMT,
            Verb::Check => CHECK,
            Verb::Get => GET,
            Verb::Keys => KEYS,
            Verb::Length => LENGTH,
            Verb::Query => QUERY,
            Verb::Edit => EDIT,
            Verb::Set => SET,
            Verb::Insert => INSERT,
            Verb::Push => PUSH,
            Verb::Remove => REMOVE,
            Verb::Patch => PATCH,
            Verb::Merge => MERGE,
            Verb::Diff => DIFF,
            Verb::Overlay => OVERLAY,
        }
    }
}

/// The help of `fmt`.
const FMT: &str = "\
mezdruk fmt [OPTION..] [FILE..]

Lays documents out, by two spaces if no option asks for another layout.

Layouts: -c, --compact; --pretty; --indent=N; --tabs; beside one -S, --sort-keys
Colors:  -C, --color; -M, --color=never; --color=auto
Input:   --unique-keys, --depth=N, --lines, --stream, --bom
Output:  -i, --in-place writes each FILE in place; -v, --verbose says how many

  mezdruk fmt --indent=4 -i package.json
`mezdruk --help` says more of each option.
";

/// The help of `check`.
const CHECK: &str = "\
mezdruk check [OPTION..] [FILE..]

Prints nothing but errors. The status is 1 if a document is not valid.

Input:   --unique-keys, --depth=N, --lines, --stream, --bom

  mezdruk check --unique-keys *.json
`mezdruk --help` says more of each option.
";

/// The help of `get`.
const GET: &str = "\
mezdruk get [OPTION..] PATH [--path=PATH..] [FILE..]

Prints the value at PATH: a JSON Pointer, as /tags/0, or a JSON array of steps,
as '[\"tags\", 0]'. The empty pointer is the whole document.

Paths:   --path=PATH asks for one more value, as often as it is given. Each
         value is printed on a line, in the order of the paths, or none if one
         of them is not there
Layouts: -c, --compact; --pretty; --indent=N; --tabs; beside one -S, --sort-keys
Colors:  -C, --color; -M, --color=never; --color=auto
Input:   --unique-keys, --depth=N, --lines, --stream, --bom
Output:  -r, --raw prints a string's content

  mezdruk get --raw /version package.json
  mezdruk get /name --path=/version package.json
`mezdruk --help` says more of each option.
";

/// The help of `keys`.
const KEYS: &str = "\
mezdruk keys [OPTION..] PATH [FILE..]

Prints the keys of the object at PATH, one a line, in the order of its members:
a JSON Pointer, as /scripts, or a JSON array of steps. The empty pointer is the
whole document.

Layouts: -c, --compact; --pretty; --indent=N; --tabs; beside one -S, --sort-keys
Colors:  -C, --color; -M, --color=never; --color=auto
Input:   --unique-keys, --depth=N, --lines, --stream, --bom
Output:  -r, --raw prints a key's content

  mezdruk keys --raw /scripts package.json
`mezdruk --help` says more of each option.
";

/// The help of `length`.
const LENGTH: &str = "\
mezdruk length [OPTION..] PATH [FILE..]

Prints the number of elements of the array at PATH, or of members of the object
there: a JSON Pointer, as /tags, or a JSON array of steps. The empty pointer is
the whole document.

Layouts: -c, --compact; --pretty; --indent=N; --tabs; beside one -S, --sort-keys
Colors:  -C, --color; -M, --color=never; --color=auto
Input:   --unique-keys, --depth=N, --lines, --stream, --bom

  mezdruk length /tags package.json
`mezdruk --help` says more of each option.
";

/// The help of `query`.
const QUERY: &str = "\
mezdruk query [OPTION..] QUERY [FILE..]

Prints the values that QUERY, a JSONPath query (RFC 9535), selects, one a line:
$ is the document, .name or ['name'] a member, [0] or [-1] an element, [1:3] a
slice, .* or [*] all children, and .. before one of these descends to all that
is below. Filters, [?..], are not supported yet.

Layouts: -c, --compact; --pretty; --indent=N; --tabs; beside one -S, --sort-keys
Colors:  -C, --color; -M, --color=never; --color=auto
Input:   --unique-keys, --depth=N, --lines, --stream, --bom
Output:  -r, --raw prints a string's content; --count prints how many values
         are selected, and not these
Status:  -e, --exit-status makes it 3 if nothing is selected in any document

  mezdruk query '$.dependencies.*' package.json
  mezdruk query --count '$..version' package-lock.json
`mezdruk --help` says more of each option.
";

/// The help of `edit`.
const EDIT: &str = "\
mezdruk edit [OPTION..] EDITS [FILE..]
mezdruk edit [OPTION..] --edits=FILE [FILE..]

Applies a JSON array of edits in turn: [\"set\", path, value],
[\"insert\", path, key, value], [\"push\", path, value] and
[\"remove\", path, step]. A path is an array of steps.

Layouts: -c, --compact; --pretty; --indent=N; --tabs; beside one -S, --sort-keys
Colors:  -C, --color; -M, --color=never; --color=auto
Input:   --unique-keys, --depth=N, --lines, --stream, --bom
Output:  -i, --in-place writes each FILE in place, in the layout that it has
         if no option asks for one; -v, --verbose says how many

  mezdruk edit '[[\"set\", [\"version\"], \"1.3.0\"]]' package.json
`mezdruk --help` says more of each option.
";

/// The help of `set`.
const SET: &str = "\
mezdruk set [OPTION..] PATH VALUE [FILE..]

Puts VALUE, a JSON text, where PATH leads: a JSON Pointer, as /tags/0, or a JSON
array of steps, as '[\"tags\", 0]'. What PATH names has to be there; `insert`
adds a member, and `push` an element.

Value:   --string, before VALUE, takes it as a string: --string Ada
Layouts: -c, --compact; --pretty; --indent=N; --tabs; beside one -S, --sort-keys
Colors:  -C, --color; -M, --color=never; --color=auto
Input:   --unique-keys, --depth=N, --lines, --stream, --bom
Output:  -i, --in-place writes each FILE in place, in the layout that it has
         if no option asks for one; -v, --verbose says how many

  mezdruk set -i /version --string 1.3.0 package.json
`mezdruk --help` says more of each option.
";

/// The help of `insert`.
const INSERT: &str = "\
mezdruk insert [OPTION..] PATH KEY VALUE [FILE..]

Puts VALUE, a JSON text, at the first member of KEY, a JSON string, in the
object where PATH leads, or appends such a member. PATH is a JSON Pointer, as
/scripts, or a JSON array of steps. The empty pointer is the whole document.

Value:   --string, before VALUE, takes it as a string: --string Ada
Layouts: -c, --compact; --pretty; --indent=N; --tabs; beside one -S, --sort-keys
Colors:  -C, --color; -M, --color=never; --color=auto
Input:   --unique-keys, --depth=N, --lines, --stream, --bom
Output:  -i, --in-place writes each FILE in place, in the layout that it has
         if no option asks for one; -v, --verbose says how many

  mezdruk insert '' '\"license\"' --string MIT package.json
`mezdruk --help` says more of each option.
";

/// The help of `push`.
const PUSH: &str = "\
mezdruk push [OPTION..] PATH VALUE [FILE..]

Appends VALUE, a JSON text, to the array where PATH leads: a JSON Pointer, as
/tags, or a JSON array of steps, as '[\"tags\"]'.

Value:   --string, before VALUE, takes it as a string: --string Ada
Layouts: -c, --compact; --pretty; --indent=N; --tabs; beside one -S, --sort-keys
Colors:  -C, --color; -M, --color=never; --color=auto
Input:   --unique-keys, --depth=N, --lines, --stream, --bom
Output:  -i, --in-place writes each FILE in place, in the layout that it has
         if no option asks for one; -v, --verbose says how many

  mezdruk push /tags --string new package.json
`mezdruk --help` says more of each option.
";

/// The help of `remove`.
const REMOVE: &str = "\
mezdruk remove [OPTION..] PATH STEP [FILE..]

Takes all members of a key out of the object where PATH leads, or the element of
an index out of the array there. PATH is a JSON Pointer, as /tags, or a JSON
array of steps; STEP is a JSON string or an index from 0.

Layouts: -c, --compact; --pretty; --indent=N; --tabs; beside one -S, --sort-keys
Colors:  -C, --color; -M, --color=never; --color=auto
Input:   --unique-keys, --depth=N, --lines, --stream, --bom
Output:  -i, --in-place writes each FILE in place, in the layout that it has
         if no option asks for one; -v, --verbose says how many

  mezdruk remove /tags 0 package.json
`mezdruk --help` says more of each option.
";

/// The help of `patch`.
const PATCH: &str = "\
mezdruk patch [OPTION..] PATCH [FILE..]
mezdruk patch [OPTION..] --patch=FILE [FILE..]

Applies a JSON Patch (RFC 6902), all operations or none.

Layouts: -c, --compact; --pretty; --indent=N; --tabs; beside one -S, --sort-keys
Colors:  -C, --color; -M, --color=never; --color=auto
Input:   --unique-keys, --depth=N, --lines, --stream, --bom
Output:  -i, --in-place writes each FILE in place, in the layout that it has
         if no option asks for one; -v, --verbose says how many

  mezdruk patch '[{\"op\": \"remove\", \"path\": \"/tags/0\"}]' package.json
`mezdruk --help` says more of each option.
";

/// The help of `merge`.
const MERGE: &str = "\
mezdruk merge [OPTION..] PATCH [FILE..]
mezdruk merge [OPTION..] --merge=FILE [FILE..]

Applies a JSON Merge Patch (RFC 7396): its members replace those of the same
keys, and null takes one out.

Layouts: -c, --compact; --pretty; --indent=N; --tabs; beside one -S, --sort-keys
Colors:  -C, --color; -M, --color=never; --color=auto
Input:   --unique-keys, --depth=N, --lines, --stream, --bom
Output:  -i, --in-place writes each FILE in place, in the layout that it has
         if no option asks for one; -v, --verbose says how many

  mezdruk merge '{\"private\": true}' package.json
`mezdruk --help` says more of each option.
";

/// The help of `diff`.
const DIFF: &str = "\
mezdruk diff [OPTION..] OLD [NEW..]

Prints the JSON Patch (RFC 6902) that leads from the document of the file OLD to
that of NEW, or to standard input if there is none; `-` is standard input. The
status is 0 if both are the same value, 1 if they differ, and 2 if one of them
is no document.

Patches: --merge prints a JSON Merge Patch (RFC 7396); there is none if a key
         repeats or a member of NEW is null: the status is 3
Layouts: -c, --compact; --pretty; --indent=N; --tabs; beside one -S, --sort-keys
Colors:  -C, --color; -M, --color=never; --color=auto
Input:   --unique-keys, --depth=N, --bom

  mezdruk diff old.json new.json
  mezdruk patch --patch=changes.json old.json
`mezdruk --help` says more of each option.
";

/// The help of `overlay`.
const OVERLAY: &str = "\
mezdruk overlay [OPTION..] [FILE..]

Merges the documents of the files after the first into that of the first, one
after another, each as a JSON Merge Patch (RFC 7396): its members replace those
of the same keys, and null takes one out. `-` is standard input.

Layouts: -c, --compact; --pretty; --indent=N; --tabs; beside one -S, --sort-keys
Colors:  -C, --color; -M, --color=never; --color=auto
Input:   --unique-keys, --depth=N, --bom
Output:  -i, --in-place writes the first FILE in place, in the layout that it
         has if no option asks for one

  mezdruk overlay --pretty defaults.json site.json local.json
`mezdruk --help` says more of each option.
";
