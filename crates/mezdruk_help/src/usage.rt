// What a program takes on its command line.
ghost use Rattle.std.specs.Prelude.{◌≡◌, ◌==◌};
ghost use Rattle.mezdruk_help.specs.Usage.{groups_exclude};

use json_command::About;

/// The form of the JSON value that an argument must have.
#[derive(Clone, Copy, Debug, PartialEq, Eq)]
pub enum ArgumentForm {
    /// An array of edits.
    Edits,
    /// An array of edits and of the calls `["undo"]` and `["redo"]`.
    Calls,
    /// An array of 1 to 64 columns, each an array of a path and a kind.
    Columns,
    /// A path: an array of steps, each a string or an index.
    Path,
    /// Any value.
    Any,
}

/// An argument, or the value of an option, that is a JSON text.
#[derive(Clone, Copy, Debug, PartialEq, Eq)]
pub struct TextArgument {
    /// The name by which the help calls it, such as `EDITS`.
    pub name: &'static str,
    /// The form of its value.
    pub form: ArgumentForm,
}

/// What follows the name of an option in the same argument.
#[derive(Clone, Copy, Debug, PartialEq, Eq)]
pub enum OptionValue {
    /// Nothing, as in `--tabs`.
    Nothing,
    /// An equals sign and a number from 0 to this one, without leading zeros, as in `--indent=4`.
    Number(u32),
    /// An equals sign and a JSON text, as in `--has=[]`.
    Text(TextArgument),
}

/// One option that a program has.
#[derive(Clone, Copy, Debug)]
pub struct OptionForm {
    /// The name of the option, such as `--indent`.
    pub name: &'static str,
    /// What follows the name.
    pub value: OptionValue,
    /// The group of arguments that the option belongs to. At most one argument of a group may be
    /// given. An option of the group [`ALONE`] must be the only argument.
    pub group: u8,
}

/// The group of arguments to which the operand belongs.
pub const OPERAND_GROUP: u8 = 0;

/// The group of the options that must be the only argument, such as `--help`.
pub const ALONE: u8 = 255;

/// `--help`, which each program takes.
pub(crate) const HELP_OPTION: OptionForm = OptionForm {
    name: "--help",
    value: OptionValue::Nothing,
    group: ALONE,
};

/// `-h`, which each program takes.
pub(crate) const SHORT_HELP_OPTION: OptionForm = OptionForm {
    name: "-h",
    value: OptionValue::Nothing,
    group: ALONE,
};

/// `--version`, which each program takes.
pub(crate) const VERSION_OPTION: OptionForm = OptionForm {
    name: "--version",
    value: OptionValue::Nothing,
    group: ALONE,
};

/// `-V`, which each program takes.
pub(crate) const SHORT_VERSION_OPTION: OptionForm = OptionForm {
    name: "-V",
    value: OptionValue::Nothing,
    group: ALONE,
};

/// A group of arguments of which one must be given.
#[derive(Clone, Copy, Debug)]
pub struct MissingGroup {
    /// The group.
    pub group: u8,
    /// The name by which a report calls what is missing, such as `COLUMNS`.
    pub name: &'static str,
}

/// What a program accepts on its command line. An argument that begins with a hyphen is an option,
/// and every other one is an operand.
///
/// ```
/// use mezdruk_help::USAGE_RESHAPE;
/// use json_text::Words;
/// let mut words = Words::new(alloc);
/// words.push("--prety")?;
/// let report = USAGE_RESHAPE.arguments_report(alloc, &words)?;
/// let expected = "reshape: there is no option `--prety`; did you mean `--pretty`?\n";
/// assert_eq!(rt; report.as_str(), expected);
/// ```
#[derive(Clone, Copy, Debug)]
pub struct Usage {
    /// The name of the program, as a user calls it.
    pub program: &'static str,
    /// The help and the version of the program.
    pub about: About,
    /// The options that the program has.
    pub options: &'static [OptionForm],
    /// The operand that the program has, if it has one.
    pub operand: Option<TextArgument>,
    /// The group of which one argument must be given, if there is such a group.
    pub missing: Option<MissingGroup>,
}

/// Returns whether arguments of these two groups cannot both be given.
pub(crate) fn exclude(first: u8, second: u8) -> bool
    ensures { result ≡ groups_exclude first second }
{
    first == second || first == ALONE || second == ALONE
}
