// The commands.
ghost use Rattle.std.specs.Prelude.{◌≡◌, option_map};
ghost use Rattle.mezdruk_arguments.specs.Edits.{verb_name};
ghost use Rattle.mezdruk_arguments.specs.Arguments.{verb_in, operands_of, takes, file_in, source_in, path_in_option};

use crate::operand::OperandKind;
use crate::setting::Setting;

/// The commands of `mezdruk`.
///
/// ```
/// use mezdruk_arguments::{OperandKind, Verb};
/// assert_eq!(rt; Verb::Set.name(), "set");
/// let operands = [OperandKind::Path, OperandKind::Value];
/// assert_eq!(rt; Verb::Set.operands(), operands.as_slice());
/// ```
#[derive(Clone, Copy, Debug, PartialEq, Eq)]
pub enum Verb {
    /// Prints documents in a layout.
    Fmt,
    /// Reports the errors of documents, and prints nothing else.
    Check,
    /// Prints the value where a path leads, or those where several paths lead.
    Get,
    /// Prints the keys of the object where a path leads.
    Keys,
    /// Prints the number of elements or members where a path leads.
    Length,
    /// Prints the values that a JSONPath query (RFC 9535) selects.
    Query,
    /// Applies a list of edits.
    Edit,
    /// Sets the value where a path leads.
    Set,
    /// Inserts a member into the object where a path leads.
    Insert,
    /// Appends an element to the array where a path leads.
    Push,
    /// Removes a member or an element where a path leads.
    Remove,
    /// Applies a JSON Patch (RFC 6902).
    Patch,
    /// Applies a JSON Merge Patch (RFC 7396).
    Merge,
    /// Prints the patch from one document to another.
    Diff,
    /// Lays documents over one another, as merge patches (RFC 7396).
    Overlay,
}

// The text after the first equals sign, if the text before it is the name and it is not empty.
fn text_after_name<'a>(word: &'a str, name: &str) -> Option<&'a str>
    ensures { option_map (λ s. s.now) result ≡ file_in name.now word.entry.now }
{
    let (before, after) = word.split_once('=')?;
    if before != name || after.is_empty() {
        return None;
    }
    Some(after)
}

impl Verb {
    /// Returns the name of the command, such as `fmt`.
    pub fn name(self) -> &'static str
        ensures { result.now ≡ verb_name self }
    {
        match self {
            Verb::Fmt => "fmt",
            Verb::Check => "check",
            Verb::Get => "get",
            Verb::Keys => "keys",
            Verb::Length => "length",
            Verb::Query => "query",
            Verb::Edit => "edit",
            Verb::Set => "set",
            Verb::Insert => "insert",
            Verb::Push => "push",
            Verb::Remove => "remove",
            Verb::Patch => "patch",
            Verb::Merge => "merge",
            Verb::Diff => "diff",
            Verb::Overlay => "overlay",
        }
    }

    /// Returns the command of this name, or `None` if there is none.
    pub(crate) fn of_word(word: &str) -> Option<Verb>
        ensures { result ≡ verb_in word.now }
    {
        match word {
            "fmt" => Some(Verb::Fmt),
            "check" => Some(Verb::Check),
            "get" => Some(Verb::Get),
            "keys" => Some(Verb::Keys),
            "length" => Some(Verb::Length),
            "query" => Some(Verb::Query),
            "edit" => Some(Verb::Edit),
            "set" => Some(Verb::Set),
            "insert" => Some(Verb::Insert),
            "push" => Some(Verb::Push),
            "remove" => Some(Verb::Remove),
            "patch" => Some(Verb::Patch),
            "merge" => Some(Verb::Merge),
            "diff" => Some(Verb::Diff),
            "overlay" => Some(Verb::Overlay),
            _ => None,
        }
    }

    /// Returns the kinds of the operands that the command requires, in order. Files follow them.
    pub fn operands(self) -> &'static [OperandKind]
        ensures { result.now ≡ operands_of self }
    {
        match self {
            Verb::Get | Verb::Keys | Verb::Length => &[OperandKind::Path],
            Verb::Query => &[OperandKind::Query],
            Verb::Edit => &[OperandKind::Edits],
            Verb::Set | Verb::Push => &[OperandKind::Path, OperandKind::Value],
            Verb::Insert => &[OperandKind::Path, OperandKind::Key, OperandKind::Value],
            Verb::Remove => &[OperandKind::Path, OperandKind::Step],
            Verb::Patch | Verb::Merge => &[OperandKind::Patch],
            Verb::Diff => &[OperandKind::File],
            Verb::Fmt | Verb::Check | Verb::Overlay => &[],
        }
    }

    /// Returns the file that an option such as `--edits=FILE` names for the command's operand, or
    /// `None` if it is no such option of the command.
    pub(crate) fn source_file<'a>(self, word: &'a str) -> Option<&'a str>
        ensures { option_map (λ s. s.now) result ≡ source_in self word.entry.now }
    {
        match self {
            Verb::Edit => text_after_name(word, "--edits"),
            Verb::Patch => text_after_name(word, "--patch"),
            Verb::Merge => text_after_name(word, "--merge"),
            _ => None,
        }
    }

    /// Returns the path that an option names, or `None` if it names none.
    pub(crate) fn named_path<'a>(self, word: &'a str) -> Option<&'a str>
        ensures { option_map (λ s. s.now) result ≡ path_in_option self word.entry.now }
    {
        match self {
            Verb::Get => text_after_name(word, "--path"),
            _ => None,
        }
    }

    /// Returns whether the command has an option that asks for this.
    pub(crate) fn takes(self, setting: Setting) -> bool
        ensures { result ≡ takes self setting }
    {
        match setting {
            Setting::Layout(_) | Setting::SortKeys | Setting::Color(_) => self != Verb::Check,
            Setting::InPlace | Setting::Verbose => !matches!(
                self,
                Verb::Check | Verb::Get | Verb::Keys | Verb::Length | Verb::Query | Verb::Diff
            ),
            Setting::MergePatch => self == Verb::Diff,
            Setting::Input(_) => !matches!(self, Verb::Diff | Verb::Overlay),
            Setting::Count | Setting::MustFind => self == Verb::Query,
            Setting::Raw => matches!(self, Verb::Get | Verb::Keys | Verb::Query),
            Setting::StringValue => matches!(self, Verb::Set | Verb::Insert | Verb::Push),
            _ => true,
        }
    }
}
