// The options of the commands.
ghost use Rattle.std.specs.Prelude.{◌≡◌, option_map};
ghost use Rattle.mezdruk_arguments.specs.Arguments.{color_in, layout_in, setting_in, setting_with_value as value_setting, with_setting, no_settings, reads_stream as is_stream, rules_of_stream, kind_read};
ghost use Rattle.mezdruk_arguments.specs.declared.setting.Setting.TheVariants as Setting;
ghost use Rattle.json_command.specs.Options.{depth_in, width_in};

use crate::operand::OperandKind;
use json_command::option_number;

/// The layout of printed values that an option asks for.
///
/// ```
/// use mezdruk_arguments::RequestedLayout;
/// assert_eq!(rt; RequestedLayout::Spaces(2).indent(), Some("  "));
/// assert_eq!(rt; RequestedLayout::Compact.indent(), None);
/// ```
#[derive(Clone, Copy, Debug, PartialEq, Eq)]
pub enum RequestedLayout {
    /// Without whitespace.
    Compact,
    /// Each level indented by this many spaces, at most 8.
    Spaces(u8),
    /// Each level indented by a tab.
    Tab,
}

/// How an input contains several documents.
///
/// ```
/// use mezdruk_arguments::{RequestedInput, Setting};
/// let setting = Setting::Input(RequestedInput::Lines);
/// assert!(rt; setting != Setting::Input(RequestedInput::Stream));
/// ```
#[derive(Clone, Copy, Debug, PartialEq, Eq)]
pub enum RequestedInput {
    /// One document on each line.
    Lines,
    /// Documents one after another, with or without whitespace between them.
    Stream,
}

/// When printed values have colors.
///
/// ```
/// use mezdruk_arguments::{ColorChoice, read_arguments};
/// use json_text::Words;
/// let mut words = Words::new(alloc);
/// words.push("fmt")?;
/// words.push("--color=never")?;
/// let arguments = read_arguments(alloc, &words).map_err(|_| "not valid")?;
/// assert_eq!(rt; arguments.settings.color, Some(ColorChoice::Never));
/// ```
#[derive(Clone, Copy, Debug, PartialEq, Eq)]
pub enum ColorChoice {
    /// Where standard output is a terminal, and the environment does not ask for none.
    Auto,
    /// Always.
    Always,
    /// Never.
    Never,
}

/// What one option asks for.
///
/// ```
/// use mezdruk_arguments::{RequestedLayout, Setting};
/// assert!(rt; Setting::Layout(RequestedLayout::Tab) != Setting::SortKeys);
/// ```
#[derive(Clone, Copy, Debug, PartialEq, Eq)]
pub enum Setting {
    /// This layout of printed values.
    Layout(RequestedLayout),
    /// Members printed in the order of their keys (`--sort-keys`).
    SortKeys,
    /// An error for input in which a key of an object repeats (`--unique-keys`).
    UniqueKeys,
    /// An error for input of more than this many levels (`--depth=N`), at most 1,024.
    Depth(u32),
    /// A string printed as its content, without quotes and escapes (`--raw`).
    Raw,
    /// An operand `VALUE` that is a string with the argument as its content (`--string`).
    StringValue,
    /// A merge patch printed in place of a patch.
    MergePatch,
    /// A report of how many files were changed.
    Verbose,
    /// Files changed in place (`--in-place`).
    InPlace,
    /// A byte order mark at the beginning of the input skipped (`--bom`).
    Bom,
    /// Input that contains several documents (`--lines` or `--stream`).
    Input(RequestedInput),
    /// Colors of printed values (`--color`).
    Color(ColorChoice),
    /// The number of values that a query selects, in place of these (`--count`).
    Count,
    /// Another status if a query selects nothing (`--exit-status`).
    MustFind,
}

/// What the options of a command ask for. Each can be asked for once.
///
/// ```
/// use mezdruk_arguments::{RequestedLayout, read_arguments};
/// use json_text::Words;
/// let mut words = Words::new(alloc);
/// for word in ["fmt", "--indent=4", "--sort-keys", "--depth=9"] {
///     words.push(word)?;
/// }
/// let arguments = read_arguments(alloc, &words).map_err(|_| "not valid")?;
/// let settings = arguments.settings;
/// assert_eq!(rt; settings.layout, Some(RequestedLayout::Spaces(4)));
/// assert!(rt; settings.sorted && !settings.unique);
/// assert_eq!(rt; settings.rules().depth(), 9);
/// ```
#[derive(Clone, Copy, Debug, PartialEq, Eq)]
pub struct Settings {
    /// The layout of printed values, if an option asks for one.
    pub layout: Option<RequestedLayout>,
    /// Whether members are printed in the order of their keys.
    pub sorted: bool,
    /// Whether the keys of each object of the input must differ.
    pub unique: bool,
    /// The greatest number of levels of the input, if an option asks for one.
    pub depth: Option<u32>,
    /// Whether a string is printed as its content, without quotes and escapes.
    pub raw: bool,
    /// Whether the operand `VALUE` is a string with the argument as its content, and not a JSON
    /// text.
    pub string_value: bool,
    /// Whether a merge patch is printed in place of a patch.
    pub merge_patch: bool,
    /// Whether it is reported how many files were changed.
    pub verbose: bool,
    /// Whether files are changed in place.
    pub in_place: bool,
    /// Whether a byte order mark at the beginning of each input is skipped.
    pub bom: bool,
    /// How each input contains several documents; `None` if it is one document.
    pub input: Option<RequestedInput>,
    /// When printed values have colors, if an option asks for that.
    pub color: Option<ColorChoice>,
    /// Whether the number of values that a query selects is printed in place of these.
    pub count: bool,
    /// Whether the status is another one if a query selects nothing.
    pub must_find: bool,
}

/// Returns the number of spaces that one digit asks for, at most 8.
pub(crate) fn width_of(digits: &[u8]) -> Option<u8>
    ensures { result ≡ width_in digits.now }
{
    match digits {
        [digit] if *digit >= b'0' && *digit <= b'8' => Some(*digit - b'0'),
        _ => None,
    }
}

// The layout that a word asks for.
fn requested_layout(word: &str) -> Option<RequestedLayout>
    ensures { result ≡ layout_in word.now }
{
    match word {
        "--compact" | "-c" => Some(RequestedLayout::Compact),
        "--pretty" => Some(RequestedLayout::Spaces(2)),
        "--tabs" => Some(RequestedLayout::Tab),
        _ => {
            let width = width_of(word.as_bytes().strip_prefix(b"--indent=")?)?;
            Some(RequestedLayout::Spaces(width))
        }
    }
}

// The levels that a word asks for.
fn depth_of(word: &str) -> Option<u32>
    ensures { result ≡ depth_in word.now }
{
    option_number(word, "--depth", 1_024)
}

// When a word asks for colors.
fn requested_color(word: &str) -> Option<ColorChoice>
    ensures { result ≡ color_in word.now }
{
    match word {
        "--color" | "-C" | "--color=always" => Some(ColorChoice::Always),
        "--color=never" | "-M" => Some(ColorChoice::Never),
        "--color=auto" => Some(ColorChoice::Auto),
        _ => None,
    }
}

// What a word with a value asks for.
fn setting_with_value(word: &str) -> Option<Setting>
    ensures { result ≡ value_setting word.now }
{
    if let Some(layout) = requested_layout(word) {
        return Some(Setting::Layout(layout));
    }
    if let Some(choice) = requested_color(word) {
        return Some(Setting::Color(choice));
    }
    let depth = depth_of(word)?;
    Some(Setting::Depth(depth))
}

impl Setting {
    /// Returns what an option asks for, or `None` if no command has it.
    pub(crate) fn of_word(word: &str) -> Option<Setting>
        ensures { result ≡ setting_in word.now }
    {
        match word {
            "--sort-keys" | "-S" => Some(Setting::SortKeys),
            "--unique-keys" => Some(Setting::UniqueKeys),
            "--raw" | "-r" => Some(Setting::Raw),
            "--string" => Some(Setting::StringValue),
            "--merge" => Some(Setting::MergePatch),
            "--verbose" | "-v" => Some(Setting::Verbose),
            "-i" | "--in-place" => Some(Setting::InPlace),
            "--bom" => Some(Setting::Bom),
            "--lines" => Some(Setting::Input(RequestedInput::Lines)),
            "--stream" => Some(Setting::Input(RequestedInput::Stream)),
            "--count" => Some(Setting::Count),
            "--exit-status" | "-e" => Some(Setting::MustFind),
            _ => setting_with_value(word),
        }
    }
}

impl Settings {
    /// Returns the settings of no options.
    pub(crate) fn new() -> Settings
        ensures { result ≡ no_settings }
    {
        Settings {
            layout: None,
            sorted: false,
            unique: false,
            depth: None,
            raw: false,
            string_value: false,
            merge_patch: false,
            verbose: false,
            in_place: false,
            bom: false,
            input: None,
            color: None,
            count: false,
            must_find: false,
        }
    }

    // Returns the settings with a layout, or `None` if an earlier option asks for one.
    fn with_layout(self, layout: RequestedLayout) -> Option<Settings>
        ensures { result ≡ with_setting self (Setting.Layout layout) }
    {
        if self.layout.is_some() {
            return None;
        }
        Some(Settings {
            layout: Some(layout),
            ..self
        })
    }

    // Returns the settings with a choice of colors, or `None` if an earlier option made one.
    fn with_color(self, choice: ColorChoice) -> Option<Settings>
        ensures { result ≡ with_setting self (Setting.Color choice) }
    {
        if self.color.is_some() {
            return None;
        }
        Some(Settings {
            color: Some(choice),
            ..self
        })
    }

    // Returns the settings with a form of the input, or `None` if an earlier option asks for one.
    fn with_input(self, form: RequestedInput) -> Option<Settings>
        ensures { result ≡ with_setting self (Setting.Input form) }
    {
        if self.input.is_some() {
            return None;
        }
        Some(Settings {
            input: Some(form),
            ..self
        })
    }

    // Returns the settings with the number of values, or `None` if an earlier option asks for it.
    fn with_count(self) -> Option<Settings>
        ensures { result ≡ with_setting self Setting.Count }
    {
        if self.count {
            return None;
        }
        Some(Settings {
            count: true,
            ..self
        })
    }

    // Returns the settings with another status if nothing is selected, or `None` if an earlier
    // option asks for it.
    fn with_must_find(self) -> Option<Settings>
        ensures { result ≡ with_setting self Setting.MustFind }
    {
        if self.must_find {
            return None;
        }
        Some(Settings {
            must_find: true,
            ..self
        })
    }

    /// Returns the settings with one more option, or `None` if an earlier one asks for the same.
    pub(crate) fn with(self, setting: Setting) -> Option<Settings>
        ensures { result ≡ with_setting self setting }
    {
        match setting {
            Setting::Layout(layout) => self.with_layout(layout),
            Setting::SortKeys if !self.sorted => Some(Settings {
                sorted: true,
                ..self
            }),
            Setting::UniqueKeys if !self.unique => Some(Settings {
                unique: true,
                ..self
            }),
            Setting::Depth(levels) if self.depth.is_none() => Some(Settings {
                depth: Some(levels),
                ..self
            }),
            Setting::Raw if !self.raw => Some(Settings { raw: true, ..self }),
            Setting::StringValue if !self.string_value => Some(Settings {
                string_value: true,
                ..self
            }),
            Setting::MergePatch if !self.merge_patch => Some(Settings {
                merge_patch: true,
                ..self
            }),
            Setting::Verbose if !self.verbose => Some(Settings {
                verbose: true,
                ..self
            }),
            Setting::InPlace if !self.in_place => Some(Settings {
                in_place: true,
                ..self
            }),
            Setting::Bom if !self.bom => Some(Settings { bom: true, ..self }),
            Setting::Input(form) => self.with_input(form),
            Setting::Color(choice) => self.with_color(choice),
            Setting::Count => self.with_count(),
            Setting::MustFind => self.with_must_find(),
            _ => None,
        }
    }

    /// Returns the kind by which an operand of this kind is read: `Text` for a value with
    /// `--string`.
    pub(crate) fn kind_read(self, kind: OperandKind) -> OperandKind
        ensures { result ≡ kind_read self kind }
    {
        match kind {
            OperandKind::Value if self.string_value => OperandKind::Text,
            _ => kind,
        }
    }

    // Whether the documents of an input follow one another.
    fn reads_stream(self) -> bool
        ensures { result ≡ is_stream self }
    {
        self.input == Some(RequestedInput::Stream)
    }

    /// Returns whether the options and this one ask for a stream and for other rules than the usual
    /// ones. A stream is read by the usual ones only.
    pub(crate) fn has_stream_rules_with(self, setting: Setting) -> bool
        ensures { result ≡ rules_of_stream self setting }
    {
        match setting {
            Setting::UniqueKeys | Setting::Depth(_) => self.reads_stream(),
            Setting::Input(RequestedInput::Stream) => self.unique || self.depth.is_some(),
            _ => false,
        }
    }
}
