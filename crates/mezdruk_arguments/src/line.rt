// The arguments that were read so far.
ghost use Rattle.std.specs.Prelude.{◌≡◌, ◌⊎◌, ℕ, List, [], ◌∷◌, ◌++◌, if◌then◌else◌, true, false, OnOk, OnErr, IfOk, IfErr};
ghost use Rattle.std.specs.List.{list_any};
ghost use Rattle.mezdruk_arguments.specs.Arguments.{is_option_argument as option_word, is_standard_input, source_in, option_value as value_of_option};
ghost use Rattle.mezdruk_arguments.specs.CommandLine.{ParsedArguments, nothing_asked, next_operand, missing_operand, is_width_name as names_width, comes_late, command_role as command_or_unknown, option_role as option_or_unknown, role_in, in_place_and_input, has_no_operands as no_operands, MayTake, MayFollow, with_argument, is_complete};
ghost use Rattle.mezdruk_arguments.specs.Line.{HoldsAsked, TakesArgument};
ghost use Rattle.mezdruk_arguments.specs.Asks.{Finishes};
ghost use Rattle.mezdruk_arguments.specs.declared.problem.OperandError.TheVariants as OperandError;
ghost use Rattle.mezdruk_arguments.specs.declared.line.ArgumentRole.TheVariants as ArgumentRole;

use crate::arguments::Arguments;
use crate::operand::{OperandKind, read_operand};
use crate::problem::{MissingArgument, OperandError, Problem};
use crate::setting::{RequestedLayout, Setting, Settings, width_of};
use crate::verb::Verb;
use json_value::Value;
use std::alloc::Global;

/// What one argument is, given those before it.
#[derive(Clone, Copy)]
pub(crate) enum ArgumentRole {
    /// The name of a command.
    Command(Verb),
    /// The end of the options.
    EndOfOptions,
    /// An option of the command.
    Setting(Setting),
    /// `--indent`, whose number is the next argument.
    WidthName,
    /// The number after `--indent`.
    Width,
    /// An option that names the file that contains the operand.
    Source,
    /// An operand.
    Operand(OperandKind),
    /// An option that names one more path.
    Path,
    /// A file.
    File,
    /// Not a command, or not an option of the command.
    Unknown,
}

/// The arguments that were read so far.
#[derive(Drop)]
pub(crate) struct ArgumentLine<'a> {
    verb: Option<Verb>,
    settings: Settings,
    ended: bool,
    awaits_width: bool,
    source: Option<&'a str>,
    operands: Vec<Value>,
    files: Vec<&'a str>,
}

/// Returns whether a word is an option: it begins with a hyphen, and no digit follows, as in a
/// number.
pub(crate) fn is_option_word(word: &str) -> bool
    ensures { result ≡ option_word word.now }
{
    match word.as_bytes() {
        [b'-', next, ..] => *next < b'0' || *next > b'9',
        _ => false,
    }
}

// Appends a value, and returns whether there is memory for it.
fn push_value(values: &mut Vec<Value>, value: Value) -> bool
    ensures { values.new.items
        ≡ (if result then values.old.items ++ value ∷ [] else values.old.items) }
{
    values.push(value).is_ok()
}

// Whether standard input is one of the files.
fn has_standard_input(files: &[&str]) -> bool
    ensures { result ≡ list_any (λ f. is_standard_input f.now) files.now }
{
    files.iter().any(|file| *file == "-")
}

// What a word is where a command is expected.
fn command_role(word: &str) -> ArgumentRole
    ensures { result ≡ command_or_unknown word.now }
{
    match Verb::of_word(word) {
        Some(verb) => ArgumentRole::Command(verb),
        None => ArgumentRole::Unknown,
    }
}

// Whether it is `--indent`, of a command that has layouts.
fn is_width_name(verb: Verb, word: &str) -> bool
    ensures { result ≡ names_width verb word.now }
{
    word == "--indent" && verb.takes(Setting::Layout(RequestedLayout::Compact))
}

// Returns the text after the first equals sign; nothing if there is none.
fn option_value(word: &str) -> &str
    ensures { result.now ≡ value_of_option word.now }
{
    match word.split_once('=') {
        Some((_, value)) => value,
        None => "",
    }
}

// What an option is for a command.
fn option_role(verb: Verb, word: &str) -> ArgumentRole
    ensures { result ≡ option_or_unknown verb word.now }
{
    if verb.source_file(word).is_some() {
        return ArgumentRole::Source;
    }
    if verb.named_path(word).is_some() {
        return ArgumentRole::Path;
    }
    if is_width_name(verb, word) {
        return ArgumentRole::WidthName;
    }
    match Setting::of_word(word) {
        Some(setting) if verb.takes(setting) => ArgumentRole::Setting(setting),
        _ => ArgumentRole::Unknown,
    }
}

impl<'a> ArgumentLine<'a> {
    /// Creates the state before the first argument.
    pub(crate) fn new(alloc: Global) -> ArgumentLine<'a>
        ensures { HoldsAsked result nothing_asked }
    {
        ArgumentLine {
            verb: None,
            settings: Settings::new(),
            ended: false,
            awaits_width: false,
            source: None,
            operands: Vec::new(alloc),
            files: Vec::new(alloc),
        }
    }

    // Returns the next operand, if the command has one more.
    fn next_operand(&self) -> Option<OperandKind>
        ensures { (s : ParsedArguments) → HoldsAsked self.now s → result ≡ next_operand s }
    {
        match (self.verb, self.source) {
            (Some(verb), None) => verb.operands().get(self.operands.len()).copied(),
            _ => None,
        }
    }

    // Returns the kind by which the next operand is read, if the command has one more.
    fn missing_operand(&self) -> Option<OperandKind>
        ensures { (s : ParsedArguments) → HoldsAsked self.now s → result ≡ missing_operand s }
    {
        match self.next_operand() {
            Some(kind) => Some(self.settings.kind_read(kind)),
            None => None,
        }
    }

    // What a word is.
    fn role_of(&self, word: &str) -> ArgumentRole
        ensures { (s : ParsedArguments) → HoldsAsked self.now s → result ≡ role_in s word.now }
    {
        let Some(verb) = self.verb else {
            return command_role(word);
        };
        if self.awaits_width {
            return ArgumentRole::Width;
        }
        if word == "--" && !self.ended {
            return ArgumentRole::EndOfOptions;
        }
        if is_option_word(word) && !self.ended {
            return option_role(verb, word);
        }
        match self.missing_operand() {
            Some(kind) => ArgumentRole::Operand(kind),
            None => ArgumentRole::File,
        }
    }

    // Whether files are to be changed in place, and standard input is one of them.
    fn changes_input(&self, setting: Setting) -> bool
        ensures { (s : ParsedArguments) → HoldsAsked self.now s → result
            ≡ in_place_and_input setting s.files }
    {
        match setting {
            Setting::InPlace => has_standard_input(&self.files),
            _ => false,
        }
    }

    // Whether the option says how a value is read, and no value follows.
    fn comes_late(&self, setting: Setting) -> bool
        ensures { (s : ParsedArguments) → HoldsAsked self.now s → result
            ≡ comes_late (missing_operand s) setting }
    {
        match setting {
            Setting::StringValue => self.missing_operand().is_none(),
            _ => false,
        }
    }

    // Adds an option, unless it does not go with those before it.
    fn take_setting(&mut self, setting: Setting) -> Result<(), OperandError>
        ensures ok { OnOk result ((s : ParsedArguments) (w : List ℕ) → HoldsAsked self.old s
            → TakesArgument self.new s w (ArgumentRole.Setting setting)) }
        ensures err { IfErr result (λ r. (r ≡ OperandError.OutOfMemory)
            ⊎ ((s : ParsedArguments) (w : List ℕ) → HoldsAsked self.old s
            → ¬ (MayTake s w (ArgumentRole.Setting setting)))) }
    {
        if self.changes_input(setting) {
            return Err(OperandError::Invalid(Problem::StandardInput));
        }
        if self.settings.has_stream_rules_with(setting) {
            return Err(OperandError::Invalid(Problem::StreamRules));
        }
        if self.comes_late(setting) {
            return Err(OperandError::Invalid(Problem::Late));
        }
        match self.settings.with(setting) {
            Some(settings) => {
                self.settings = settings;
                Ok(())
            }
            None => Err(OperandError::Invalid(Problem::Repeated)),
        }
    }

    // Adds the name of the option whose number follows.
    fn take_width_name(&mut self) -> Result<(), OperandError>
        ensures ok { OnOk result ((s : ParsedArguments) (w : List ℕ) → HoldsAsked self.old s
            → TakesArgument self.new s w ArgumentRole.WidthName) }
        ensures err { IfErr result (λ r. (r ≡ OperandError.OutOfMemory)
            ⊎ ((s : ParsedArguments) (w : List ℕ) → HoldsAsked self.old s
            → ¬ (MayTake s w ArgumentRole.WidthName))) }
    {
        if self.settings.layout.is_some() {
            return Err(OperandError::Invalid(Problem::Repeated));
        }
        self.awaits_width = true;
        Ok(())
    }

    // Adds the number of an indent.
    fn take_width(&mut self, word: &str) -> Result<(), OperandError>
        ensures ok { OnOk result ((s : ParsedArguments) → HoldsAsked self.old s
            → TakesArgument self.new s word.now ArgumentRole.Width) }
        ensures err { IfErr result (λ r. (r ≡ OperandError.OutOfMemory)
            ⊎ ((s : ParsedArguments) → HoldsAsked self.old s → ¬ (MayTake s word.now ArgumentRole.Width))) }
    {
        let Some(width) = width_of(word.as_bytes()) else {
            return Err(OperandError::Invalid(Problem::NoWidth));
        };
        self.settings = Settings {
            layout: Some(RequestedLayout::Spaces(width)),
            ..self.settings
        };
        self.awaits_width = false;
        Ok(())
    }

    // Whether no operand and no file was given.
    fn has_no_operands(&self) -> bool
        ensures { (s : ParsedArguments) → HoldsAsked self.now s → result ≡ no_operands s }
    {
        self.operands.is_empty() && self.files.is_empty()
    }

    // Adds the file that an option names for the operand.
    fn take_source(&mut self, word: &'a str) -> Result<(), OperandError>
        ensures ok { OnOk result ((s : ParsedArguments) → HoldsAsked self.old s
            → TakesArgument self.new s word.entry.now ArgumentRole.Source) }
        ensures err { IfErr result (λ r. (r ≡ OperandError.OutOfMemory)
            ⊎ ((s : ParsedArguments) → HoldsAsked self.old s → ¬ (MayTake s word.entry.now ArgumentRole.Source))) }
    {
        let Some(file) = self.verb.and_then(|verb| verb.source_file(word)) else {
            return Err(OperandError::Invalid(Problem::Unknown));
        };
        if self.source.is_some() {
            return Err(OperandError::Invalid(Problem::Repeated));
        }
        if !self.has_no_operands() {
            return Err(OperandError::Invalid(Problem::Late));
        }
        self.source = Some(file);
        Ok(())
    }

    // Adds an operand.
    fn take_operand(
        &mut self,
        alloc: Global,
        kind: OperandKind,
        word: &str,
    ) -> Result<(), OperandError>
        ensures ok { OnOk result ((s : ParsedArguments) → HoldsAsked self.old s
            → TakesArgument self.new s word.now (ArgumentRole.Operand kind)) }
        ensures err { IfErr result (λ r. (r ≡ OperandError.OutOfMemory)
            ⊎ ((s : ParsedArguments) → HoldsAsked self.old s → ¬ (MayTake s word.now (ArgumentRole.Operand kind)))) }
    {
        let operand = read_operand(alloc, kind, word)?;
        if push_value(&mut self.operands, operand) {
            Ok(())
        } else {
            Err(OperandError::OutOfMemory)
        }
    }

    // Adds the path that an option names.
    fn take_path(&mut self, alloc: Global, word: &str) -> Result<(), OperandError>
        ensures ok { OnOk result ((s : ParsedArguments) → HoldsAsked self.old s
            → TakesArgument self.new s word.now ArgumentRole.Path) }
        ensures err { IfErr result (λ r. (r ≡ OperandError.OutOfMemory)
            ⊎ ((s : ParsedArguments) → HoldsAsked self.old s → ¬ (MayTake s word.now ArgumentRole.Path))) }
    {
        self.take_operand(alloc, OperandKind::Path, option_value(word))
    }

    // Adds a file.
    fn take_file(&mut self, word: &'a str) -> Result<(), OperandError>
        ensures ok { OnOk result ((s : ParsedArguments) → HoldsAsked self.old s
            → TakesArgument self.new s word.entry.now ArgumentRole.File) }
        ensures err { IfErr result (λ r. (r ≡ OperandError.OutOfMemory)
            ⊎ ((s : ParsedArguments) → HoldsAsked self.old s → ¬ (MayTake s word.entry.now ArgumentRole.File))) }
    {
        if word == "-" && self.settings.in_place {
            return Err(OperandError::Invalid(Problem::StandardInput));
        }
        match self.files.push(word) {
            Ok(()) => Ok(()),
            Err(_) => Err(OperandError::OutOfMemory),
        }
    }

    /// Reads one more argument. Fails if it is not valid after those before it, and if memory runs
    /// out.
    pub(crate) fn take(&mut self, alloc: Global, word: &'a str) -> Result<(), OperandError>
        ensures ok { OnOk result ((s : ParsedArguments) → HoldsAsked self.old s
            → MayFollow s word.entry.now × HoldsAsked self.new (with_argument s word.entry.now)) }
        ensures err { IfErr result (λ r. (r ≡ OperandError.OutOfMemory)
            ⊎ ((s : ParsedArguments) → HoldsAsked self.old s → ¬ (MayFollow s word.entry.now))) }
    {
        match self.role_of(word) {
            ArgumentRole::Command(verb) => {
                self.verb = Some(verb);
                Ok(())
            }
            ArgumentRole::EndOfOptions => {
                self.ended = true;
                Ok(())
            }
            ArgumentRole::Setting(setting) => self.take_setting(setting),
            ArgumentRole::WidthName => self.take_width_name(),
            ArgumentRole::Width => self.take_width(word),
            ArgumentRole::Source => self.take_source(word),
            ArgumentRole::Operand(kind) => self.take_operand(alloc, kind, word),
            ArgumentRole::Path => self.take_path(alloc, word),
            ArgumentRole::File => self.take_file(word),
            ArgumentRole::Unknown => Err(OperandError::Invalid(Problem::Unknown)),
        }
    }

    /// Returns what all the arguments ask for, or what is missing after the last one.
    pub(crate) fn finish(self) -> Result<Arguments<'a>, MissingArgument>
        ensures ok { IfOk result (λ a. (s : ParsedArguments) → HoldsAsked self.entry s → Finishes a s) }
        ensures err { OnErr result ((s : ParsedArguments) → HoldsAsked self.entry s → is_complete s ≡ false) }
    {
        let Some(verb) = self.verb else {
            return Err(MissingArgument::Command);
        };
        if let Some(kind) = self.missing_operand() {
            return Err(MissingArgument::Operand(kind));
        }
        if self.awaits_width {
            return Err(MissingArgument::Width);
        }
        if self.files.is_empty() && self.settings.in_place {
            return Err(MissingArgument::File);
        }
        Ok(Arguments {
            verb,
            settings: self.settings,
            source: self.source,
            operands: self.operands,
            files: self.files,
        })
    }
}
