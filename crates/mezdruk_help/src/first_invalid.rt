// The first argument that does not fit those before it.
ghost use Rattle.std.specs.Prelude.{◌≡◌, ◌<◌, ◌≤◌, ◌+◌, ◌^◌, true, false, length, IfOk, IfSome, IfNone};
ghost use Rattle.json_text.specs.Ruled.{usual_rules};
ghost use Rattle.json_io.specs.Errors.{OnlyNoMemory};
ghost use Rattle.json_command.specs.Input.{IsValid};
ghost use Rattle.mezdruk_help.specs.Usage.{is_option, name_before_equals, value_after_equals, option_named, FitsOption, group_of, FitsAlone, excludes, IsFree, FitsAt, FirstInvalid, AllFit};

use crate::usage::{OPERAND_GROUP, OptionForm, OptionValue, Usage, exclude};
use json_command::{option_number, read_argument};
use json_io::{ErrorCode, Result, Words};
use std::alloc::Global;

/// Why an argument does not fit those before it.
#[derive(Clone, Copy, Debug)]
pub(crate) enum InvalidReason {
    /// The program has no such option, or no operand.
    Unknown,
    /// It cannot be given together with the argument of this index.
    Excluded(usize),
    /// It is an option whose value must be of this form.
    Value(OptionValue),
    /// The operand, or the value of the option, is no JSON text.
    NoText,
}

/// An argument that does not fit those before it: its index, and what is wrong with it.
#[derive(Clone, Copy, Debug)]
pub(crate) struct Invalid {
    pub index: usize,
    pub problem: InvalidReason,
}

/// Returns whether an argument is an option: it begins with a hyphen.
pub(crate) fn is_option(word: &str) -> bool
    ensures { result ≡ is_option word.now }
{
    word.as_bytes().starts_with(b"-")
}

/// Splits an option at its first equals sign into its name and its value. The value is empty if
/// there is no equals sign.
pub(crate) fn split_option(word: &str) -> (&str, &str)
    ensures name { result.0.now ≡ name_before_equals word.now }
    ensures value { result.1.now ≡ value_after_equals word.now }
{
    match word.split_once('=') {
        Some(parts) => parts,
        None => (word, ""),
    }
}

// Returns the first option of the table that has this name.
fn option_named<'a>(options: &'a [OptionForm], name: &str) -> Option<OptionForm>
    ensures { result ≡ option_named options.now name.now }
{
    match options {
        [] => None,
        [first, ..] if first.name == name => Some(*first),
        [_, later @ ..] => option_named(later, name),
    }
}

impl Usage {
    /// Returns the option of the program that an argument names, if it names one.
    pub(crate) fn option_of(&self, word: &str) -> Option<OptionForm>
        ensures { result ≡ option_named self.now.options.now (name_before_equals word.now) }
    {
        let (name, _) = split_option(word);
        option_named(self.options, name)
    }

    /// Returns the group of an argument; `None` if the program has no such option, or no operand.
    pub(crate) fn group_of(&self, word: &str) -> Option<u8>
        ensures { result ≡ group_of self.now word.now }
    {
        if !is_option(word) {
            return match self.operand {
                Some(_) => Some(OPERAND_GROUP),
                None => None,
            };
        }
        match self.option_of(word) {
            Some(option) => Some(option.group),
            None => None,
        }
    }

    // Whether an argument excludes one of the group.
    fn excludes(&self, word: &str, group: u8) -> bool
        ensures { result ≡ excludes self.now group word.now }
    {
        match self.group_of(word) {
            Some(taken) => exclude(taken, group),
            None => false,
        }
    }
}

// Whether a text is a JSON text by the usual rules.
fn is_text(alloc: Global, text: &str) -> Result<bool>
    ensures valid { IfOk result (λ b. b ≡ true → IsValid usual_rules text.now) }
    ensures invalid { IfOk result (λ b. b ≡ false → ¬ (IsValid usual_rules text.now)) }
    ensures only { OnlyNoMemory result }
{
    match read_argument(alloc, text) {
        Ok(_) => Ok(true),
        Err(error) => match error.code {
            ErrorCode::NoMemory => Err(error),
            _ => Ok(false),
        },
    }
}

// Returns what is wrong with an option, where something is.
fn option_problem(alloc: Global, option: &OptionForm, word: &str) -> Result<Option<InvalidReason>>
    ensures fits { IfOk result (λ o. IfNone o (FitsOption option.now option.now.value word.now)) }
    ensures misfits { IfOk result
        (λ o. IfSome o (λ _. ¬ (FitsOption option.now option.now.value word.now))) }
    ensures only { OnlyNoMemory result }
{
    let wrong = Some(InvalidReason::Value(option.value));
    match option.value {
        OptionValue::Nothing if word == option.name => Ok(None),
        OptionValue::Nothing => Ok(wrong),
        OptionValue::Number(max) => match option_number(word, option.name, max) {
            Some(_) => Ok(None),
            None => Ok(wrong),
        },
        OptionValue::Text(_) => {
            let (_, text) = split_option(word);
            if is_text(alloc, text)? {
                Ok(None)
            } else {
                Ok(Some(InvalidReason::NoText))
            }
        }
    }
}

// Returns what is wrong with an argument on its own, where something is.
fn problem_alone(alloc: Global, usage: &Usage, word: &str) -> Result<Option<InvalidReason>>
    ensures fits { IfOk result (λ o. IfNone o (FitsAlone usage.now word.now)) }
    ensures misfits { IfOk result (λ o. IfSome o (λ _. ¬ (FitsAlone usage.now word.now))) }
    ensures only { OnlyNoMemory result }
{
    if is_option(word) {
        return match usage.option_of(word) {
            Some(option) => option_problem(alloc, &option, word),
            None => Ok(Some(InvalidReason::Unknown)),
        };
    }
    if is_text(alloc, word)? {
        Ok(None)
    } else {
        Ok(Some(InvalidReason::NoText))
    }
}

// Returns the index of the first argument before this index that excludes one of the group.
fn excluding(usage: &Usage, words: &Words, index: usize, group: u8) -> Option<usize>
    requires { index ≤ length words.now }
    ensures free { IfNone result (IsFree usage.now words.now index group) }
    ensures taken { IfSome result (λ _. ¬ (IsFree usage.now words.now index group)) }
{
    'earlier: for i in 0..index {
        if usage.excludes(words.word(i), group) {
            return Some(i);
        }
    }
    None
}

// Returns why the argument of this index does not fit those before it, where it does not.
fn problem_at(
    alloc: Global,
    usage: &Usage,
    words: &Words,
    index: usize,
) -> Result<Option<InvalidReason>>
    requires { index < length words.now }
    ensures fits { IfOk result (λ o. IfNone o (FitsAt usage.now words.now index)) }
    ensures misfits { IfOk result (λ o. IfSome o (λ _. ¬ (FitsAt usage.now words.now index))) }
    ensures only { OnlyNoMemory result }
{
    let word = words.word(index);
    let Some(group) = usage.group_of(word) else {
        return Ok(Some(InvalidReason::Unknown));
    };
    match excluding(usage, words, index, group) {
        Some(earlier) => Ok(Some(InvalidReason::Excluded(earlier))),
        None => problem_alone(alloc, usage, word),
    }
}

/// Returns the first argument that does not fit those before it, if there is one. Fails with
/// `NoMemory` if memory runs out.
pub(crate) fn first_invalid(alloc: Global, usage: &Usage, words: &Words) -> Result<Option<Invalid>>
    ensures first { IfOk result (λ o. IfSome o (λ v. FirstInvalid usage.now words.now v.index)) }
    ensures none { IfOk result (λ o. IfNone o (AllFit usage.now words.now)) }
    ensures bound { IfOk result (λ o. IfSome o (λ v. v.index + 1 < 2 ^ 64)) }
    ensures only { OnlyNoMemory result }
{
    'words: for i in 0..words.len() {
        if let Some(problem) = problem_at(alloc, usage, words, i)? {
            return Ok(Some(Invalid { index: i, problem }));
        }
    }
    Ok(None)
}
