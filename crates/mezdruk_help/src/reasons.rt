// What is said around the name of an argument that does not fit those before it.
ghost use Rattle.std.specs.Prelude.{◌<◌, length};

use crate::first_invalid::{Invalid, InvalidReason, is_option, split_option};
use crate::usage::{OPERAND_GROUP, OptionValue, TextArgument, Usage};
use json_doc::read_document;
use json_io::{ErrorCode, Words, fault_text};
use std::alloc::{AllocError, Global};
use strsim::osa_distance;

/// The greatest length in bytes of an argument that a report shows.
pub(crate) const MAX_SHOWN: usize = 80;

/// The greatest number of bytes of a text that is read.
const MAX_BYTES: usize = 4_294_967_295;

/// What a report says before and after the name of an argument.
#[derive(Drop)]
pub(crate) struct Reason {
    pub before: &'static str,
    pub after: String,
}

impl Reason {
    /// Returns the reason that says this after the name of the argument, and nothing before it.
    pub(crate) fn after(after: String) -> Reason {
        Reason { before: "", after }
    }
}

// Returns the option of more than one letter whose name is nearest, if it is near: at most 2
// letters are added, left out, changed, or exchanged with the next one.
fn nearest_option(
    alloc: Global,
    usage: &Usage,
    name: &str,
) -> Result<Option<&'static str>, AllocError> {
    let mut found = None;
    let mut least = 3;
    'options: for option in usage.options {
        let distance = osa_distance(alloc, name, option.name)?;
        if distance < least && option.name.starts_with("--") {
            least = distance;
            found = Some(option.name);
        }
    }
    Ok(found)
}

impl Usage {
    // Returns the line that says what the input is read from.
    fn input_hint(&self, alloc: Global) -> Result<String, AllocError> {
        let program = self.program;
        format!(in alloc; "\nhint: input is read from standard input, as in `{program} < FILE`")
    }

    // Returns the reason why the program does not take an argument.
    fn unknown_reason(&self, alloc: Global, word: &str) -> Result<Reason, AllocError> {
        if !is_option(word) {
            let hint = self.input_hint(alloc)?;
            let after = format!(in alloc; ": no operand is taken{}", hint.as_str())?;
            return Ok(Reason::after(after));
        }
        if word.len() > MAX_SHOWN {
            let after = format!(in alloc; ": there is no such option")?;
            return Ok(Reason::after(after));
        }
        let (name, _) = split_option(word);
        let after = match nearest_option(alloc, self, name)? {
            Some(near) => format!(in alloc; "; did you mean `{near}`?")?,
            None => String::new(alloc),
        };
        Ok(Reason {
            before: "there is no option ",
            after,
        })
    }

    // Returns the reason why an argument may not follow an operand.
    fn after_operand_reason(&self, alloc: Global, word: &str) -> Result<String, AllocError> {
        if is_option(word) {
            return format!(in alloc; ": the option is given alone");
        }
        let operand = self.operand.map_or("operand", |operand| operand.name);
        let hint = self.input_hint(alloc)?;
        format!(in alloc; ": at most one {operand} is taken{}", hint.as_str())
    }

    // Returns the reason why an argument may not follow another one.
    fn excluded_reason(
        &self,
        alloc: Global,
        earlier: &str,
        word: &str,
    ) -> Result<String, AllocError> {
        if !is_option(earlier) {
            return self.after_operand_reason(alloc, word);
        }
        let (earlier_name, _) = split_option(earlier);
        let (name, _) = split_option(word);
        if earlier_name == name {
            return format!(in alloc; ": the option occurs twice");
        }
        let mut reason = String::new(alloc);
        reason.push_str(" does not go with `")?;
        reason.push_str(earlier_name)?;
        reason.push_str("`")?;
        Ok(reason)
    }

    /// Returns the name and the form of an argument that is a JSON text; `None` if it is none.
    pub(crate) fn text_argument(&self, word: &str) -> Option<TextArgument> {
        if !is_option(word) {
            return self.operand;
        }
        match self.option_of(word)?.value {
            OptionValue::Text(argument) => Some(argument),
            _ => None,
        }
    }

    // Returns the reason why an argument that is no JSON text is refused.
    fn no_text_reason(&self, alloc: Global, word: &str) -> Result<String, AllocError> {
        let (_, value) = split_option(word);
        let text = if is_option(word) { value } else { word };
        if is_option(word) && !word.contains('=') {
            return format!(in alloc; ": the option takes a JSON text");
        }
        let name = self
            .text_argument(word)
            .map_or("it", |argument| argument.name);
        let mut reason = format!(in alloc; ": {name} is no JSON text")?;
        push_fault(alloc, text, &mut reason)?;
        if !is_option(word) && !word.starts_with('[') && !word.starts_with('{') {
            let hint = self.input_hint(alloc)?;
            reason.push_str(hint.as_str())?;
        }
        Ok(reason)
    }

    /// Returns what a report says of an argument that does not fit those before it.
    pub(crate) fn reason(
        &self,
        alloc: Global,
        words: &Words,
        invalid: &Invalid,
    ) -> Result<Reason, AllocError>
        requires { invalid.now.index < length words.now }
    {
        let word = words.word(invalid.index);
        let after = match invalid.problem {
            InvalidReason::Unknown => return self.unknown_reason(alloc, word),
            InvalidReason::Excluded(index) if index < words.len() => {
                self.excluded_reason(alloc, words.word(index), word)?
            }
            InvalidReason::Excluded(_) => format!(in alloc; ": the option is given alone")?,
            InvalidReason::Value(value) => value_reason(alloc, value)?,
            InvalidReason::NoText => self.no_text_reason(alloc, word)?,
        };
        Ok(Reason::after(after))
    }
}

// Appends why a text is no JSON text, where it is none.
fn push_fault(alloc: Global, text: &str, reason: &mut String) -> Result<(), AllocError> {
    if text.len() > MAX_BYTES {
        return Ok(());
    }
    if let Err(error) = read_document(alloc, text) {
        if error.code == ErrorCode::NoMemory {
            return Err(AllocError);
        }
        let line = fault_text(&error);
        let bytes = line.as_bytes();
        let fault = bytes.strip_suffix(b"\n").unwrap_or(bytes);
        reason.push_str(": ")?;
        reason.push_str(str::from_utf8(fault).unwrap_or(""))?;
    }
    Ok(())
}

// Returns the reason why the value of an option is refused.
fn value_reason(alloc: Global, value: OptionValue) -> Result<String, AllocError> {
    match value {
        OptionValue::Nothing => format!(in alloc; ": the option takes no value"),
        OptionValue::Number(max) if max < 10 => {
            format!(in alloc; ": the option takes a number from 0 to {max}")
        }
        OptionValue::Number(max) => format!(in alloc;
            ": the option takes a number from 0 to {max} without leading zeros"
        ),
        OptionValue::Text(_) => format!(in alloc; ": the option takes a JSON text"),
    }
}
