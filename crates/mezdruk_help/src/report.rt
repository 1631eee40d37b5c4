// What is reported of arguments that are not valid.
ghost use Rattle.std.specs.Prelude.{◌≡◌, ◌≢◌, ℕ, ◌<◌, ◌+◌, ◌^◌, string_bytes, IfOk};
ghost use Rattle.json_io.specs.Errors.{OnlyNoMemory};
ghost use Rattle.mezdruk_help.specs.Usage.{argument_name, report_line, FirstInvalid, Names, NamesBefore, ExplainsUsage};

use crate::first_invalid::{first_invalid, is_option, split_option};
use crate::forms::form_fault;
use crate::reasons::{MAX_SHOWN, Reason};
use crate::usage::Usage;
use itoa::Buffer;
use json_command::{Status, read_argument, report_text};
use json_io::{ErrorCode, Result, Sink, Words};
use json_value::View;
use std::alloc::Global;

// Returns how a report calls an argument: itself, or by its number where it is long.
fn name_argument(alloc: Global, index: usize, word: &str) -> Result<String>
    requires { index + 1 < 2 ^ 64 }
    ensures ok { IfOk result (λ s. string_bytes s ≡ argument_name index word.now) }
    ensures only { OnlyNoMemory result }
{
    let mut name = String::new(alloc);
    if word.len() <= MAX_SHOWN {
        name.push_str("`")?;
        name.push_str(word)?;
        name.push_str("`")?;
    } else {
        let mut buffer = Buffer::new();
        name.push_str("argument ")?;
        name.push_str(buffer.format(index + 1))?;
    }
    Ok(name)
}

// Returns the line of the program, what is before an argument, its name, and what is after it.
fn usage_line(alloc: Global, program: &str, argument: &str, reason: &Reason) -> Result<String>
    ensures ok { IfOk result (λ s. string_bytes s
        ≡ report_line program.now reason.now.before.now argument.now
        (string_bytes reason.now.after)) }
    ensures only { OnlyNoMemory result }
{
    let mut line = String::new(alloc);
    line.push_str(program)?;
    line.push_str(": ")?;
    line.push_str(reason.before)?;
    line.push_str(argument)?;
    line.push_str(reason.after.as_str())?;
    line.push_str("\n")?;
    Ok(line)
}

impl Usage {
    // Whether some argument is one of the group.
    fn has_argument_of(&self, words: &Words, group: u8) -> bool {
        'words: for i in 0..words.len() {
            if self.group_of(words.word(i)) == Some(group) {
                return true;
            }
        }
        false
    }

    // Returns what is wrong with the value of an argument that is a JSON text, where its form says
    // so.
    fn value_fault(&self, alloc: Global, word: &str) -> Result<Option<String>>
        ensures { OnlyNoMemory result }
    {
        let Some(argument) = self.text_argument(word) else {
            return Ok(None);
        };
        let text = if is_option(word) {
            split_option(word).1
        } else {
            word
        };
        match read_argument(alloc, text) {
            Ok(doc) => Ok(form_fault(alloc, argument, View::packed(doc.view()))?),
            Err(error) if error.code == ErrorCode::NoMemory => Err(error),
            Err(_) => Ok(None),
        }
    }

    // Returns the line that says what is missing, or which argument has a value of another form;
    // an empty text where neither is known.
    fn form_report(&self, alloc: Global, words: &Words) -> Result<String>
        ensures { OnlyNoMemory result }
    {
        if let Some(missing) = self.missing {
            if !self.has_argument_of(words, missing.group) {
                let (program, name) = (self.program, missing.name);
                return Ok(format!(in alloc; "{program}: {name} is missing\n")?);
            }
        }
        'words: for i in 0..words.len() {
            let word = words.word(i);
            if let Some(fault) = self.value_fault(alloc, word)? {
                let argument = name_argument(alloc, i, word)?;
                let after = format!(in alloc; ": {}", fault.as_str())?;
                return usage_line(
                    alloc,
                    self.program,
                    argument.as_str(),
                    &Reason::after(after),
                );
            }
        }
        Ok(String::new(alloc))
    }

    /// Returns the report of the invalid arguments `words`, with a newline at the end: the name of
    /// the program, the first argument that does not fit those before it, and what is wrong with
    /// it. If each argument fits, the report says whose value does not have its form, or what is
    /// missing. If neither is known, it is empty. Fails with `NoMemory` if memory runs out.
    pub fn arguments_report(&self, alloc: Global, words: &Words) -> Result<String>
        ensures first { IfOk result (λ s. (i : ℕ) → FirstInvalid self.now words.now i
            → Names self.now.program.now words.now i (string_bytes s)) }
        ensures only { OnlyNoMemory result }
    {
        let Some(invalid) = first_invalid(alloc, self, words)? else {
            return self.form_report(alloc, words);
        };
        let argument = name_argument(alloc, invalid.index, words.word(invalid.index))?;
        let reason = self.reason(alloc, words, &invalid)?;
        let line = usage_line(alloc, self.program, argument.as_str(), &reason)?;
        Ok(line)
    }

    // Returns the report and the hint of the program.
    fn explanation(&self, alloc: Global, words: &Words) -> Result<String>
        ensures first { IfOk result (λ s. (i : ℕ) → FirstInvalid self.now words.now i
            → NamesBefore self.now.program.now words.now i self.now.about.hint.now
            (string_bytes s)) }
        ensures only { OnlyNoMemory result }
    {
        let mut text = self.arguments_report(alloc, words)?;
        text.push_str(self.about.hint)?;
        Ok(text)
    }

    /// Writes to `errs` why the arguments `words` are invalid, and a hint at the help. Does so only
    /// if `status`, that of the program's run, is 2, the status of invalid arguments; else writes
    /// nothing. Writes the hint alone if memory runs out.
    ///
    /// ```
    /// use mezdruk_help::USAGE_RPC;
    /// use json_text::{VecSink, Words};
    /// let mut words = Words::new(alloc);
    /// words.push("--port")?;
    /// let mut errs = VecSink::new(alloc);
    /// USAGE_RPC.explain(alloc, &words, 2, &mut errs);
    /// let expected = b"mezdruk rpc: there is no option `--port`\n\
    ///     Run `mezdruk rpc --help` for usage.\n";
    /// assert_eq!(rt; errs.as_slice(), expected.as_slice());
    /// ```
    pub fn explain<E: Sink>(&self, alloc: Global, words: &Words, status: u8, errs: &mut E)
        ensures explained { status ≡ 2
            → ExplainsUsage self.now words.now (E.state errs.old) (E.state errs.new) }
        ensures untouched { status ≢ 2 → E.state errs.new ≡ E.state errs.old }
    {
        if status != Status::InvalidArguments.number() {
            return;
        }
        match self.explanation(alloc, words) {
            Ok(text) => report_text(errs, text.as_bytes()),
            Err(_) => report_text(errs, self.about.hint.as_bytes()),
        }
    }
}
