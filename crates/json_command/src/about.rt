// What a program says of itself.
ghost use Rattle.std.specs.Prelude.{◌≡◌, ◌≢◌, None, option_map, IfSome, IfNone};
ghost use Rattle.json_command.specs.Arguments.{asks_for_help, asks_for_version, text_asked, StatusWrites, SaysAsked};
ghost use Rattle.json_command.specs.Reporting.{Reports};

use crate::output::write_text;
use crate::reporting::report_text;
use crate::status::Status;
use json_io::{Sink, Words};

// Whether an argument asks for the help.
fn asks_for_help(argument: &str) -> bool
    ensures { result ≡ asks_for_help argument.now }
{
    argument == "--help" || argument == "-h"
}

// Whether an argument asks for the version.
fn asks_for_version(argument: &str) -> bool
    ensures { result ≡ asks_for_version argument.now }
{
    argument == "--version" || argument == "-V"
}

/// What a program says of itself: its help, its version, and a hint where to look for help.
///
/// ```
/// use json_command::{About, Status};
/// use json_text::{VecSink, Words};
/// let about = About {
///     help: "Usage: tool [FILE]\n",
///     version: "tool 1.0.0\n",
///     hint: "Run `tool --help` for usage.\n",
/// };
/// let mut arguments = Words::new(alloc);
/// arguments.push("--version")?;
/// let mut sink = VecSink::new(alloc);
/// assert_eq!(rt; about.say_asked(&arguments, &mut sink), Some(Status::Success));
/// assert_eq!(rt; sink.as_slice(), b"tool 1.0.0\n".as_slice());
/// ```
#[derive(Clone, Copy, Debug)]
pub struct About {
    /// The text that `--help` and `-h` print.
    pub help: &'static str,
    /// The text that `--version` and `-V` print.
    pub version: &'static str,
    /// The text that is added to the error of invalid arguments.
    pub hint: &'static str,
}

impl About {
    /// Returns the text that the arguments ask for: the help if `--help` or `-h` is the only
    /// argument, the version if `--version` or `-V` is. Returns `None` for all other arguments.
    pub fn text_asked(&self, arguments: &Words) -> Option<&'static str>
        ensures { option_map (λ s. s.now) result
            ≡ text_asked self.now.help.now self.now.version.now arguments.now }
    {
        if arguments.len() != 1 {
            return None;
        }
        let argument = arguments.word(0);
        if asks_for_help(argument) {
            return Some(self.help);
        }
        if asks_for_version(argument) {
            return Some(self.version);
        }
        None
    }

    /// Writes the text that the arguments ask for, as [`About::text_asked`] returns it, and flushes
    /// the sink. Returns the status of that: `Success`, `WriteFailed` or `OutOfMemory`. Returns
    /// `None`, and writes nothing, if they ask for no text.
    pub fn say_asked<K: Sink>(&self, arguments: &Words, sink: &mut K) -> Option<Status>
        ensures said { IfSome result (SaysAsked self.now.help.now self.now.version.now arguments.now
            (K.state sink.old) (K.state sink.new)) }
        ensures unasked { IfNone result
            (text_asked self.now.help.now self.now.version.now arguments.now ≡ None) }
        ensures untouched { IfNone result (K.state sink.new ≡ K.state sink.old) }
    {
        let text = self.text_asked(arguments)?;
        Some(write_with_status(sink, text))
    }

    /// Writes the hint to `errs` if `status` is 2, the status of invalid arguments, and nothing for
    /// any other status. No error is returned: if a write fails, `errs` has gained a prefix of the
    /// hint.
    pub fn add_hint<E: Sink>(&self, status: u8, errs: &mut E)
        ensures added { status ≡ 2
            → Reports self.now.hint.now (E.state errs.old) (E.state errs.new) }
        ensures untouched { status ≢ 2 → E.state errs.new ≡ E.state errs.old }
    {
        if status == Status::InvalidArguments.number() {
            report_text(errs, self.hint.as_bytes());
        }
    }
}

// Writes a text, flushed, and returns the status.
fn write_with_status<K: Sink>(sink: &mut K, text: &str) -> Status
    ensures { StatusWrites (K.state sink.old) (K.state sink.new) text.now result }
{
    match write_text(sink, text.as_bytes()) {
        Ok(()) => Status::Success,
        Err(error) => Status::of_error(&error),
    }
}
