// The report of arguments that could not be read.
use json_command::{Status, report_text};
use json_io::StdSink;
use std::alloc::AllocError;
use std::env::Env;

/// The greatest number of bytes that an argument of the command line has.
const MAX_BYTES: usize = 2_097_152;

// Returns the number of the first argument that is not UTF-8, counted from 1; `None` if there is no
// such argument, or if memory runs out.
fn first_unread(rt: &HostRuntime) -> Option<usize> {
    let mut bytes = vec![in rt.alloc(); 0; MAX_BYTES].ok()?;
    'arguments: for number in 1..usize::MAX {
        let length = rt.arg(number, &mut bytes).ok()?;
        if str::from_utf8(bytes.get(..length)?).is_err() {
            return Some(number);
        }
    }
    None
}

// Returns the line that says which argument could not be read.
fn unread_line(rt: &HostRuntime, program: &str) -> Result<String, AllocError> {
    match first_unread(rt) {
        Some(number) => format!(in rt.alloc(); "{program}: argument {number} is not UTF-8\n"),
        None => format!(in rt.alloc();
            "{program}: the arguments could not be read: each has to be UTF-8\n"
        ),
    }
}

/// Writes to standard error which argument of the command line is not UTF-8, if `status` is that of
/// arguments that could not be read; else writes nothing. `program` is the name that begins the
/// line, and `status` that with which [`Console::open`](json_command::Console::open) failed.
pub fn report_unread(rt: &HostRuntime, program: &str, status: Status) {
    if status != Status::NoArguments {
        return;
    }
    if let Ok(line) = unread_line(rt, program) {
        report_text(&mut StdSink::new(rt.stderr()), line.as_bytes());
    }
}
