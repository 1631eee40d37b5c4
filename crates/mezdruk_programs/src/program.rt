// The programs that other commands run.
ghost use Rattle.std.specs.Prelude.{◌≡◌, drop, IfOk, IfNone};
ghost use Rattle.json_io.specs.Errors.{OnlyNoMemory};

use json_command::Status;
use json_history::run_history;
use json_io::{Result, Sink, Source, Words};
use json_lines::run_lines;
use json_rpc::run_rpc;
use mezdruk_help::{USAGE_HISTORY, USAGE_LINES, USAGE_RESHAPE, USAGE_RPC, Usage};
use std::alloc::Global;

/// A program that runs in place of the tool.
#[derive(Clone, Copy)]
enum Program {
    Reshape,
    Lines,
    Rpc,
    History,
}

impl Program {
    // Returns the program of this name.
    fn of_word(word: &str) -> Option<Program> {
        match word {
            "reshape" => Some(Program::Reshape),
            "lines" => Some(Program::Lines),
            "rpc" => Some(Program::Rpc),
            "history" => Some(Program::History),
            _ => None,
        }
    }

    // Returns the help and version of the program, and what it accepts on its command line.
    fn usage(self) -> Usage {
        match self {
            Program::Reshape => USAGE_RESHAPE,
            Program::Lines => USAGE_LINES,
            Program::Rpc => USAGE_RPC,
            Program::History => USAGE_HISTORY,
        }
    }
}

// Copies the arguments after the first.
fn later_words(alloc: Global, words: &Words) -> Result<Words>
    ensures ok { IfOk result (λ later. later ≡ drop 1 words.now) }
    ensures only { OnlyNoMemory result }
{
    let mut later = Words::new(alloc);
    for i in 1..words.len() {
        later.push(words.word(i))?;
    }
    Ok(later)
}

/// Runs the program that the first of the arguments `words` names (`reshape`, `lines`, `rpc` or
/// `history`) on the arguments after it, and returns its status. Reads its input from `source`, and
/// writes its output to `sink` and its errors to `errs`. These are the same as those of the program
/// by itself, also for `--help`, `--version` and invalid arguments.
///
/// Returns `None`, and reads and writes nothing, if there are no arguments or the first names no
/// such program. The status is 6 if memory runs out.
pub fn run_named<S: Source, K: Sink, E: Sink>(
    alloc: Global,
    words: &Words,
    source: &mut S,
    sink: &mut K,
    errs: &mut E,
) -> Option<u8>
    ensures unread { IfNone result (S.state source.new ≡ S.state source.old) }
    ensures unwritten { IfNone result (K.state sink.new ≡ K.state sink.old) }
    ensures unreported { IfNone result (E.state errs.new ≡ E.state errs.old) }
{
    if words.len() == 0 {
        return None;
    }
    let program = Program::of_word(words.word(0))?;
    let Ok(arguments) = later_words(alloc, words) else {
        return Some(Status::OutOfMemory.number());
    };
    let usage = program.usage();
    if let Some(status) = usage.about.say_asked(&arguments, sink) {
        return Some(status.number());
    }
    let status = match program {
        Program::Reshape => reshape::run(alloc, &arguments, source, sink, errs),
        Program::Lines => run_lines(alloc, &arguments, source, sink, errs),
        Program::Rpc => run_rpc(alloc, &arguments, source, sink, errs),
        Program::History => run_history(alloc, &arguments, source, sink, errs),
    };
    usage.explain(alloc, &arguments, status, errs);
    Some(status)
}
