// What is reported of arguments that are refused.
use crate::operand::OperandKind;
use crate::problem::{ArgumentsError, MissingArgument, Problem};
use crate::query_report::query_problem;
use crate::setting::Setting;
use crate::verb::Verb;
use json_io::{Error, Words, fault_text};
use std::alloc::{AllocError, Global};
use strsim::osa_distance;

/// The commands, and the programs that commands run.
const COMMANDS: [&str; 19] = [
    "fmt", "check", "get", "keys", "length", "query", "edit", "set", "insert", "push", "remove",
    "patch", "merge", "diff", "overlay", "reshape", "lines", "rpc", "history",
];

/// The options.
const OPTIONS: [&str; 21] = [
    "--compact",
    "--pretty",
    "--indent=",
    "--tabs",
    "--sort-keys",
    "--unique-keys",
    "--depth=",
    "--raw",
    "--string",
    "--in-place",
    "--verbose",
    "--path=",
    "--count",
    "--exit-status",
    "--lines",
    "--stream",
    "--bom",
    "--color",
    "--edits=",
    "--patch=",
    "--merge=",
];

// Returns the word of a list that is nearest, if it is near: at most 2 letters are added, left out,
// changed, or exchanged with the next one.
fn nearest<'a>(alloc: Global, word: &str, list: &[&'a str]) -> Result<Option<&'a str>, AllocError> {
    let mut found = None;
    let mut least = 3;
    'list: for known in list {
        let distance = osa_distance(alloc, word, known)?;
        if distance < least {
            least = distance;
            found = Some(*known);
        }
    }
    Ok(found)
}

// Returns the command that does what other tools call so.
fn meant(word: &str) -> Option<&'static str> {
    match word {
        "del" | "delete" | "rm" => Some("remove"),
        "validate" | "lint" => Some("check"),
        "format" | "pretty" | "print" => Some("fmt"),
        "add" | "append" => Some("push"),
        "update" | "replace" => Some("set"),
        "find" | "show" => Some("get"),
        "select" | "jsonpath" | "jq" => Some("query"),
        "count" | "len" | "size" => Some("length"),
        "ls" | "names" | "members" => Some("keys"),
        "compare" | "cmp" => Some("diff"),
        "layer" | "combine" => Some("overlay"),
        _ => None,
    }
}

// Appends a suggestion.
fn suggest(text: &mut String, near: Option<&str>) -> Result<(), AllocError> {
    match near {
        Some(near) => {
            text.push_str("; did you mean `")?;
            text.push_str(near)?;
            text.push_str("`?")
        }
        None => Ok(()),
    }
}

// Returns the name of an option with the equals sign, if it has one.
fn option_name(word: &str) -> &str {
    match word.split_once('=') {
        Some((name, _)) => name,
        None => word,
    }
}

// Returns what the value of an option has to be, if the option has one.
fn value_wanted(name: &str) -> Option<&'static str> {
    match name {
        "--indent" => Some("takes a number from 0 to 8"),
        "--depth" => Some("takes a number from 0 to 1024 without leading zeros"),
        "--color" => Some("takes `auto`, `always` or `never`"),
        "--edits" | "--patch" | "--merge" => Some("takes the name of a file"),
        "--path" => Some("takes a JSON Pointer, as --path=/tags/0, or a JSON array of steps"),
        _ => None,
    }
}

// Whether some command has the option.
fn is_option_of_another(word: &str) -> bool {
    if word == "--indent" || word != "--merge" && Setting::of_word(word).is_some() {
        return true;
    }
    match word.split_once('=') {
        Some(("--edits" | "--patch" | "--merge" | "--path", value)) => !value.is_empty(),
        _ => false,
    }
}

// Returns what is wrong with an option that is unknown.
fn unknown_option(alloc: Global, word: &str) -> Result<String, AllocError> {
    if word == "--help" || word == "-h" {
        return format!(in alloc; "`{word}` is given alone, or alone after the command");
    }
    if is_option_of_another(word) {
        return format!(in alloc; "the command has no option `{word}`");
    }
    if let Some(wanted) = value_wanted(option_name(word)) {
        return format!(in alloc; "`{word}`: the option {wanted}");
    }
    let mut text = format!(in alloc; "there is no option `{word}`")?;
    suggest(&mut text, nearest(alloc, word, &OPTIONS)?)?;
    Ok(text)
}

// Returns what is wrong with a command that is unknown.
fn unknown_command(alloc: Global, word: &str) -> Result<String, AllocError> {
    let mut text = format!(in alloc; "there is no command `{word}`")?;
    let near = match meant(word) {
        Some(command) => Some(command),
        None => nearest(alloc, word, &COMMANDS)?,
    };
    suggest(&mut text, near)?;
    Ok(text)
}

// Returns what is wrong with an option if one of its kind was there.
fn repeated_option(alloc: Global, word: &str) -> Result<String, AllocError> {
    match Setting::of_word(word) {
        Some(Setting::Layout(_)) => format!(in alloc; "`{word}` asks for a second layout"),
        Some(Setting::Color(_)) => {
            format!(in alloc; "`{word}`: at most one of --color, -C and -M is taken, once")
        }
        Some(Setting::Input(_)) => {
            format!(in alloc; "`{word}`: at most one of --lines and --stream is taken, once")
        }
        Some(_) => format!(in alloc; "`{word}`: the option occurs twice"),
        None if word == "--indent" => format!(in alloc; "`{word}` asks for a second layout"),
        None => format!(in alloc; "`{word}` names a second file"),
    }
}

// Returns what an option has to precede.
fn late_option(alloc: Global, word: &str) -> Result<String, AllocError> {
    let later = match Setting::of_word(word) {
        Some(_) => "VALUE",
        None => "operands and files",
    };
    format!(in alloc; "`{word}`: the option has to come before {later}")
}

// Returns whether a word needs no quotes in a shell and no escape in a JSON string.
fn is_plain_word(word: &str) -> bool {
    let plain = word.bytes().all(
        |byte| matches!(byte, b'a'..=b'z' | b'A'..=b'Z' | b'0'..=b'9' | b'_' | b'.'),
    );
    !word.is_empty() && plain
}

// Returns the line that says how a word that is no JSON text may be meant, or nothing.
fn text_hint(alloc: Global, kind: OperandKind, word: &str) -> Result<String, AllocError> {
    if !is_plain_word(word) {
        return Ok(String::new(alloc));
    }
    match kind {
        OperandKind::Path => format!(in alloc; "\nhint: did you mean `/{word}`?"),
        OperandKind::Value => {
            format!(in alloc; "\nhint: did you mean '\"{word}\"', or `--string {word}`?")
        }
        OperandKind::Key | OperandKind::Step => {
            format!(in alloc; "\nhint: did you mean '\"{word}\"'?")
        }
        _ => Ok(String::new(alloc)),
    }
}

// Returns what is wrong with an operand that is no JSON text, and a hint if there is one.
fn no_text(
    alloc: Global,
    kind: OperandKind,
    word: &str,
    error: &Error,
) -> Result<String, AllocError> {
    let line = fault_text(error);
    let bytes = line.as_bytes();
    let fault = str::from_utf8(bytes.strip_suffix(b"\n").unwrap_or(bytes)).unwrap_or("");
    let wanted = match kind {
        OperandKind::Path => "JSON Pointer and no JSON text",
        _ => "JSON text",
    };
    let hint = text_hint(alloc, kind, word)?;
    format!(in alloc; "{} is no {wanted}: {fault}{}", kind.name(), hint.as_str())
}

// Returns what the operand has to be.
fn form_wanted(kind: OperandKind) -> &'static str {
    match kind {
        OperandKind::Path => "is no JSON Pointer and no array of steps",
        OperandKind::Query => "is no JSONPath query",
        OperandKind::Edits => "is no array of edits",
        OperandKind::Key => "is no string",
        OperandKind::Step => "is no string and no index",
        OperandKind::Value | OperandKind::Text | OperandKind::Patch => "is no value",
        OperandKind::File => "is no file",
    }
}

// Returns what is wrong with an operand of another form.
fn wrong_form(alloc: Global, kind: OperandKind, step: Option<usize>) -> Result<String, AllocError> {
    let name = kind.name();
    match step {
        Some(number) => format!(in alloc; "step {number} of {name} is no string and no index"),
        None => format!(in alloc; "{name} {}", form_wanted(kind)),
    }
}

// Returns what is wrong with an argument of a command.
fn problem_text(alloc: Global, word: &str, problem: &Problem) -> Result<String, AllocError> {
    match *problem {
        Problem::Unknown => unknown_option(alloc, word),
        Problem::Repeated => repeated_option(alloc, word),
        Problem::StandardInput => {
            format!(in alloc; "`{word}`: standard input cannot be changed in place")
        }
        Problem::StreamRules => {
            format!(in alloc; "`{word}`: --stream goes with no --unique-keys and no --depth=N")
        }
        Problem::Late => late_option(alloc, word),
        Problem::NoWidth => format!(in alloc; "`{word}`: --indent takes a number from 0 to 8"),
        Problem::NoText { kind, error } => no_text(alloc, kind, word, &error),
        Problem::WrongForm { kind, step } => wrong_form(alloc, kind, step),
        Problem::NoQuery { error } => query_problem(alloc, word, error),
        Problem::NoEdit { index, reason } => {
            format!(in alloc; "element {index} of EDITS is no edit: {reason}")
        }
    }
}

// Returns what is missing.
fn missing_text(alloc: Global, missing: MissingArgument) -> Result<String, AllocError> {
    match missing {
        MissingArgument::Command => format!(in alloc; "there is no command"),
        MissingArgument::Operand(kind) => format!(in alloc; "{} is missing", kind.name()),
        MissingArgument::Width => format!(in alloc; "the number after `--indent` is missing"),
        MissingArgument::File => format!(in alloc; "a file to change in place is missing"),
    }
}

// Returns the word of an index, or an empty one if there is none.
fn word_at(words: &Words, index: usize) -> &str {
    if index < words.len() {
        words.word(index)
    } else {
        ""
    }
}

// Adds the name of the program, that of the command if it is one, and a newline.
fn report_of(alloc: Global, words: &Words, text: &str) -> Result<String, AllocError> {
    match Verb::of_word(word_at(words, 0)) {
        Some(verb) => format!(in alloc; "mezdruk {}: {text}\n", verb.name()),
        None => format!(in alloc; "mezdruk: {text}\n"),
    }
}

/// Returns the report of arguments that are not valid, one line or more with a newline at the end:
/// the name of the program and of the command, what is wrong with the argument that `error` names,
/// or what is missing. `words` are the arguments. Fails if memory runs out.
///
/// ```
/// use mezdruk_arguments::{arguments_report, read_arguments};
/// use json_text::Words;
/// let mut words = Words::new(alloc);
/// words.push("fmt")?;
/// words.push("--prety")?;
/// let error = read_arguments(alloc, &words).err().ok_or("valid")?;
/// let report = arguments_report(alloc, &words, &error)?;
/// let expected = "mezdruk fmt: there is no option `--prety`; did you mean `--pretty`?\n";
/// assert_eq!(rt; report.as_str(), expected);
/// ```
pub fn arguments_report(
    alloc: Global,
    words: &Words,
    error: &ArgumentsError,
) -> Result<String, AllocError> {
    let text = match *error {
        ArgumentsError::OutOfMemory => format!(in alloc; "memory ran out")?,
        ArgumentsError::Invalid { index: 0, .. } => unknown_command(alloc, word_at(words, 0))?,
        ArgumentsError::Invalid { index, problem } => {
            problem_text(alloc, word_at(words, index), &problem)?
        }
        ArgumentsError::Incomplete(missing) => missing_text(alloc, missing)?,
    };
    report_of(alloc, words, text.as_str())
}

/// Returns the report of a file that does not contain the operand that was looked for in it: the
/// name of the program, of the command and of the file, and what is wrong with its content, with a
/// newline at the end. `words` are the arguments. Fails if memory runs out.
///
/// ```
/// use mezdruk_arguments::{Problem, operand_file_report};
/// use json_text::Words;
/// let mut words = Words::new(alloc);
/// words.push("edit")?;
/// let problem = Problem::NoEdit { index: 1, reason: "it is no array" };
/// let report = operand_file_report(alloc, &words, "e.json", &problem)?;
/// let expected = "mezdruk edit: e.json: element 1 of EDITS is no edit: it is no array\n";
/// assert_eq!(rt; report.as_str(), expected);
/// ```
pub fn operand_file_report(
    alloc: Global,
    words: &Words,
    file: &str,
    problem: &Problem,
) -> Result<String, AllocError> {
    let told = problem_text(alloc, file, problem)?;
    let text = format!(in alloc; "{file}: {}", told.as_str())?;
    report_of(alloc, words, text.as_str())
}
