// What is said of a JSON Patch that is no array of operations.
ghost use Rattle.std.specs.Prelude.{◌≡◌, ◌≢◌};

use json_command::{Status, read_argument, report_text};
use json_text::{Sink, Words};
use json_value::{Value, View};
use mezdruk_files::{ApplyPatch, ChangeCode, PatchProblem, ValueChange};
use mezdruk_help::USAGE_JSON_PATCH;
use std::alloc::{AllocError, Global};

// Returns the index of the first element that is no operation, and what is wrong with it. Without
// an index the patch is no array. Returns `None` if the patch is an array of operations, or if
// memory runs out.
fn find_bad_operation(alloc: Global, patch: View<'_>) -> Option<(Option<u32>, PatchProblem)> {
    // All operations are read before the first is applied, so this is found over any value.
    let error = ApplyPatch::new(patch)?
        .apply(alloc, &mut Value::Null)
        .err()?;
    match error.code {
        ChangeCode::BadPatch(problem) => Some((error.number, problem)),
        _ => None,
    }
}

// Returns the line about the operation of this index; about the patch if there is no index.
fn problem_line(
    alloc: Global,
    index: Option<u32>,
    problem: PatchProblem,
) -> Result<String, AllocError> {
    let (program, sentence) = (USAGE_JSON_PATCH.program, problem.sentence());
    match index {
        Some(index) => format!(in alloc; "{program}: operation {index}: {sentence}\n"),
        None => format!(in alloc; "{program}: {sentence}\n"),
    }
}

// Returns the line about the JSON Patch that the arguments have. Returns `None` if they have none,
// if it is an array of operations, or if memory runs out.
fn bad_patch_line(alloc: Global, words: &Words) -> Option<String> {
    if words.len() != 1 {
        return None;
    }
    let text = words.word(0).strip_prefix("--patch=")?;
    let patch = read_argument(alloc, text).ok()?;
    let (index, problem) = find_bad_operation(alloc, View::packed(patch.view()))?;
    problem_line(alloc, index, problem).ok()
}

/// Writes to `errs` which element of the JSON Patch in the arguments `words` is no operation, and
/// why, or that the patch is no array. Does so only if `status`, that of the program's run, is 3,
/// the status of a patch that does not apply. Writes nothing of any other patch, nor if memory runs
/// out.
pub fn explain_bad_patch<E: Sink>(alloc: Global, words: &Words, status: u8, errs: &mut E)
    ensures untouched { status ≢ 3 → E.state errs.new ≡ E.state errs.old }
{
    if status != Status::EditFailed.number() {
        return;
    }
    if let Some(line) = bad_patch_line(alloc, words) {
        report_text(errs, line.as_bytes());
    }
}
