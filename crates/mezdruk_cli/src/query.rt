// What a query selects of the documents.

use crate::changes::Task;
use crate::missing::Target;
use json_command::{Console, Status};
use json_number::JsonNumberTrait;
use json_query::Query;
use json_value::{Value, View};
use mezdruk_files::{ChangeError, QueryAll, QueryCount, ValueChange};
use std::alloc::Global;
use std::cell::Cell;

// A change that notes whether it finds something in a document.
#[derive(Clone, Copy, Drop)]
struct Noting<'a, C> {
    change: C,
    found: &'a Cell<bool>,
}

// Returns whether a value is an array that is not empty, or a number other than 0.
fn has_nodes(view: View<'_>) -> bool {
    match view.as_array() {
        Some(array) => !array.is_empty(),
        None => view
            .as_number()
            .is_some_and(|number| number.as_u64() != Some(0)),
    }
}

impl<'a, C: ValueChange> ValueChange for Noting<'a, C> {
    ghost changed = { λ noting tree. C.changed noting.change tree };

    fn apply(&self, alloc: Global, value: &mut Value) -> Result<(), ChangeError> {
        let result = self.change.apply(alloc, value);
        if has_nodes(value.view()) {
            self.found.set(true);
        }
        result
    }

    fn part_name(&self) -> &'static str {
        self.change.part_name()
    }
}

// Makes a change of each document, and returns the status: another one if nothing is found in any
// of them and an option asks for that.
fn run<C: ValueChange + Copy + Drop>(
    rt: &HostRuntime,
    console: &mut Console,
    task: Task<'_>,
    change: C,
) -> u8 {
    let found = Cell::new(false);
    let found = &found;
    let status = task.run(rt, console, Noting { change, found }, Target::Document);
    if task.settings.must_find && !found.get() {
        status.max(Status::EditFailed.number())
    } else {
        status
    }
}

/// Prints what the query selects of each document, and returns the status.
pub fn query(rt: &HostRuntime, console: &mut Console, task: Task<'_>, operand: &Value) -> u8 {
    let text = operand.view().text().unwrap_or("$");
    let Ok(query) = Query::parse(rt.alloc(), text) else {
        return Status::OutOfMemory.number();
    };
    let query = &query;
    if task.settings.count {
        run(rt, console, task, QueryCount { query })
    } else {
        run(rt, console, task.of_each(), QueryAll { query })
    }
}
