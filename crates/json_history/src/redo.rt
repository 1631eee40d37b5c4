// An edit that was undone.
use crate::change::Change;
use json_value::Edit;

// An edit to redo, with the change that undoes it again.
#[derive(Drop)]
pub(crate) struct Redo {
    pub(crate) edit: Edit,
    pub(crate) change: Change,
}
