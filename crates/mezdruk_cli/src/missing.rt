// Hints where a command leads to no value of a document, or to one of another kind.

use json_doc::JsonType;
use json_patch::Pointer;
use json_patch::internal::push_escaped;
use json_text::{Result, Rules};
use json_value::{Edit, Path, PointerNode, Value, View};
use mezdruk_files::{ValuePath, read_value};
use std::alloc::Global;

/// Where a command leads in each document.
#[derive(Clone, Copy)]
pub enum Target<'a> {
    /// To the whole document.
    Document,
    /// To the value of a pointer.
    Pointer(&'a Pointer),
    /// To the value at the end of a path.
    Path(&'a Path),
    /// To the values at several paths.
    Paths(&'a [ValuePath]),
    /// To an object.
    Object(&'a ValuePath),
    /// To an array or an object.
    Container(&'a ValuePath),
    /// To the place of a pointer, for an edit there.
    EditAt(&'a Pointer, &'a Edit),
    /// To the places of edits, in turn.
    Edits(&'a [Edit]),
}

// A value that is there, and the pointer to it.
#[derive(Drop)]
struct Found<'a> {
    place: String,
    view: View<'a>,
}

// Where a walk ends: at a value, or at the hint that says why not.
#[derive(Drop)]
enum Walk<'a> {
    Found(Found<'a>),
    Missing(String),
}

// Returns what a value is.
fn kind_of(alloc: Global, view: View<'_>) -> Result<String> {
    if let Some(array) = view.as_array() {
        let text = match array.len() {
            0 => format!(in alloc; "an empty array"),
            1 => format!(in alloc; "an array of 1 element"),
            count => format!(in alloc; "an array of {count} elements"),
        };
        return Ok(text?);
    }
    let name = match view.get_type() {
        JsonType::Null => "null",
        JsonType::Boolean => "a boolean",
        JsonType::Number => "a number",
        JsonType::String => "a string",
        JsonType::Object => "an object",
        JsonType::Array => "an array",
    };
    Ok(String::from_str(alloc, name)?)
}

impl<'a> Found<'a> {
    // Returns the hint that the value is there and lacks this.
    fn hint(&self, alloc: Global, lacks: &str) -> Result<String> {
        let kind = kind_of(alloc, self.view)?;
        let (place, kind) = (self.place.as_str(), kind.as_str());
        let text = if place.is_empty() {
            format!(in alloc; "hint: the document is {kind}{lacks}\n")
        } else {
            format!(in alloc; "hint: `{place}` is {kind}{lacks}\n")
        };
        Ok(text?)
    }

    // Goes on to the value of a step, which has this text.
    fn step(self, alloc: Global, text: &str, next: Option<View<'a>>) -> Result<Walk<'a>> {
        let Some(view) = next else {
            let lacks = format!(in alloc; " without `{text}`")?;
            return Ok(Walk::Missing(self.hint(alloc, lacks.as_str())?));
        };
        let mut place = self.place;
        place.push('/')?;
        place.push_str(text)?;
        Ok(Walk::Found(Found { place, view }))
    }
}

// Returns the text of a step in a pointer.
fn text_of_step(alloc: Global, step: &PointerNode) -> Result<String> {
    match step {
        PointerNode::Key(key) => {
            let mut text = String::new(alloc);
            push_escaped(&mut text, key.as_str())?;
            Ok(text)
        }
        PointerNode::Index(index) => Ok(format!(in alloc; "{index}")?),
    }
}

// Follows steps.
fn follow_steps<'a>(alloc: Global, steps: &[PointerNode], root: View<'a>) -> Result<Walk<'a>> {
    let mut here = Found {
        place: String::new(alloc),
        view: root,
    };
    for i in 0..steps.len() {
        let text = text_of_step(alloc, &steps[i])?;
        let next = here.view.pointer(&steps[i..i + 1]);
        match here.step(alloc, text.as_str(), next)? {
            Walk::Found(found) => here = found,
            missing => return Ok(missing),
        }
    }
    Ok(Walk::Found(here))
}

// Follows the tokens of a pointer.
fn follow_pointer<'a>(alloc: Global, pointer: &Pointer, root: View<'a>) -> Result<Walk<'a>> {
    let mut here = Found {
        place: String::new(alloc),
        view: root,
    };
    let tokens = pointer.to_text(alloc)?;
    'tokens: for token in tokens.as_str().split('/').skip(1) {
        let text = format!(in alloc; "/{token}")?;
        let next = match Pointer::parse(alloc, text.as_str()) {
            Ok(pointer) => pointer.find(here.view),
            Err(_) => None,
        };
        match here.step(alloc, token, next)? {
            Walk::Found(found) => here = found,
            missing => return Ok(missing),
        }
    }
    Ok(Walk::Found(here))
}

// Follows a path.
fn follow_path<'a>(alloc: Global, path: &ValuePath, root: View<'a>) -> Result<Walk<'a>> {
    match path {
        ValuePath::Pointer(pointer) => follow_pointer(alloc, pointer, root),
        ValuePath::Steps(path) => follow_steps(alloc, path.steps(), root),
    }
}

// Returns the hint at the first of several paths that leads to nothing.
fn hint_of_paths(alloc: Global, paths: &[ValuePath], root: View<'_>) -> Result<Option<String>> {
    for path in paths {
        if let Walk::Missing(hint) = follow_path(alloc, path, root)? {
            return Ok(Some(hint));
        }
    }
    Ok(None)
}

// Returns the hint at why there is nothing at the end of a walk, or that the value there is of
// another kind.
fn hint_of_kind(alloc: Global, walk: Walk<'_>, kind: &str) -> Result<Option<String>> {
    match walk {
        Walk::Found(found) => Ok(Some(found.hint(alloc, kind)?)),
        Walk::Missing(hint) => Ok(Some(hint)),
    }
}

// Returns the hint at why an edit does not apply to the value where it leads.
fn hint_of_edit(alloc: Global, edit: &Edit, walk: Walk<'_>) -> Result<Option<String>> {
    let found = match walk {
        Walk::Found(found) => found,
        Walk::Missing(hint) => return Ok(Some(hint)),
    };
    match edit {
        Edit::Set { .. } => Ok(None),
        Edit::Insert { .. } => Ok(Some(found.hint(alloc, ", and no object")?)),
        Edit::Push { .. } => Ok(Some(found.hint(alloc, ", and no array")?)),
        Edit::Remove { step, .. } => {
            let text = text_of_step(alloc, step)?;
            let lacks = format!(in alloc; " without `{}`", text.as_str())?;
            Ok(Some(found.hint(alloc, lacks.as_str())?))
        }
    }
}

// Returns the hint at why the first of some edits that does not apply to a value does not.
fn hint_of_edits(alloc: Global, edits: &[Edit], value: Value) -> Result<Option<String>> {
    let mut value = value;
    for edit in edits {
        if value.apply(alloc, edit).is_err() {
            let walk = follow_steps(alloc, edit.path().steps(), value.view())?;
            return hint_of_edit(alloc, edit, walk);
        }
    }
    Ok(None)
}

// Returns the hint of a walk that ends where nothing is.
fn hint_of_walk(walk: Walk<'_>) -> Option<String> {
    match walk {
        Walk::Found(_) => None,
        Walk::Missing(hint) => Some(hint),
    }
}

/// Returns the hint at why a command does not apply to a document of these bytes: the last value on
/// the way that is there, and what it lacks. Returns `None` if nothing is known. Fails if the bytes
/// are no document by the rules, and with `NoMemory` if memory runs out.
pub fn hint_of_target(
    alloc: Global,
    bytes: &[u8],
    rules: Rules,
    target: Target<'_>,
) -> Result<Option<String>> {
    let value = read_value(alloc, bytes, rules)?;
    let root = value.view();
    match target {
        Target::Document => Ok(None),
        Target::Pointer(pointer) => Ok(hint_of_walk(follow_pointer(alloc, pointer, root)?)),
        Target::Path(path) => Ok(hint_of_walk(follow_steps(alloc, path.steps(), root)?)),
        Target::Paths(paths) => hint_of_paths(alloc, paths, root),
        Target::Object(path) => {
            let walk = follow_path(alloc, path, root)?;
            hint_of_kind(alloc, walk, ", and no object")
        }
        Target::Container(path) => {
            let walk = follow_path(alloc, path, root)?;
            hint_of_kind(alloc, walk, ", and no array or object")
        }
        Target::EditAt(pointer, edit) => {
            let walk = follow_pointer(alloc, pointer, root)?;
            hint_of_edit(alloc, edit, walk)
        }
        Target::Edits(edits) => hint_of_edits(alloc, edits, value.clone(alloc)?),
    }
}
