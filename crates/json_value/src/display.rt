// The compact texts of values, by std's formatting.
ghost use Rattle.std.specs.Prelude.{◌≡◌, ◌==◌, None, Some};
ghost use Rattle.std.specs.Fmt.{WritesOnOk};
ghost use Rattle.json_grammar.specs.Tree.{list, list_trees, pairs, list_pairs};
ghost use Rattle.json_model.specs.Print.{shown};
ghost use Rattle.json_layout.specs.Pieces.{comma};
ghost use Rattle.json_value.specs.Denotes.{tree_of, list_in, pairs_in};
ghost use Rattle.json_value.specs.Seen.{seen, elements_seen, members_seen, list_of, object_pairs};

use crate::array_view::ArrayView;
use crate::container::Container;
use crate::object_view::ObjectView;
use crate::pair::Keyed;
use crate::value::Value;
use crate::view::View;
use json_layout::Quoted;
use std::fmt;

impl fmt::Display for Value {
    ghost output = { λ v. Some (shown None 0 (tree_of v)) };

    fn fmt<W: fmt::Write>(&self, f: &mut fmt::Formatter<W>) -> fmt::Result {
        show(self.view(), f)
    }
}

impl fmt::Display for Container<Value> {
    ghost output = { λ a. Some (shown None 0 (list (list_trees (list_in a)))) };

    fn fmt<W: fmt::Write>(&self, f: &mut fmt::Formatter<W>) -> fmt::Result {
        display_elements(self.view(), f)
    }
}

impl fmt::Display for Container<Keyed<Value>> {
    ghost output = { λ o. Some (shown None 0 (pairs (list_pairs (pairs_in o)))) };

    fn fmt<W: fmt::Write>(&self, f: &mut fmt::Formatter<W>) -> fmt::Result {
        display_members(self.view(), f)
    }
}

#[cycle(text)]
fn show<W: fmt::Write>(view: View<'_>, f: &mut fmt::Formatter<W>) -> fmt::Result
    ensures { WritesOnOk W.write_str_gives f.old result (shown None 0 (seen view.entry)) f.new }
{
    if let Some(array) = view.as_array() {
        return display_elements(array, f);
    }
    if let Some(object) = view.as_object() {
        return display_members(object, f);
    }
    show_scalar(view, f)
}

fn show_scalar<W: fmt::Write>(view: View<'_>, f: &mut fmt::Formatter<W>) -> fmt::Result
    requires array { list_of (seen view) ≡ None }
    requires object { object_pairs (seen view) ≡ None }
    ensures { WritesOnOk W.write_str_gives f.old result (shown None 0 (seen view.entry)) f.new }
{
    if let Some(text) = view.text() {
        return write!(f, "{}", Quoted(text));
    }
    if let Some(number) = view.as_number() {
        return write!(f, "{number}");
    }
    if let Some(literal) = view.literal() {
        return f.write_str(literal);
    }
    match view.as_bool() {
        Some(true) => f.write_str("true"),
        Some(false) => f.write_str("false"),
        None => f.write_str("null"),
    }
}

// What is printed before the part `i` of a container.
fn element_separator(i: usize) -> &'static str
    ensures { result.now ≡ comma (i == 0) }
{
    if i == 0 { "" } else { "," }
}

#[cycle(text)]
fn display_elements<W: fmt::Write>(array: ArrayView<'_>, f: &mut fmt::Formatter<W>) -> fmt::Result
    ensures { WritesOnOk W.write_str_gives f.old result
        (shown None 0 (list (list_trees (elements_seen array.entry)))) f.new }
{
    f.write_str("[")?;
    let mut elements = array.iter();
    'elements: for i in 0..array.len() {
        if let Some(element) = elements.next() {
            f.write_str(element_separator(i))?;
            show(element, f)?;
        }
    }
    f.write_str("]")
}

#[cycle(text)]
fn display_members<W: fmt::Write>(object: ObjectView<'_>, f: &mut fmt::Formatter<W>) -> fmt::Result
    ensures { WritesOnOk W.write_str_gives f.old result
        (shown None 0 (pairs (list_pairs (members_seen object.entry)))) f.new }
{
    f.write_str("{")?;
    let mut members = object.iter();
    'members: for i in 0..object.len() {
        if let Some((key, value)) = members.next() {
            write!(f, "{}{}:", element_separator(i), Quoted(key))?;
            show(value, f)?;
        }
    }
    f.write_str("}")
}
