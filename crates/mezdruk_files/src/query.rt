// The values that a query selects, and their number, as changes.
ghost use Rattle.std.specs.Prelude.{◌≡◌, Ok, map, length, IfOk};
ghost use Rattle.json_io.specs.Errors.{OnlyNoMemory};
ghost use Rattle.json_query.specs.Models.{query_of};
ghost use Rattle.json_query.specs.Nodes.{node_values};
ghost use Rattle.json_query.specs.Selecting.{selected};
ghost use Rattle.json_value.specs.Denotes.{tree_of};
ghost use Rattle.json_value.specs.Seen.{seen};

use crate::change::ValueChange;
use crate::change_error::ChangeError;
use crate::value_path::OUT_OF_MEMORY;
use json_query::Query;
use json_value::{Value, View};
use std::alloc::Global;

/// The change to an array of the values that a JSONPath query (RFC 9535) selects, in the order of
/// its nodelist: a value that is selected twice is there twice. It fails only with `NoMemory`.
///
/// ```
/// use json_doc::read_document;
/// use json_query::{Query, Segment, Selector};
/// use json_value::Value;
/// use mezdruk_files::{QueryAll, ValueChange};
/// let name = Selector::Name(String::from_str(alloc, "a")?);
/// let segment = Segment::Descendant(vec![in alloc; name]?);
/// let query = Query::new(vec![in alloc; segment]?);
/// let document = read_document(alloc, "[{\"a\": 1}, {\"b\": {\"a\": 2}}]")?;
/// let mut value = Value::from_place(alloc, &document, document.root())?;
/// assert!(rt; QueryAll { query: &query }.apply(alloc, &mut value).is_ok());
/// assert_eq!(rt; value.to_string(alloc)?.as_str(), "[1,2]");
/// ```
#[derive(Clone, Copy, Drop)]
pub struct QueryAll<'a> {
    /// The query.
    pub query: &'a Query,
}

/// The change to the number of nodes that a JSONPath query (RFC 9535) selects. It fails only with
/// `NoMemory`.
///
/// ```
/// use json_query::{Query, Segment, Selector};
/// use json_value::Value;
/// use mezdruk_files::{QueryCount, ValueChange};
/// let twice = vec![in alloc; Selector::Index(0), Selector::Index(0)]?;
/// let query = Query::new(vec![in alloc; Segment::Child(twice)]?);
/// let mut value = Value::from_vec(vec![in alloc; Value::new_null()]?);
/// assert!(rt; QueryCount { query: &query }.apply(alloc, &mut value).is_ok());
/// assert_eq!(rt; value.to_string(alloc)?.as_str(), "2");
/// ```
#[derive(Clone, Copy, Drop)]
pub struct QueryCount<'a> {
    /// The query.
    pub query: &'a Query,
}

// Returns values of the views.
fn values_of(alloc: Global, views: &[View<'_>]) -> json_io::Result<Vec<Value>>
    ensures ok { IfOk result (λ values. map tree_of values.items ≡ map seen views.now) }
    ensures only { OnlyNoMemory result }
{
    let mut values = Vec::new(alloc);
    for view in views {
        values.push(view.to_value(alloc)?)?;
    }
    Ok(values)
}

// Returns the values that the query selects.
fn values_selected(alloc: Global, query: &Query, root: View<'_>) -> json_io::Result<Vec<Value>>
    ensures ok { IfOk result (λ values.
        node_values (selected (query_of query.now) (seen root.entry)) ≡ map tree_of values.items) }
    ensures only { OnlyNoMemory result }
{
    let views = query.select(alloc, root)?;
    values_of(alloc, views.as_slice())
}

// Returns how many nodes the query selects.
#[tactic(auto, using(crate::proofs::SelectedValues::as_many_views))]
fn count_selected(alloc: Global, query: &Query, root: View<'_>) -> json_io::Result<usize>
    ensures ok { IfOk result (λ n. length (selected (query_of query.now) (seen root.entry)) ≡ n) }
    ensures only { OnlyNoMemory result }
{
    let views = query.select(alloc, root)?;
    Ok(views.len())
}

impl<'a> ValueChange for QueryAll<'a> {
    ghost use Rattle.mezdruk_files.specs.Queries.{values_selected};

    ghost changed = { λ change tree. Ok (values_selected (query_of change.query.now) tree) };

    fn apply(&self, alloc: Global, value: &mut Value) -> Result<(), ChangeError> {
        let found = values_selected(alloc, self.query, value.view());
        match found {
            Ok(values) => {
                *value = Value::from_vec(values);
                Ok(())
            }
            Err(_) => Err(OUT_OF_MEMORY),
        }
    }

    fn part_name(&self) -> &'static str {
        "node"
    }
}

impl<'a> ValueChange for QueryCount<'a> {
    ghost use Rattle.mezdruk_files.specs.Queries.{count_selected};

    ghost changed = { λ change tree. Ok (count_selected (query_of change.query.now) tree) };

    fn apply(&self, alloc: Global, value: &mut Value) -> Result<(), ChangeError> {
        let count = count_selected(alloc, self.query, value.view());
        match count {
            Ok(count) => {
                *value = Value::new_u64(count as u64);
                Ok(())
            }
            Err(_) => Err(OUT_OF_MEMORY),
        }
    }

    fn part_name(&self) -> &'static str {
        "node"
    }
}
