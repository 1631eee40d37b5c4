// Queries, segments and selectors (RFC 9535, section 2).
ghost use Rattle.std.specs.Prelude.{◌≡◌};

/// A JSONPath query (RFC 9535): its segments, which are applied one after another from the root on.
///
/// ```
/// use json_query::{Query, Segment, Selector};
/// let first = Segment::Child(vec![in alloc; Selector::Index(0)]?);
/// let query = Query::new(vec![in alloc; first]?);
/// assert_eq!(rt; query.segments().len(), 1);
/// ```
#[derive(Drop)]
pub struct Query {
    pub(crate) segments: Vec<Segment>,
}

/// A segment of a [`Query`] (RFC 9535, section 2.5): its selectors, of which each adds what it
/// selects, in their order.
///
/// ```
/// use json_doc::read_document;
/// use json_query::{Query, Segment, Selector};
/// use json_value::View;
/// let doc = read_document(alloc, "[[1], [2, 3]]")?;
/// let root = View::packed(doc.view());
/// let children = Segment::Child(vec![in alloc; Selector::Wildcard]?);
/// let query = Query::new(vec![in alloc; children]?);
/// assert_eq!(rt; query.select(alloc, root)?.len(), 2);
/// let descendants = Segment::Descendant(vec![in alloc; Selector::Wildcard]?);
/// let query = Query::new(vec![in alloc; descendants]?);
/// assert_eq!(rt; query.select(alloc, root)?.len(), 5);
/// ```
#[derive(Drop)]
pub enum Segment {
    /// Selects of the children of a node, as `[..]`, `.name` and `.*` do.
    Child(Vec<Selector>),
    /// Selects of the children of a node and of all that is below it, as `..[..]`, `..name` and
    /// `..*` do. A node is visited before its children, and these are in the order of the text.
    Descendant(Vec<Selector>),
}

/// A selector of a [`Segment`] (RFC 9535, section 2.3).
///
/// ```
/// use json_doc::read_document;
/// use json_query::{Query, Segment, Selector};
/// use json_value::View;
/// let doc = read_document(alloc, "[\"a\", \"b\", \"c\"]")?;
/// let last = Segment::Child(vec![in alloc; Selector::Index(-1)]?);
/// let query = Query::new(vec![in alloc; last]?);
/// let found = query.select(alloc, View::packed(doc.view()))?;
/// assert_eq!(rt; found[0].text(), Some("c"));
/// ```
#[derive(Drop)]
pub enum Selector {
    /// Selects each member with this name.
    Name(String),
    /// Selects all elements of an array, or the values of all members of an object.
    Wildcard,
    /// Selects the element at this index, counted from 0, or from the end if it is below 0: -1 is
    /// the last element.
    Index(i64),
    /// Selects the elements of a slice.
    Slice(Slice),
}

/// A slice of an array (RFC 9535, section 2.3.4): each `step`-th element from `start` on and before
/// `end`. Indexes below 0 count from the end. With a step below 0 the slice goes backwards from
/// `start`, and with the step 0 it has no elements.
///
/// ```
/// use json_doc::read_document;
/// use json_query::{Query, Segment, Selector, Slice};
/// use json_value::View;
/// let doc = read_document(alloc, "[\"a\", \"b\", \"c\"]")?;
/// let backwards = Slice { start: None, end: None, step: -2 };
/// let segment = Segment::Child(vec![in alloc; Selector::Slice(backwards)]?);
/// let query = Query::new(vec![in alloc; segment]?);
/// let found = query.select(alloc, View::packed(doc.view()))?;
/// assert_eq!(rt; found.len(), 2);
/// assert_eq!(rt; found[1].text(), Some("a"));
/// ```
#[derive(Clone, Copy, PartialEq, Eq, Debug)]
pub struct Slice {
    /// The first index. If it is `None`, the slice begins with the first element, or with the last
    /// if `step` is below 0.
    pub start: Option<i64>,
    /// The index before which the slice ends. If it is `None`, the slice goes on to the last
    /// element, or to the first if `step` is below 0.
    pub end: Option<i64>,
    /// The distance from one element to the next; 1 where the text of a query has none.
    pub step: i64,
}

impl Query {
    ghost use Rattle.std.specs.Prelude.{map};
    ghost use Rattle.json_query.specs.Models.{query_of, segment_of};

    /// Creates a query of these segments. Without segments it selects the root alone.
    pub fn new(segments: Vec<Segment>) -> Query
        ensures { query_of result ≡ map segment_of segments.items }
    {
        Query { segments }
    }

    /// Returns the segments, in the order in which they are applied.
    pub fn segments(&self) -> &[Segment]
        ensures { query_of self.now ≡ map segment_of result.now }
    {
        self.segments.as_slice()
    }
}
