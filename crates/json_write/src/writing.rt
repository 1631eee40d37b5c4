// Texts written to a sink.
ghost use Rattle.std.specs.Prelude.{◌≡◌, ℕ, List, Option, None, Some, false};
ghost use Rattle.json_grammar.specs.Tree.{Tree};
ghost use Rattle.json_model.specs.Print.{shown};
ghost use Rattle.json_print.specs.Layouts.{LaidOut};
ghost use Rattle.json_model.specs.Datum.{tree_of_datum};
ghost use Rattle.json_layout.specs.TextWriting.{WritesText};
ghost use Rattle.json_write.specs.Sending.{WritesDatum, two_spaces};

use crate::Serialize;
use crate::key_test::test_keys;
use json_io::{LentSink, Result, Sink};
use json_print::{CompactFormatter, Formatter, PrettyFormatter, Serializer};
use std::alloc::Global;

// Writes the text of the value to the writer, by a formatter that has written nothing. Returns the
// writer.
fn formatted<W: Sink, T: Serialize, F: Formatter + Drop>(
    alloc: Global,
    value: &T,
    formatter: F,
    writer: W,
) -> (W, Result<()>)
    requires fresh { F.fresh formatter }
    ensures text { (t : Tree) (indent : Option (List ℕ)) → tree_of_datum (T.datum value.now)
        ≡ Some t
        → LaidOut F.form formatter indent 0 false
        → WritesText (W.state writer) (W.state result.0) (shown indent 0 t) result.1 }
{
    let mut out = Serializer::with_formatter(alloc, writer, formatter);
    let went = value.serialize(&mut out);
    (out.into_inner(), went)
}

/// Writes `value` as a JSON text without whitespace, and appends it to the sink `writer`. Fails
/// with `SerExpectKeyIsStrOrNum` if a key has no text; all keys are tested first, and nothing is
/// appended then. If the sink fails, or memory runs out, a prefix of the text may have been
/// appended.
pub fn to_writer<K: Sink, T: Serialize>(alloc: Global, writer: &mut K, value: &T) -> Result<()>
    ensures { WritesDatum (K.state writer.old) (K.state writer.new)
        None (T.datum value.now) result }
{
    test_keys(alloc, value)?;
    let (lent, outcome) = formatted(alloc, value, CompactFormatter, LentSink::new(writer));
    let _sink = lent.into_inner();
    outcome
}

/// Writes `value` as a JSON text, each level indented by two spaces, and appends it to the sink
/// `writer`. Fails with `SerExpectKeyIsStrOrNum` if a key has no text; all keys are tested first,
/// and nothing is appended then. If the sink fails, or memory runs out, a prefix of the text may
/// have been appended.
pub fn to_writer_pretty<K: Sink, T: Serialize>(
    alloc: Global,
    writer: &mut K,
    value: &T,
) -> Result<()>
    ensures { WritesDatum (K.state writer.old) (K.state writer.new)
        two_spaces (T.datum value.now) result }
{
    test_keys(alloc, value)?;
    let (lent, outcome) = formatted(alloc, value, PrettyFormatter::new(), LentSink::new(writer));
    let _sink = lent.into_inner();
    outcome
}
