// A sink that is borrowed.
ghost use Rattle.std.specs.Prelude.{◌≡◌};
ghost use Rattle.json_io.specs.Known.{Grows};
ghost use Rattle.json_io.specs.Lending.{lent_as, ComesBack};

use crate::{Sink, SinkError};
use std::snapshot::Snapshot;

/// A borrowed sink that keeps in mind what the lender had gained. A caller who has it back from a
/// writer that held bytes back knows that the lender gained what was sent, and has all that it had
/// before.
///
/// ```
/// use json_io::{LentSink, VecSink, put_all};
/// let mut sink = VecSink::new(alloc);
/// let mut lent = LentSink::new(&mut sink);
/// put_all(&mut lent, b"[1")?;
/// put_all(lent.into_inner(), b"]")?;
/// assert_eq!(rt; sink.as_slice(), b"[1]".as_slice());
/// ```
#[derive(Drop)]
pub struct LentSink<'a, K: Sink> {
    sink: &'a mut K,
    // What the sink was when the loan began.
    start: Snapshot<K>,
    ghost grew: { Grows (K.state start.value).gained (K.state sink.now).gained },
}

impl<'a, K: Sink> LentSink<'a, K> {
    /// Borrows the sink.
    pub fn new(sink: &'a mut K) -> LentSink<'a, K>
        ensures lent { ⟦<LentSink<'a, K> as Sink>⟧.state result
            ≡ lent_as (K.state sink.old) sink.entry.ghost_name (K.state sink.old).gained }
    {
        let start = Snapshot::of(&*sink);
        LentSink { sink, start }
    }

    /// Gives the sink back.
    pub fn into_inner(self) -> &'a mut K
        ensures back { ComesBack (⟦<LentSink<'a, K> as Sink>⟧.state self.entry) (K.state result.now)
            result.ghost_name }
    {
        let LentSink { sink, start: _ } = self;
        sink
    }
}

impl<K: Sink> Sink for LentSink<'_, K> {
    ghost state = { λ l. lent_as (K.state l.sink.now) l.sink.ghost_name
        (K.state l.start.value).gained };

    #[inline(always)]
    fn write(&mut self, piece: &[u8]) -> Result<usize, SinkError> {
        self.sink.write(piece)
    }

    #[inline(always)]
    fn flush(&mut self) -> Result<(), SinkError> {
        self.sink.flush()
    }
}
