// Sources and sinks that fail at the calls that a test chooses.
ghost use Rattle.std.specs.Prelude.{◌≡◌, ◌↔◌, ◌≤◌, ◌+◌, ◌-◌, min, length, take, [], Some, None, false, IsErr, IfOk, IfErr, OnOk, OnErr, IsErrOf, IsTrue, Contains};
ghost use Rattle.std.specs.Io.{ReadsAtMost, WritesAtMost};
ghost use Rattle.json_io.specs.Fakes.{gave, gave_nothing, sink_after_taking, refused};
ghost use Rattle.json_io.specs.Outside.{counted, Reads, Writes, Flushes};

use crate::{Failed, Sink, SinkError, Source};
use std::alloc::Global;
use std::marker::Model;

// Counts a call, and answers whether it is to fail.
fn next_fails(calls: &mut u64, fail: &[u64]) -> bool
    ensures fails { IsTrue result ↔ Contains fail.now calls.old }
    ensures counted { calls.new ≡ counted 1 calls.old }
{
    let call = *calls;
    *calls = call.saturating_add(1);
    fail.contains(&call)
}

/// A source of bytes in memory, which gives a few a call, and fails at the calls with these
/// numbers, counted from 0. Contracts see its bytes and its counts.
///
/// ```
/// use json_io::{Failed, FakeSource, Source};
/// let mut source = FakeSource::new(b"[1]", 2, &[1]);
/// let mut buf = [0; 8];
/// assert_eq!(rt; source.read(&mut buf), Ok(2));
/// assert_eq!(rt; source.read(&mut buf), Err(Failed));
/// assert_eq!(rt; source.read(&mut buf), Ok(1));
/// assert_eq!(rt; buf[0], b']');
/// ```
#[derive(Drop)]
pub struct FakeSource<'a> {
    rest: &'a [u8],
    most: usize,
    fail: &'a [u64],
    calls: u64,
    given: u64,
    faults: u64,
}

impl<'a> Model for FakeSource<'a> {
    ghost use Rattle.std.specs.Prelude.{◌≤◌};
    ghost use Rattle.json_io.specs.Fakes.{FakeSourceView};

    ghost Value = { FakeSourceView };

    ghost view = { λ s. record {
      left = s.rest.now;
      most = s.most;
      fail = s.fail.now;
      calls = s.calls;
      given = s.given;
      faults = s.faults;
    } };

    ghost invariant = { λ s. 1 ≤ s.most };
}

impl<'a> FakeSource<'a> {
    /// Creates a source of these bytes that gives at most `most` a call. Calls are counted from 0;
    /// one beyond the last `u64` has that number.
    pub fn new(bytes: &'a [u8], most: usize, fail: &'a [u64]) -> FakeSource<'a>
        requires { 1 ≤ most }
        ensures { result ≡ record {
          left = bytes.now;
          most = most;
          fail = fail.now;
          calls = 0;
          given = 0;
          faults = 0;
        } }
    {
        FakeSource {
            rest: bytes,
            most,
            fail,
            calls: 0,
            given: 0,
            faults: 0,
        }
    }
}

impl Source for FakeSource<'_> {
    ghost state = { λ s. record { left = Some s.left; given = s.given; faults = s.faults } };

    fn read(&mut self, buf: &mut [u8]) -> Result<usize, Failed>
        ensures bound { ReadsAtMost result buf.new }
        ensures reads { Reads (⟦<FakeSource<'static> as Source>⟧.state self.old)
            (⟦<FakeSource<'static> as Source>⟧.state self.new) buf.new result }
        ensures fails { IsErr result ↔ Contains self.old.fail self.old.calls }
        ensures count { IfOk result (λ n.
            n ≡ min (length buf.new) (min self.old.most (length self.old.left))) }
        ensures ok { IfOk result (λ n. self.new ≡ gave n self.old) }
        ensures err { OnErr result (self.new ≡ gave_nothing self.old) }
    {
        if next_fails(&mut self.calls, self.fail) {
            self.faults = self.faults.saturating_add(1);
            return Err(Failed);
        }
        let count = buf.len().min(self.most).min(self.rest.len());
        let (front, rest) = self.rest.split_at(count);
        buf[..count].copy_from_slice(front);
        self.rest = rest;
        self.given = self.given.saturating_add(count as u64);
        Ok(count)
    }
}

/// A sink in memory, which takes a few bytes a call, and fails at the calls with these numbers,
/// counted from 0. Contracts see its bytes and its counts.
///
/// ```
/// use json_io::{FakeSink, Place, put_all};
/// let mut sink = FakeSink::new(alloc, 2, &[1]);
/// let refusal = put_all(&mut sink, b"null");
/// assert_eq!(rt; refusal.map_err(|error| error.place), Err(Place::Writing));
/// assert_eq!(rt; sink.as_slice(), b"nu".as_slice());
/// ```
#[derive(Drop)]
pub struct FakeSink<'a> {
    bytes: Vec<u8>,
    most: usize,
    fail: &'a [u64],
    calls: u64,
    faults: u64,
    lacks: u64,
}

impl<'a> Model for FakeSink<'a> {
    ghost use Rattle.std.specs.Prelude.{◌≤◌};
    ghost use Rattle.json_io.specs.Fakes.{FakeSinkView};

    ghost Value = { FakeSinkView };

    ghost view = { λ s. record {
      gained = s.bytes.items;
      most = s.most;
      fail = s.fail.now;
      calls = s.calls;
      faults = s.faults;
      lacks = s.lacks;
    } };

    ghost invariant = { λ s. 1 ≤ s.most };
}

impl<'a> FakeSink<'a> {
    /// Creates a sink that takes at most `most` bytes a call. Writes and flushes are counted
    /// together, from 0; a call beyond the last `u64` has that number.
    pub fn new(alloc: Global, most: usize, fail: &'a [u64]) -> FakeSink<'a>
        requires { 1 ≤ most }
        ensures { result ≡ record {
          gained = [];
          most = most;
          fail = fail.now;
          calls = 0;
          faults = 0;
          lacks = 0;
        } }
    {
        FakeSink {
            bytes: Vec::new(alloc),
            most,
            fail,
            calls: 0,
            faults: 0,
            lacks: 0,
        }
    }

    /// Returns the bytes gained.
    pub fn as_slice(&self) -> &[u8]
        ensures { result.now ≡ self.now.gained }
    {
        &self.bytes
    }
}

impl Sink for FakeSink<'_> {
    ghost state = { λ s. record {
      gained = Some s.gained;
      faults = s.faults;
      lacks = s.lacks;
      unflushed = false;
      loan = None;
    } };

    fn write(&mut self, piece: &[u8]) -> Result<usize, SinkError>
        ensures bound { WritesAtMost result piece.now }
        ensures writes { Writes (⟦<FakeSink<'static> as Sink>⟧.state self.old)
            (⟦<FakeSink<'static> as Sink>⟧.state self.new) piece.now result }
        ensures fails { IsErrOf result SinkError.Failed ↔ Contains self.old.fail self.old.calls }
        ensures count { IfOk result (λ n. n ≡ min (length piece.now) self.old.most) }
        ensures ok { IfOk result (λ n. self.new ≡ sink_after_taking (take n piece.now) self.old) }
        ensures err { IfErr result (λ e. self.new ≡ refused e self.old) }
    {
        if next_fails(&mut self.calls, self.fail) {
            self.faults = self.faults.saturating_add(1);
            return Err(SinkError::Failed);
        }
        let count = piece.len().min(self.most);
        match self.bytes.extend_from_slice(&piece[..count]) {
            Ok(()) => Ok(count),
            Err(_) => {
                self.lacks = self.lacks.saturating_add(1);
                Err(SinkError::NoMemory)
            }
        }
    }

    fn flush(&mut self) -> Result<(), SinkError>
        ensures flushes { Flushes (⟦<FakeSink<'static> as Sink>⟧.state self.old)
            (⟦<FakeSink<'static> as Sink>⟧.state self.new) result }
        ensures fails { IsErr result ↔ Contains self.old.fail self.old.calls }
        ensures only { IfErr result (λ e. e ≡ SinkError.Failed) }
        ensures ok { OnOk result (self.new ≡ sink_after_taking [] self.old) }
        ensures err { IfErr result (λ e. self.new ≡ refused e self.old) }
    {
        if next_fails(&mut self.calls, self.fail) {
            self.faults = self.faults.saturating_add(1);
            return Err(SinkError::Failed);
        }
        Ok(())
    }
}
