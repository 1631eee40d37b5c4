// Standard output, in colors or without, and standard error beside it.
ghost use Rattle.std.specs.Io.{WritesAtMost};

use mezdruk_files::Painter;
use std::cell::Cell;
use std::io;
use std::io::Write;
use std::rt::{Stderr, Stdout};

/// Standard output, where the parts of JSON texts may have colors. It notes why a write failed.
#[derive(Drop)]
pub struct Outlet<'a> {
    writer: Stdout,
    failure: &'a Cell<Option<io::ErrorKind>>,
    painter: Option<Painter>,
    // The bytes of the last write with their colors.
    painted: Vec<u8>,
}

impl<'a> Outlet<'a> {
    /// Creates an outlet, with colors or without, that notes in `failure` why a write failed.
    pub fn new(
        rt: &HostRuntime,
        has_colors: bool,
        failure: &'a Cell<Option<io::ErrorKind>>,
    ) -> Outlet<'a> {
        let painter = if has_colors {
            Some(Painter::new(rt.alloc()))
        } else {
            None
        };
        Outlet {
            writer: rt.stdout(),
            failure,
            painter,
            painted: Vec::new(rt.alloc()),
        }
    }

    // Paints bytes, and returns whether they are written in colors. If memory runs out, neither
    // they nor any later ones are.
    fn paint(&mut self, bytes: &[u8]) -> bool {
        self.painted.clear();
        if let Some(painter) = &mut self.painter {
            if painter.paint(bytes, &mut self.painted).is_err() {
                self.painter = None;
            }
        }
        self.painter.is_some()
    }

    // Writes bytes: all of them in colors, or some of them without.
    fn send(&mut self, bytes: &[u8]) -> io::Result<usize>
        ensures { WritesAtMost result bytes.now }
    {
        if !self.paint(bytes) {
            return self.writer.write(bytes);
        }
        match self.writer.write_all(&self.painted) {
            Ok(()) => Ok(bytes.len()),
            Err(error) => Err(error),
        }
    }
}

impl<'a> Write for Outlet<'a> {
    fn write(&mut self, buf: &[u8]) -> io::Result<usize> {
        let written = self.send(buf);
        if let Err(error) = &written {
            self.failure.set(Some(error.kind()));
        }
        written
    }

    fn flush(&mut self) -> io::Result<()> {
        self.writer.flush()
    }
}

/// Standard error, which writes nothing once nobody reads standard output any more, as in `| head`.
#[derive(Drop)]
pub struct ErrorOutlet<'a> {
    writer: Stderr,
    output: &'a Cell<Option<io::ErrorKind>>,
}

impl<'a> ErrorOutlet<'a> {
    /// Creates an outlet for what is reported beside an [`Outlet`] that notes in `output` why a
    /// write failed.
    pub fn new(rt: &HostRuntime, output: &'a Cell<Option<io::ErrorKind>>) -> ErrorOutlet<'a> {
        ErrorOutlet {
            writer: rt.stderr(),
            output,
        }
    }
}

impl<'a> Write for ErrorOutlet<'a> {
    fn write(&mut self, buf: &[u8]) -> io::Result<usize> {
        if self.output.get() == Some(io::ErrorKind::BrokenPipe) {
            return Ok(buf.len());
        }
        self.writer.write(buf)
    }

    fn flush(&mut self) -> io::Result<()> {
        self.writer.flush()
    }
}
