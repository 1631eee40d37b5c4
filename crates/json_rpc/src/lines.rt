// Serves the lines of a source, one after another.
ghost use Rattle.std.specs.Prelude.{OnOk, IfOk, IfErr};
ghost use Rattle.json_lines.specs.Reading.{line_reader_state};
ghost use Rattle.json_rpc.specs.Denoted.{service_history, serving_state};
ghost use Rattle.json_rpc.specs.Steps.{ServingStepResult, ServingStepFails, IsFreshServing, FinishesServing, StopsServing};

use crate::reply::serve_line;
use crate::service::Service;
use json_io::{Result, Sink, Source};
use json_layout::BufferedWriter;
use json_lines::LineReader;
use std::alloc::Global;

// Reads one line, serves it and writes its reply. Returns false if there is no line.
fn serve_next_line<S: Source, W: Sink>(
    alloc: Global,
    service: &mut Service,
    reader: &mut LineReader,
    source: &mut S,
    out: &mut BufferedWriter<W>,
) -> Result<bool>
    ensures ok { IfOk result (λ more. ServingStepResult
        (record {
          reader = line_reader_state reader.old;
          source = S.state source.old;
          out = ⟦<BufferedWriter<W> as Sink>⟧.state out.old;
          history = service_history service.old;
        })
        (record {
          reader = line_reader_state reader.new;
          source = S.state source.new;
          out = ⟦<BufferedWriter<W> as Sink>⟧.state out.new;
          history = service_history service.new;
        })
        more) }
    ensures err { IfErr result (λ e. ServingStepFails
        (record {
          reader = line_reader_state reader.old;
          source = S.state source.old;
          out = ⟦<BufferedWriter<W> as Sink>⟧.state out.old;
          history = service_history service.old;
        })
        (record {
          reader = line_reader_state reader.new;
          source = S.state source.new;
          out = ⟦<BufferedWriter<W> as Sink>⟧.state out.new;
          history = service_history service.new;
        })
        e) }
{
    let line = match reader.next_line(source) {
        Ok(Some(line)) => line,
        Ok(None) => return Ok(false),
        Err(error) => return Err(error),
    };
    match serve_line(alloc, service, line, out) {
        Ok(()) => Ok(true),
        Err(error) => Err(error),
    }
}

/// Serves all lines of the source, and flushes the reply to each before it reads the next one.
pub(crate) fn serve_lines<S: Source, W: Sink>(
    alloc: Global,
    service: &mut Service,
    reader: &mut LineReader,
    source: &mut S,
    out: &mut BufferedWriter<W>,
) -> Result<()>
    requires { IsFreshServing (serving_state reader.old (S.state source.old)
        (⟦<BufferedWriter<W> as Sink>⟧.state out.old) service.old) }
    ensures ok { OnOk result (FinishesServing
        (serving_state reader.old (S.state source.old)
        (⟦<BufferedWriter<W> as Sink>⟧.state out.old) service.old)
        (serving_state reader.new (S.state source.new)
        (⟦<BufferedWriter<W> as Sink>⟧.state out.new) service.new)) }
    ensures err { IfErr result (λ e. StopsServing
        (serving_state reader.old (S.state source.old)
        (⟦<BufferedWriter<W> as Sink>⟧.state out.old) service.old)
        (serving_state reader.new (S.state source.new)
        (⟦<BufferedWriter<W> as Sink>⟧.state out.new) service.new) e) }
{
    'line: loop {
        match serve_next_line(alloc, service, reader, source, out) {
            Ok(true) => {}
            Ok(false) => return Ok(()),
            Err(error) => return Err(error),
        }
    }
}
