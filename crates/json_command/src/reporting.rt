// Errors, reported to a sink.
ghost use Rattle.json_io.specs.FaultText.{text_of};
ghost use Rattle.json_command.specs.Reporting.{Reports};

use json_io::{Error, Sink, fault_text, put_all};

/// Writes a text to `errs`, a sink for reports. No error is returned: if a write fails or runs out
/// of memory, the sink has gained a prefix of the text.
pub fn report_text<E: Sink>(errs: &mut E, text: &[u8])
    ensures { Reports text.now (E.state errs.old) (E.state errs.new) }
{
    let _ = put_all(errs, text);
}

/// Writes an error as one line of text to `errs`, a sink for reports. No error is returned: if a
/// write fails or runs out of memory, the sink has gained a prefix of the line.
pub fn report<E: Sink>(errs: &mut E, error: &Error)
    ensures { Reports (text_of error.now) (E.state errs.old) (E.state errs.new) }
{
    report_text(errs, fault_text(error).as_bytes());
}
