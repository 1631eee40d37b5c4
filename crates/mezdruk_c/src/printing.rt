// The text of a value, for C.
ghost use Rattle.std.specs.Prelude.{◌≡◌, IfOk};
ghost use Rattle.json_layout.specs.Styles.{printed};
ghost use Rattle.json_io.specs.Errors.{OnlyNoMemory};
ghost use Rattle.json_value.specs.Denotes.{tree_of};
ghost use Rattle.mezdruk_c.specs.Buffers.{buffer_bytes};

use crate::buffer::ResultBuffer;
use json_command::print_value;
use json_io::{Result, VecSink};
use json_layout::Style;
use json_value::Value;
use std::alloc::Global;

// Returns the text of a value.
fn text_of_value(alloc: Global, value: &Value, style: Style<'_>) -> Result<Vec<u8>>
    ensures ok { IfOk result (λ v. v.items ≡ printed style.entry (tree_of value.now)) }
    ensures only { OnlyNoMemory result }
{
    let mut sink = VecSink::new(alloc);
    match print_value(alloc, value, style, &mut sink) {
        Ok(()) => Ok(sink.into_vec()),
        Err(error) => Err(error),
    }
}

/// Returns a buffer with the JSON text of a value in this style. Fails with `NoMemory` if memory
/// runs out.
pub fn print_styled(alloc: Global, value: &Value, style: Style<'_>) -> Result<ResultBuffer>
    ensures ok { IfOk result (λ b. buffer_bytes b ≡ printed style.entry (tree_of value.now)) }
    ensures only { OnlyNoMemory result }
{
    match text_of_value(alloc, value, style) {
        Ok(text) => ResultBuffer::of(alloc, text),
        Err(error) => Err(error),
    }
}
