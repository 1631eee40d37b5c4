// Texts in memory.
ghost use Rattle.std.specs.Prelude.{◌≡◌, None, Some, IfOk, IsUtf8, string_bytes};
ghost use Rattle.json_write.specs.Sending.{datum_text, two_spaces};
ghost use Rattle.json_write.specs.Building.{FailsOnKeyText};

use crate::Serialize;
use json_buffer::TextWriter;
use json_io::{Result, VecSink};
use json_print::Serializer;
use std::alloc::Global;

/// Returns the bytes of the JSON text that `value` is written as, without whitespace. They are
/// UTF-8. Fails with `SerExpectKeyIsStrOrNum` exactly if a key has no text (is no string, integer
/// or boolean), and with `NoMemory` if memory runs out.
pub fn to_vec<T: Serialize>(alloc: Global, value: &T) -> Result<Vec<u8>>
    ensures ok { IfOk result (λ v. datum_text None (T.datum value.now) ≡ Some v.items) }
    ensures utf8 { IfOk result (λ v. IsUtf8 v.items) }
    ensures err { FailsOnKeyText (T.datum value.now) result }
{
    let mut out = TextWriter::new(alloc);
    value.serialize(&mut out)?;
    Ok(out.into_vec())
}

/// Returns the bytes of the JSON text that `value` is written as, each level indented by two
/// spaces. They are UTF-8. Fails with `SerExpectKeyIsStrOrNum` exactly if a key has no text (is no
/// string, integer or boolean), and with `NoMemory` if memory runs out.
pub fn to_vec_pretty<T: Serialize>(alloc: Global, value: &T) -> Result<Vec<u8>>
    ensures ok { IfOk result (λ v. datum_text two_spaces (T.datum value.now) ≡ Some v.items) }
    ensures utf8 { IfOk result (λ v. IsUtf8 v.items) }
    ensures err { FailsOnKeyText (T.datum value.now) result }
{
    let mut out = Serializer::pretty(alloc, VecSink::new(alloc));
    value.serialize(&mut out)?;
    Ok(out.into_inner().into_vec())
}

/// Returns the JSON text that `value` is written as, without whitespace. Fails with
/// `SerExpectKeyIsStrOrNum` exactly if a key has no text (is no string, integer or boolean), and
/// with `NoMemory` if memory runs out.
pub fn to_string<T: Serialize>(alloc: Global, value: &T) -> Result<String>
    ensures ok { IfOk result (λ s. datum_text None (T.datum value.now) ≡ Some (string_bytes s)) }
    ensures err { FailsOnKeyText (T.datum value.now) result }
{
    let bytes = to_vec(alloc, value)?;
    Ok(unsafe { String::from_utf8_unchecked(bytes) })
}

/// Returns the JSON text that `value` is written as, each level indented by two spaces. Fails with
/// `SerExpectKeyIsStrOrNum` exactly if a key has no text (is no string, integer or boolean), and
/// with `NoMemory` if memory runs out.
pub fn to_string_pretty<T: Serialize>(alloc: Global, value: &T) -> Result<String>
    ensures ok { IfOk result (λ s.
        datum_text two_spaces (T.datum value.now) ≡ Some (string_bytes s)) }
    ensures err { FailsOnKeyText (T.datum value.now) result }
{
    let bytes = to_vec_pretty(alloc, value)?;
    Ok(unsafe { String::from_utf8_unchecked(bytes) })
}
