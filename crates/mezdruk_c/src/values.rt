// The values of the caller's texts.
ghost use Rattle.std.specs.Prelude.{◌≡◌, IfOk, IfErr};
ghost use Rattle.json_command.specs.Input.{IsInput};
ghost use Rattle.json_doc.specs.Docs.{doc_root, doc_tree};
ghost use Rattle.json_layout.specs.Styles.{printed};
ghost use Rattle.json_io.specs.Errors.{no_memory};
ghost use Rattle.json_text.specs.Ruled.{rules_of, usual_rules};
ghost use Rattle.json_value.specs.Denotes.{tree_of};
ghost use Rattle.mezdruk_c.specs.Buffers.{buffer_bytes};
ghost use Rattle.mezdruk_c.specs.Checking.{IsArgumentFailure, IsTextFailure};

use crate::buffer::ResultBuffer;
use crate::failure::Failure;
use crate::input::read_input;
use crate::printing::print_styled;
use json_doc::Doc;
use json_layout::Style;
use json_text::Rules;
use json_value::Value;
use std::alloc::Global;
use std::rc::Rc;

/// Reads a patch as a JSON text by the usual rules (at most 254 levels, names may repeat) and
/// returns its document. Fails with [`Failure::Argument`] if the bytes are not a JSON text, or if
/// memory runs out.
pub fn read_patch(alloc: Global, patch: &[u8]) -> Result<Rc<Doc>, Failure>
    ensures ok { IfOk result (λ d. IsInput usual_rules patch.now
        (doc_tree d.value (doc_root d.value))) }
    ensures failed { IfErr result (IsArgumentFailure usual_rules patch.now) }
{
    match read_input(alloc, patch, Rules::usual()) {
        Ok(doc) => Ok(doc),
        Err(error) => Err(Failure::Argument(error)),
    }
}

/// Reads a JSON text by the rules and returns its value. Fails with [`Failure::Text`] if the bytes
/// are not a JSON text by them, or if memory runs out.
pub fn value_from_text(alloc: Global, text: &[u8], rules: Rules) -> Result<Value, Failure>
    ensures ok { IfOk result (λ v. IsInput (rules_of rules) text.now (tree_of v)) }
    ensures failed { IfErr result (IsTextFailure (rules_of rules) text.now) }
{
    match read_input(alloc, text, rules) {
        Ok(doc) => match Value::from_place(alloc, &doc, doc.root()) {
            Ok(value) => Ok(value),
            Err(error) => Err(Failure::Text(error)),
        },
        Err(error) => Err(Failure::Text(error)),
    }
}

/// Returns the value of the text to which a patch is to lead. Fails with `Failure::Argument` if the
/// bytes are no JSON text, or if memory runs out.
pub fn read_target(alloc: Global, target: &[u8], rules: Rules) -> Result<Value, Failure>
    ensures ok { IfOk result (λ v. IsInput (rules_of rules) target.now (tree_of v)) }
    ensures failed { IfErr result (IsArgumentFailure (rules_of rules) target.now) }
{
    match read_input(alloc, target, rules) {
        Ok(doc) => match Value::from_place(alloc, &doc, doc.root()) {
            Ok(value) => Ok(value),
            Err(error) => Err(Failure::Argument(error)),
        },
        Err(error) => Err(Failure::Argument(error)),
    }
}

/// Returns a buffer with the JSON text of a value in this style. Fails with [`Failure::Text`] of
/// `NoMemory` if memory runs out.
pub fn value_to_text(
    alloc: Global,
    value: &Value,
    style: Style<'_>,
) -> Result<ResultBuffer, Failure>
    ensures ok { IfOk result (λ b. buffer_bytes b ≡ printed style.entry (tree_of value.now)) }
    ensures failed { IfErr result (λ f. f ≡ Failure.Text no_memory) }
{
    match print_styled(alloc, value, style) {
        Ok(buffer) => Ok(buffer),
        Err(error) => Err(Failure::Text(error)),
    }
}
