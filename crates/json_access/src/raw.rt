// The literal of a number, as a value of its own.
ghost use Rattle.std.specs.Prelude.{◌≡◌, option_map, IfOk};
ghost use Rattle.json_number.specs.Literals.{raw_literal};
ghost use Rattle.json_value.specs.Seen.{seen};
ghost use Rattle.json_access.specs.Trees.{spelling};
ghost use Rattle.json_io.specs.Errors.{OnlyNoMemory};

use json_io::Result;
use json_number::RawNumber;
use json_value::View;
use std::alloc::Global;

// Returns a copy of the literal of the number, or `None` if the value is of another kind.
pub(crate) fn raw_number(view: View<'_>, alloc: Global) -> Result<Option<RawNumber>>
    ensures literal { IfOk result (λ o. option_map raw_literal o ≡ spelling (seen view.entry)) }
    ensures only { OnlyNoMemory result }
{
    if let Some(number) = view.as_number() {
        return Ok(Some(number.to_raw(alloc)?));
    }
    match view.literal() {
        Some(literal) => Ok(Some(RawNumber::from_literal(alloc, literal)?)),
        None => Ok(None),
    }
}
