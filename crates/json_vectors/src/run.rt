// The worked examples of the top call, run.
ghost use Rattle.std.specs.Prelude.{◌≡◌};
ghost use Rattle.json_io.specs.Errors.{OnlyNoMemory};

use crate::rows::ROWS;
use json_command::rows::differing_rows;
use json_text::Result;
use reshape::run;
use std::alloc::Global;

/// The greatest number of bytes that one call of the source returns.
const AT_ONCE: usize = 4_096;

// Returns how many of these examples `run` does not satisfy.
fn differing(alloc: Global, rows: &str) -> Result<u32>
    ensures { OnlyNoMemory result }
{
    differing_rows(alloc, rows, AT_ONCE, |alloc, words, source, sink, errs| {
        run(alloc, words, source, sink, errs)
    })
}

/// Runs the worked examples of `reshape::run`, and returns how many have another result than the
/// expected one. Fails with `NoMemory` if memory runs out.
pub fn vectors(alloc: Global) -> Result<u32>
    ensures { OnlyNoMemory result }
{
    differing(alloc, ROWS)
}

#[cfg(test)]
mod tests {
    use super::*;
    use crate::rows::LARGEST_MADE;

    const SIX_ROWS: &str = "1|0|1||\n1|0|2||\n1|1||1|\n1|0|1||[]|[]|\n«2 [»]|0|[]||\n1|0|1|x|";

    #[test]
    fn no_row_differs(rt: HostRuntime) {
        assert!(rt; matches!(differing(rt.alloc(), SIX_ROWS), Ok(5)));
        assert!(rt; matches!(vectors(rt.alloc()), Ok(0)));
    }

    #[test]
    fn the_largest_made_input(rt: HostRuntime) {
        assert!(rt; matches!(differing(rt.alloc(), LARGEST_MADE), Ok(0)));
    }
}
