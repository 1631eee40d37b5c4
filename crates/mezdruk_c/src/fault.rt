// What C learns of a failure.
ghost use Rattle.std.specs.Prelude.{◌≡◌};
ghost use Rattle.mezdruk_c.specs.Faults.{fault_with, fault_at, fault_in, fault_of, TellsOutcome};
ghost use Rattle.mezdruk_c.specs.Given.{ReturnsBuffer};

use crate::buffer::ResultBuffer;
use crate::failure::Failure;
use json_io::Place;

/// The offset and the item of an error that has none.
const NONE: usize = usize::MAX;

/// The code of the error that the options are not valid.
const BAD_OPTIONS: u8 = 32;

/// The code of two texts between which there is no merge patch.
const NO_MERGE_PATCH: u8 = 33;

/// The error of a call that failed: its code, and where it is as far as that is known.
#[repr(C)]
#[derive(Clone, Copy)]
pub struct FaultReport {
    /// The offset of the error in bytes, or the greatest number of the type if the position is not
    /// known.
    pub offset: usize,
    /// The line of the error, counted from 1, or 0 if the position is not known.
    pub line: usize,
    /// The column of the error in bytes, counted from 1, or 0 if the position is not known.
    pub column: usize,
    /// The index of the edit or operation that does not apply, counted from 0, or the greatest
    /// number of the type if the error is in none.
    pub item: usize,
    /// The number of the error's code, whose name `mezdruk_code_name` writes.
    pub code: u8,
}

impl FaultReport {
    // A fault without a position.
    fn unplaced(code: u8, item: usize) -> FaultReport
        ensures { result ≡ fault_with code item }
    {
        FaultReport {
            offset: NONE,
            line: 0,
            column: 0,
            item,
            code,
        }
    }

    // The fault of a code at a place.
    fn at(code: u8, place: Place) -> FaultReport
        ensures { result ≡ fault_at code place }
    {
        match place {
            Place::At {
                offset,
                line,
                column,
            } => FaultReport {
                offset,
                line,
                column,
                item: NONE,
                code,
            },
            Place::Edit(number) => FaultReport::unplaced(code, number as usize),
            _ => FaultReport::unplaced(code, NONE),
        }
    }

    // The fault of a code in an operation.
    fn in_operation(code: u8, op: Option<u32>) -> FaultReport
        ensures { result ≡ fault_in code op }
    {
        match op {
            Some(number) => FaultReport::unplaced(code, number as usize),
            None => FaultReport::unplaced(code, NONE),
        }
    }

    /// Returns the report of a failure.
    pub fn of(failure: &Failure) -> FaultReport
        ensures { result ≡ fault_of failure.now }
    {
        match failure {
            Failure::Options => FaultReport::unplaced(BAD_OPTIONS, NONE),
            Failure::Argument(error) => FaultReport::at(error.code.number(), error.place),
            Failure::Text(error) => FaultReport::at(error.code.number(), error.place),
            Failure::Patch(error) => FaultReport::in_operation(error.code.number(), error.op),
            Failure::NoMergePatch => FaultReport::unplaced(NO_MERGE_PATCH, NONE),
        }
    }
}

/// Returns the status of a call's outcome: 0 for a success, whose buffer is written to `output`,
/// and else that of the failure, whose report is written to `fault`.
pub fn give(
    outcome: Result<ResultBuffer, Failure>,
    output: &mut ResultBuffer,
    fault: &mut FaultReport,
) -> u8
    ensures { ReturnsBuffer outcome output.old output.new result fault.new }
{
    match outcome {
        Ok(buffer) => {
            *output = buffer;
            0
        }
        Err(failure) => {
            *fault = FaultReport::of(&failure);
            failure.status()
        }
    }
}

/// Returns the status of a call's outcome: 0 for a success, and else that of the failure, whose
/// report is written to `fault`.
pub fn report_outcome(outcome: Result<(), Failure>, fault: &mut FaultReport) -> u8
    ensures { TellsOutcome outcome result fault.new }
{
    match outcome {
        Ok(()) => 0,
        Err(failure) => {
            *fault = FaultReport::of(&failure);
            failure.status()
        }
    }
}
