// Laws over the definitions alone.
ghost use Rattle.json_stream.specs.Laws.{ReportedInInput, EndReportedInInput};

/// Shows that a place of a repaired text is reported as its place in the input: its offset, its
/// line and its column there.
pub fn reported_in_input()
    ensures { ReportedInInput }
{}

/// Shows that the end of a repaired text is reported as the end of the input.
pub fn end_reported_in_input()
    ensures { EndReportedInInput }
{}
