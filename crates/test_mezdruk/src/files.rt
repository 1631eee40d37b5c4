// Documents in memory that are printed, changed and reported, lines, and sinks that fail.
mod changes;
mod colors;
mod compared;
mod documents;
mod edited;
mod failing;
mod line_input;
mod lines;
mod marks;
mod paths;
mod pointers;
mod queries;
mod reports;
mod runs;
mod streams;
