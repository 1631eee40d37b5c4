// Rows of `run_lines`, sources and sinks that fail, the reader of lines, and what the program says
// of itself.
mod about;
mod failing;
mod reader;
mod rows;
mod run;
