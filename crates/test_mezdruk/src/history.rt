// Histories, rows of `run_history`, and sources and sinks that fail.
mod failing;
mod histories;
mod rows;
