// Sessions of `run_rpc`, how many changes can be undone, lines that mean harm, and sources and sinks
// that fail.
mod failing;
mod hostile;
mod limits;
mod run;
mod sessions;
