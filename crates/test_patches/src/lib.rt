//! Tests of `json_patch`: the examples of RFC 6901, RFC 6902 and RFC 7396 and more, as tables, and
//! the top call on worked rows and on sources and sinks that fail.
#![tactic(auto)]

#[cfg(test)]
mod between;
#[cfg(test)]
mod calls;
#[cfg(test)]
mod failing;
#[cfg(test)]
mod large_merges;
#[cfg(test)]
mod merge_between;
#[cfg(test)]
mod rows;
