//! Tests alone: worked examples of what is read, part by part and as documents, and of sources and
//! sinks. They are here and not in `json_text`, `json_number` and `json_doc`, since a library with
//! tests is proved twice.
#![tactic(auto)]

#[cfg(test)]
mod bytes;
#[cfg(test)]
mod documents;
#[cfg(test)]
mod ends;
#[cfg(test)]
mod events;
#[cfg(test)]
mod floats;
#[cfg(test)]
mod looks;
#[cfg(test)]
mod numbers;
#[cfg(test)]
mod refusals;
#[cfg(test)]
mod rules;
#[cfg(test)]
mod runs;
#[cfg(test)]
mod taken;
#[cfg(test)]
mod transfers;
#[cfg(test)]
mod words;
