// A configuration, as a program has one.
mod json;

use std::collections::BTreeMap;

// json: derive
/// A server.
#[derive(Drop)]
pub struct Server {
    /// Where it is.
    pub host: String,
    /// The port on which it listens.
    pub port: u16,
}

// json: derive strict
/// Some servers.
#[derive(Drop)]
pub struct Config {
    /// The servers.
    pub servers: Vec<Server>,
    /// Names of statuses, by their numbers.
    // json: default
    pub names: BTreeMap<u16, String>,
    /// The times to wait, in seconds.
    // json: default
    pub waits: Vec<Option<u32>>,
}
