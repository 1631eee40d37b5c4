//! Reads the servers of a site from standard input, stops those that are old, and writes the site.
//! An error names the value that is wrong by its path, its line and its column.
//!
//!     printf '{"name": "a", "servers": [{"host": "b", "port": 80}]}' | example_typed
#![tactic(auto)]

mod json;

use anyhow::Result;
use mezdruk_json::explain::from_str;
use mezdruk_json::{Sink, Source, StdSink, StdSource, check_utf8, read_all, to_writer_pretty};
use std::alloc::Global;

// json: derive
/// A server: an object with the members `host` and `port`, and maybe others.
#[derive(Drop)]
pub struct Server {
    /// Where it is.
    pub host: String,
    /// The port on which it listens.
    pub port: u16,
    /// How many years it has run.
    // json: name "years-running", default
    pub years: u8,
    /// Whether it takes requests.
    // json: default true
    pub active: bool,
    /// What is said of it.
    pub note: Option<String>,
}

// json: derive strict
/// A site: an object with the members `name` and `servers`, and no other.
#[derive(Drop)]
pub struct Site {
    /// What it is called.
    pub name: String,
    /// Its servers.
    pub servers: Vec<Server>,
}

// The years after which a server is old.
const OLD: u8 = 5;

// The most bytes that are read.
const LIMIT: usize = 1 << 20;

fn stop_old(site: &mut Site) {
    for server in site.servers.iter_mut() {
        if server.years >= OLD {
            server.active = false;
        }
    }
}

fn update<S: Source, K: Sink>(alloc: Global, source: &mut S, sink: &mut K) -> Result<()> {
    let bytes = read_all(alloc, source, LIMIT)?;
    let text = check_utf8(bytes.as_slice())?;
    let mut site = from_str::<Site>(alloc, text)?;
    stop_old(&mut site);
    to_writer_pretty(alloc, sink, &site)?;
    Ok(())
}

fn main(rt: HostRuntime) -> Result<()> {
    let (mut source, mut sink) = (StdSource::new(rt.stdin()), StdSink::new(rt.stdout()));
    update(rt.alloc(), &mut source, &mut sink)
}
