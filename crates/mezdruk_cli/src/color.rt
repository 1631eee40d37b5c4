// Whether what is printed on standard output has colors.

use mezdruk_arguments::{ColorChoice, Settings};
use std::env;
use std::env::VarError;
use std::io::IsTerminal;

// Returns whether the environment asks for no colors: `NO_COLOR` is there and not empty.
fn refuses_colors(rt: &HostRuntime) -> bool {
    match env::var(rt, "NO_COLOR") {
        Ok(value) => !value.is_empty(),
        Err(VarError::NotPresent) => false,
        Err(_) => true,
    }
}

// Returns whether the terminal is said to have no colors.
fn is_dumb(rt: &HostRuntime) -> bool {
    match env::var(rt, "TERM") {
        Ok(name) => name.as_str() == "dumb",
        Err(_) => false,
    }
}

/// Returns whether a command with these options prints in colors. The content of strings has none.
pub fn prints_colors(rt: &HostRuntime, settings: Settings) -> bool {
    if settings.raw {
        return false;
    }
    match settings.color {
        Some(ColorChoice::Always) => true,
        Some(ColorChoice::Never) => false,
        Some(ColorChoice::Auto) | None => {
            rt.stdout().is_terminal() && !refuses_colors(rt) && !is_dumb(rt)
        }
    }
}
