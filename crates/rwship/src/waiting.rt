//! Waiting for what `send --wait` needs before it begins.

use rw_tcp::look_up;
use rw_text::Address;
use std::alloc::AllocError;
use std::path::Path;
use std::time::Duration;
use std::{fs, thread};

/// How many milliseconds pass between two tries.
const TRY_MS: u64 = 1_000;

/// Returns why shipping cannot begin yet, or `None` if it can.
fn obstacle(rt: &HostRuntime, dir: &str, to: Address<'_>) -> Result<Option<String>, AllocError> {
    let alloc = rt.alloc();
    if let Err(error) = fs::read_dir(rt, dir) {
        return Ok(Some(format!(in alloc; "{dir} cannot be read: {error}")?));
    }
    let name = to.name();
    match look_up(rt, alloc, name, to.port) {
        Ok(_) => Ok(None),
        Err(error) => Ok(Some(format!(in alloc; "{name} cannot be looked up: {error}")?)),
    }
}

/// Waits until the folder of the log can be listed and the receiver looked up, or until the stop
/// file exists. It says what it waits for.
pub fn wait_for_start(rt: &HostRuntime, dir: &str, to: Address<'_>, stop_file: &str) {
    let mut said = String::new(rt.alloc());
    for _ in 0..u64::MAX {
        if Path::new(stop_file).exists(rt) {
            return;
        }
        let Ok(Some(why)) = obstacle(rt, dir, to) else {
            return;
        };
        if why.as_str() != said.as_str() {
            let _ = eprintln!(rt; "rwship: waiting, since {why}");
            said = why;
        }
        thread::sleep(rt, Duration::from_millis(TRY_MS));
    }
}
