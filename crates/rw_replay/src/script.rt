//! Whole scripts, read.

ghost use Rattle.std.specs.Prelude.{◌≡◌, ◌<◌, [], ◌∷◌, ◌++◌, map, length, true, false, Err, IfOk, OnOk, IfErr, MatchOption};
ghost use Rattle.rw_replay.specs.ScriptText.{Order, IsOrder, order_of};
ghost use Rattle.rw_replay.specs.Scripts.{IsScript, IsFaultOfScript};
ghost use Rattle.rw_replay.specs.inner.Ways.{are_both, with_order};

use crate::command::Command;
use crate::fault::ScriptFault;
use crate::lines::read_command;
use crate::ways::Ways;
use rw_text::{TextFault, first_line};
use std::alloc::{AllocError, Global};

/// Returns the command of a line, or `None` for an empty line. A command that lets the log grow in
/// another way than those before it is an error.
fn next_command(alloc: Global, line: &[u8], ways: Ways) -> Result<Option<Command>, TextFault>
    ensures ok { IfOk result (λ found. MatchOption found (length line.now ≡ 0)
        (λ c. (0 < length line.now) × IsOrder line.now (order_of c)
        × (are_both (with_order ways (order_of c)) ≡ false))) }
    ensures err { result ≡ Err TextFault.NotOfForm → (0 < length line.now)
        × ((o : Order) → IsOrder line.now o → are_both (with_order ways o) ≡ true) }
{
    if line.is_empty() {
        return Ok(None);
    }
    let command = read_command(alloc, line)?;
    if ways.with(&command).are_both() {
        return Err(TextFault::NotOfForm);
    }
    Ok(Some(command))
}

/// Adds a command at the end.
fn add(commands: &mut Vec<Command>, command: Command) -> Result<(), AllocError>
    ensures { OnOk result (commands.new.items ≡ commands.old.items ++ command ∷ []) }
{
    match commands.push(command) {
        Ok(()) => Ok(()),
        Err(e) => Err(AllocError::from(e)),
    }
}

/// Reads the commands of a script: one a line, only LF ends a line, and empty lines are skipped. A
/// script lets the log grow by `log` lines or by `feed` and `segment` lines, but not by both.
pub fn read_script(alloc: Global, text: &[u8]) -> Result<Vec<Command>, ScriptFault>
    ensures ok { IfOk result (λ commands. IsScript text.now (map order_of commands.items)) }
    ensures err { IfErr result (IsFaultOfScript text.now) }
{
    let mut commands = Vec::new(alloc);
    let mut ways = Ways {
        log: false,
        pieces: false,
    };
    let mut rest = text;
    let mut number = 0;
    while !rest.is_empty() {
        let (line, more) = first_line(rest);
        number += 1;
        match next_command(alloc, line, ways) {
            Ok(Some(command)) => {
                ways = ways.with(&command);
                add(&mut commands, command)?;
            }
            Ok(None) => {}
            Err(TextFault::NotOfForm) => return Err(ScriptFault::Line(number)),
            Err(TextFault::OutOfMemory) => return Err(ScriptFault::OutOfMemory),
        }
        rest = more;
    }
    Ok(commands)
}
