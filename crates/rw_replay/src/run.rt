//! The command `replay`, over any reader and writer.

ghost use Rattle.std.specs.Prelude.{◌≡◌, ◌≢◌, ◌⊎◌, ℕ, map, true, false, Err, IfOk, OnOk, IfErr};
ghost use Rattle.std.specs.List.{AllByRecursion};
ghost use Rattle.rw_wal_format.specs.declared.tail_fault.TailFault.{TailFault};
ghost use Rattle.rw_replay.specs.ScriptText.{order_of};
ghost use Rattle.rw_replay.specs.Scripts.{IsScript};
ghost use Rattle.rw_text.specs.declared.tool_fault.ToolFault.TheVariants.{OutOfMemory, Log, Line, SegmentFull, Device};
ghost use Rattle.rw_world.specs.Machine.{setup_of};
ghost use Rattle.rw_replay.specs.Played.{IsPrintedState};
ghost use Rattle.rw_replay.specs.inner.Played.{IsWritable};
ghost use Rattle.rw_replay.specs.Runs.{ReadsScript, ReadsBadLine, WritesState, WritesStatePart};
ghost use Rattle.rw_replay.specs.inner.Runs.{IsFaultOfText, StopsReading};

use crate::command::Command;
use crate::fault::ScriptFault;
use crate::player::Player;
use crate::script::read_script;
use rw_settings::Settings;
use rw_text::ToolFault;
use rw_types::{Sink, Source, read_to_end, write_all};
use std::alloc::{AllocError, Global};

/// Returns the commands of a script.
fn commands_of(alloc: Global, text: &[u8]) -> Result<Vec<Command>, ToolFault>
    ensures ok { IfOk result (λ commands. IsScript text.now (map order_of commands.items)) }
    ensures err { IfErr result (IsFaultOfText text.now) }
{
    match read_script(alloc, text) {
        Ok(commands) => Ok(commands),
        Err(ScriptFault::Line(number)) => Err(ToolFault::Line(number)),
        Err(ScriptFault::OutOfMemory) => Err(ToolFault::OutOfMemory),
    }
}

/// Reads a script to its end, and returns its commands.
fn read_commands<R: Source>(alloc: Global, reader: &mut R) -> Result<Vec<Command>, ToolFault>
    ensures ok { IfOk result
        (λ commands. ReadsScript (R.remaining reader.old) (R.remaining reader.new)
        (map order_of commands.items)) }
    ensures sound { OnOk result (R.has_failed reader.new ≡ false) }
    ensures err { IfErr result
        (StopsReading (R.remaining reader.old) (R.remaining reader.new) (R.has_failed reader.new)) }
{
    let mut text = Vec::new(alloc);
    read_to_end(alloc, reader, &mut text)?;
    commands_of(alloc, &text)
}

/// Returns the text of the state that commands lead to.
fn state_after(
    alloc: Global,
    settings: Settings,
    commands: Vec<Command>,
) -> Result<Vec<u8>, AllocError>
    requires { AllByRecursion IsWritable (map order_of commands.items) }
    ensures { IfOk result
        (λ text. IsPrintedState (setup_of settings.config settings.limits)
        (map order_of commands.items) text.items) }
{
    let mut player = Player::new(alloc, settings)?;
    player.play_all(commands)?;
    player.state()
}

/// Reads an event script and writes the state at its end: for each label set of which the receiver
/// holds samples, by byte order of its list of (name, value), `received LABELS T=VALUE ..`;
/// `dropped POS REASON` by position; `filtered COUNT`; `abandoned POS` by position; and `report
/// ..`, each line ended by LF. A damaged log shows in the report, and is not a fault of the run.
/// All lines are read before the first one is carried out, and nothing is written before all are
/// carried out.
pub fn run_replay<R: Source, W: Sink>(
    alloc: Global,
    reader: &mut R,
    writer: &mut W,
    settings: Settings,
) -> Result<(), ToolFault>
    ensures ok { OnOk result
        (WritesState (setup_of settings.config settings.limits) (R.remaining reader.old)
        (R.remaining reader.new) (W.contents writer.old) (W.contents writer.new)) }
    ensures reader_sound { OnOk result (R.has_failed reader.new ≡ false) }
    ensures writer_sound { OnOk result
        (W.has_failed writer.old ≡ false → W.has_failed writer.new ≡ false) }

    // The only fault of the data is the first line that is not a line of a script. Then nothing is
    // written, nor if memory ran out.
    ensures line { (n : ℕ) → result ≡ Err (Line n)
        → ReadsBadLine (R.remaining reader.old) (R.remaining reader.new) n }
    ensures no_log { (f : TailFault) → result ≡ Err (Log f) → ⊥ }
    ensures no_full { result ≡ Err SegmentFull → ⊥ }
    ensures untouched { IfErr result (λ e. e ≢ Device → writer.new ≡ writer.old) }

    // If a device fails, the writer holds a prefix of the state.
    ensures device { result ≡ Err Device
        → ((R.has_failed reader.new ≡ true) × (writer.new ≡ writer.old))
        ⊎ ((W.has_failed writer.new ≡ true)
        × WritesStatePart (setup_of settings.config settings.limits) (R.remaining reader.old)
        (R.remaining reader.new) (W.contents writer.old) (W.contents writer.new)) }
{
    let commands = read_commands(alloc, reader)?;
    let state = state_after(alloc, settings, commands)?;
    write_all(writer, &state)?;
    Ok(())
}
