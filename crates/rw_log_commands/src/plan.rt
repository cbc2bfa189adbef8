//! The command `plan`, over any log and writer.

ghost use Rattle.std.specs.Prelude.{◌≡◌, ◌≢◌, ◌⊎◌, ℕ, [], true, false, Ok, Err, None, Some, OnOk, IfErr};
ghost use Rattle.rw_wal_format.specs.declared.tail_fault.TailFault.{TailFault};
ghost use Rattle.rw_wal_format.specs.declared.tail_fault.TailFault.TheVariants as tail;
ghost use Rattle.rw_wal_tail.specs.declared.place.Damage.{Damage};
ghost use Rattle.rw_shard_core.specs.Configs.{choice_of};
ghost use Rattle.rw_log_commands.specs.Planning.{PlansLog, PlansLogPart, WritesPlan, WritesPlanPart};
ghost use Rattle.rw_log_commands.specs.Running.{ReadsFault, ReadsLine};
ghost use Rattle.rw_log_commands.specs.Taking.{CannotRead, ReadsLogToFault};
ghost use Rattle.rw_follow.specs.Meals.{no_meal};
ghost use Rattle.rw_types.specs.declared.transfer.ReadFault.TheVariants.{Failed};
ghost use Rattle.rw_text.specs.declared.tool_fault.ToolFault.TheVariants.{Log, Line, SegmentFull, Device};

use crate::log_read::read_log;
use crate::planner::Planner;
use crate::run::read_input;
use rw_external_labels::ExternalLabels;
use rw_follow::Segments;
use rw_relabel::Choice;
use rw_settings::Settings;
use rw_text::ToolFault;
use rw_types::{Entry, Sink, Source, write_all};
use rw_wal_tail::{Damage, Taker};
use std::alloc::{AllocError, Global};

impl Taker for Planner {
    ghost use Rattle.rw_types.specs.Labels.{Labels};
    ghost use Rattle.rw_relabel.specs.declared.choice.Choice.{Choice};

    ghost taken = { λ p. p.entries };

    ghost Fixed = { Choice × Labels };

    ghost fixed = { λ p. (p.choice, p.external) };

    fn take(&mut self, entry: Entry) -> Result<(), AllocError> {
        Planner::take(self, entry)
    }
}

/// Reads a log to its end, and writes what the rules make of its entries, to which the external
/// labels are added: for each definition in log order `REF kept NUMBER LABELS`, `REF filtered
/// LABELS` or `REF bad FAULT`, and then `samples kept A filtered B bad C noseries D`, each line
/// ended by LF. Nothing is written before the whole plan is made. If the log has a fault, the fault
/// is returned with its place, and nothing is written. With `may_compress` records may be Snappy
/// blocks. A log that lacks a segment cannot be read, as one whose device fails.
pub fn plan_log<L: Segments, W: Sink>(
    alloc: Global,
    log: &mut L,
    writer: &mut W,
    choice: Choice,
    external: ExternalLabels,
    may_compress: bool,
) -> Result<Option<Damage>, ToolFault>
    ensures ok { result ≡ Ok None → (start : L.Start) → L.gave log.old start no_meal
        → PlansLog choice external may_compress (L.gave log.new start) (L.had_all log.new start)
        (W.contents writer.old) (W.contents writer.new) }
    ensures log_sound { result ≡ Ok None → L.is_sound log.new }
    ensures writer_sound { OnOk result
        (W.has_failed writer.old ≡ false → W.has_failed writer.new ≡ false) }

    // A fault of the log is the one that it has. Then nothing is written, nor if memory ran out.
    ensures damaged { (d : Damage) → result ≡ Ok (Some d) → writer.new ≡ writer.old }
    ensures log { (d : Damage) → result ≡ Ok (Some d) → d.fault ≢ tail.OutOfMemory
        → (start : L.Start) → L.gave log.old start no_meal
        → ReadsLogToFault may_compress d.fault (L.gave log.new start) }
    ensures no_log { (f : TailFault) → result ≡ Err (Log f) → ⊥ }
    ensures no_line { (n : ℕ) → result ≡ Err (Line n) → ⊥ }
    ensures no_full { result ≡ Err SegmentFull → ⊥ }
    ensures untouched { IfErr result (λ e. e ≢ Device → writer.new ≡ writer.old) }

    // If the writer fails, it holds a prefix of the plan.
    ensures device { result ≡ Err Device
        → (CannotRead (L.may_fail log.old Failed) (L.has_failed log.new) (L.lacks log.new)
        × (writer.new ≡ writer.old))
        ⊎ ((W.has_failed writer.new ≡ true)
        × ((start : L.Start) → L.gave log.old start no_meal
        → PlansLogPart choice external may_compress (L.gave log.new start) (L.had_all log.new start)
        (W.contents writer.old) (W.contents writer.new))) }
{
    let (read, planner) = read_log(
        alloc,
        log,
        may_compress,
        Planner::new(alloc, choice, external),
    )?;
    if read.damage.is_some() {
        return Ok(read.damage);
    }
    let plan = planner.into_text()?;
    write_all(writer, &plan)?;
    Ok(None)
}

/// Reads a log segment (wal.md) to its end, and writes its plan.
fn plan_segment<R: Source, W: Sink>(
    alloc: Global,
    reader: &mut R,
    writer: &mut W,
    choice: Choice,
    external: ExternalLabels,
    may_compress: bool,
) -> Result<(), ToolFault>
    ensures ok { OnOk result
        (WritesPlan choice external false may_compress (R.remaining reader.old) (R.remaining reader.new)
        (W.contents writer.old) (W.contents writer.new)) }
    ensures reader_sound { OnOk result (R.has_failed reader.new ≡ false) }
    ensures writer_sound { OnOk result
        (W.has_failed writer.old ≡ false → W.has_failed writer.new ≡ false) }
    ensures log { (f : TailFault) → result ≡ Err (Log f)
        → ReadsFault false may_compress f (R.remaining reader.old) (R.remaining reader.new) }
    ensures line { (n : ℕ) → result ≡ Err (Line n)
        → ReadsLine false n (R.remaining reader.old) (R.remaining reader.new) }
    ensures no_full { result ≡ Err SegmentFull → ⊥ }
    ensures untouched { IfErr result (λ e. e ≢ Device → writer.new ≡ writer.old) }
    ensures device { result ≡ Err Device
        → ((R.is_sure reader.old ≡ true → ⊥) × (R.has_failed reader.new ≡ true)
        × (writer.new ≡ writer.old))
        ⊎ ((W.has_failed writer.new ≡ true)
        × WritesPlanPart choice external false may_compress (R.remaining reader.old) (R.remaining reader.new)
        (W.contents writer.old) (W.contents writer.new)) }
{
    match plan_log(alloc, reader, writer, choice, external, may_compress)? {
        None => Ok(()),
        Some(damage) => Err(ToolFault::from(damage.fault)),
    }
}

/// Reads the hexadecimal text of a log segment to its end, and writes its plan.
fn plan_digits<R: Source, W: Sink>(
    alloc: Global,
    reader: &mut R,
    writer: &mut W,
    choice: Choice,
    external: ExternalLabels,
    may_compress: bool,
) -> Result<(), ToolFault>
    ensures ok { OnOk result
        (WritesPlan choice external true may_compress (R.remaining reader.old) (R.remaining reader.new)
        (W.contents writer.old) (W.contents writer.new)) }
    ensures reader_sound { OnOk result (R.has_failed reader.new ≡ false) }
    ensures writer_sound { OnOk result
        (W.has_failed writer.old ≡ false → W.has_failed writer.new ≡ false) }
    ensures log { (f : TailFault) → result ≡ Err (Log f)
        → ReadsFault true may_compress f (R.remaining reader.old) (R.remaining reader.new) }
    ensures line { (n : ℕ) → result ≡ Err (Line n)
        → ReadsLine true n (R.remaining reader.old) (R.remaining reader.new) }
    ensures no_full { result ≡ Err SegmentFull → ⊥ }
    ensures untouched { IfErr result (λ e. e ≢ Device → writer.new ≡ writer.old) }
    ensures device { result ≡ Err Device
        → ((R.has_failed reader.new ≡ true) × (writer.new ≡ writer.old))
        ⊎ ((W.has_failed writer.new ≡ true)
        × WritesPlanPart choice external true may_compress (R.remaining reader.old) (R.remaining reader.new)
        (W.contents writer.old) (W.contents writer.new)) }
{
    let text = read_input(alloc, reader)?;
    let segment = rw_text::read_hex(alloc, &text)?;
    drop(text);
    plan_segment(
        alloc,
        &mut segment.as_slice(),
        writer,
        choice,
        external,
        may_compress,
    )
}

/// Returns which series the settings send.
fn choice_in(settings: Settings) -> Choice
    ensures { result ≡ choice_of settings.config }
{
    settings.config.into_fields().into_choice()
}

/// Reads a log segment (wal.md) and writes what the rules make of it: for each definition in log
/// order `REF kept NUMBER LABELS`, `REF filtered LABELS` or `REF bad FAULT`, and then `samples kept
/// A filtered B bad C noseries D`, each line ended by LF. With `hex` the input is hexadecimal text
/// in which white space is ignored. Nothing is written before the whole plan is made.
pub fn run_plan<R: Source, W: Sink>(
    alloc: Global,
    reader: &mut R,
    writer: &mut W,
    settings: Settings,
    hex: bool,
) -> Result<(), ToolFault>
    ensures ok { OnOk result
        (WritesPlan (choice_of settings.config) [] hex false (R.remaining reader.old)
        (R.remaining reader.new) (W.contents writer.old) (W.contents writer.new)) }
    ensures reader_sound { OnOk result (R.has_failed reader.new ≡ false) }
    ensures writer_sound { OnOk result
        (W.has_failed writer.old ≡ false → W.has_failed writer.new ≡ false) }

    // A fault of the data is the one that the input has. Then nothing is written, nor if memory ran
    // out.
    ensures log { (f : TailFault) → result ≡ Err (Log f)
        → ReadsFault hex false f (R.remaining reader.old) (R.remaining reader.new) }
    ensures line { (n : ℕ) → result ≡ Err (Line n)
        → ReadsLine hex n (R.remaining reader.old) (R.remaining reader.new) }
    ensures no_full { result ≡ Err SegmentFull → ⊥ }
    ensures untouched { IfErr result (λ e. e ≢ Device → writer.new ≡ writer.old) }

    // If a device fails, the writer holds a prefix of the plan.
    ensures device { result ≡ Err Device
        → ((R.has_failed reader.new ≡ true) × (writer.new ≡ writer.old))
        ⊎ ((W.has_failed writer.new ≡ true)
        × WritesPlanPart (choice_of settings.config) [] hex false (R.remaining reader.old)
        (R.remaining reader.new) (W.contents writer.old) (W.contents writer.new)) }
{
    run_plan_with(
        alloc,
        reader,
        writer,
        settings,
        ExternalLabels::none(),
        hex,
        false,
    )
}

/// Writes a plan as `run_plan` does. The external labels are added to each series before the
/// rules see it. With `may_compress` records of the segment may be Snappy blocks, whatever the
/// settings say.
pub fn run_plan_with<R: Source, W: Sink>(
    alloc: Global,
    reader: &mut R,
    writer: &mut W,
    settings: Settings,
    external: ExternalLabels,
    hex: bool,
    may_compress: bool,
) -> Result<(), ToolFault>
    ensures ok { OnOk result
        (WritesPlan (choice_of settings.config) external hex may_compress (R.remaining reader.old)
        (R.remaining reader.new) (W.contents writer.old) (W.contents writer.new)) }
    ensures reader_sound { OnOk result (R.has_failed reader.new ≡ false) }
    ensures writer_sound { OnOk result
        (W.has_failed writer.old ≡ false → W.has_failed writer.new ≡ false) }

    // A fault of the data is the one that the input has. Then nothing is written, nor if memory ran
    // out.
    ensures log { (f : TailFault) → result ≡ Err (Log f)
        → ReadsFault hex may_compress f (R.remaining reader.old) (R.remaining reader.new) }
    ensures line { (n : ℕ) → result ≡ Err (Line n)
        → ReadsLine hex n (R.remaining reader.old) (R.remaining reader.new) }
    ensures no_full { result ≡ Err SegmentFull → ⊥ }
    ensures untouched { IfErr result (λ e. e ≢ Device → writer.new ≡ writer.old) }

    // If a device fails, the writer holds a prefix of the plan.
    ensures device { result ≡ Err Device
        → ((R.has_failed reader.new ≡ true) × (writer.new ≡ writer.old))
        ⊎ ((W.has_failed writer.new ≡ true)
        × WritesPlanPart (choice_of settings.config) external hex may_compress (R.remaining reader.old)
        (R.remaining reader.new) (W.contents writer.old) (W.contents writer.new)) }
{
    let choice = choice_in(settings);
    if !hex {
        return plan_segment(alloc, reader, writer, choice, external, may_compress);
    }
    plan_digits(alloc, reader, writer, choice, external, may_compress)
}
