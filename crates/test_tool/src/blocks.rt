//! A segment that Prometheus 2.42 wrote with its default flags, whose records are Snappy blocks:
//! its body, its plan and its reports, with the option and without it.

use crate::rows::holds;
use rw_external_labels::ExternalLabels;
use rw_inspect::{LogFindings, fault_lines, find_entries, inspect, json_of, table_of};
use rw_log_commands::{run_body_with, run_plan_with};
use rw_log_read::{Named, UnreadLog};
use rw_settings::read_settings;
use rw_text::{ToolFault, read_digits};
use rw_types::Room;
use rw_wal_tail::TailFault;
use std::alloc::{AllocError, Global};
use std::test::Fail;

/// The definition of `{__name__="one", l="xx.."}`, with forty letters, and the sample 1.
const SEGMENT: &str =
    "09001dae8208a3420401000901480102085f5f6e616d655f5f036f6e65016c28789a010009001afaf9b0321b04020009014801000001a22c908dda00003ff0000000000000";

/// The same with a block after it that says two bytes and has one.
const WITH_BAD_BLOCK: &str =
    "09001dae8208a3420401000901480102085f5f6e616d655f5f036f6e65016c28789a010009001afaf9b0321b04020009014801000001a22c908dda00003ff00000000000000900033c5b0283020003";

/// A fragment that is compressed by Zstandard.
const ZSTANDARD: &str = "1100049cec314a28b52ffd";

const BODY: &str =
    "0a520a0f0a085f5f6e616d655f5f12036f6e650a2d0a016c122878787878787878787878787878787878787878787878787878787878787878787878787878787878121009000000000000f03f10da9bc2e4a234";

const PLAN: &str = "1 kept 0 {__name__=\"one\",l=\"xxxxxxxxxxxxxxxxxxxxxxxxxxxxxxxxxxxxxxxx\"}
samples kept 1 filtered 0 bad 0 noseries 0
";

const TABLE: &str =
    "   segment          bytes   pages     entries      series     samples     skipped       earliest         latest
  00000000             69       1           2           1           1           0  1796044000730  1796044000730
       all             69       1           2           1           1           0  1796044000730  1796044000730
label sets                  1
samples without a series    0
samples with bad labels     0
samples that do not rise    0
their first positions      \n";

/// The sample.
const FOUND: &str =
    "1 00000000 sample 1 1796044000730 1 {__name__=\"one\",l=\"xxxxxxxxxxxxxxxxxxxxxxxxxxxxxxxxxxxxxxxx\"}
";

const WITHOUT_THE_OPTION: &str = "\
{\"type\":\"segment\",\"file\":\"00000000\",\"bytes\":69,\"pages\":1,\"passed_over\":0,\"entries\":0,\"series\":0,\"samples\":0,\"earliest\":null,\"latest\":null}\n\
{\"type\":\"totals\",\"bytes\":69,\"pages\":1,\"passed_over\":0,\"entries\":0,\"series\":0,\"samples\":0,\"earliest\":null,\"latest\":null,\"label_sets\":0,\"without_series\":0,\"bad_labels\":0,\"not_rising\":0,\"first_not_rising\":[]}\n\
{\"type\":\"fault\",\"fault\":\"the fragment is compressed\",\"file\":\"00000000\",\"offset\":0,\"behind\":69,\"next\":\"give --wal-compression, which reads Snappy blocks, or start Prometheus with --no-storage.tsdb.wal-compression; send ships what comes before the fault\"}\n\
";

const BAD_BLOCK: &str = "\
{\"type\":\"segment\",\"file\":\"00000000\",\"bytes\":79,\"pages\":1,\"passed_over\":0,\"entries\":2,\"series\":1,\"samples\":1,\"earliest\":1796044000730,\"latest\":1796044000730}\n\
{\"type\":\"totals\",\"bytes\":79,\"pages\":1,\"passed_over\":0,\"entries\":2,\"series\":1,\"samples\":1,\"earliest\":1796044000730,\"latest\":1796044000730,\"label_sets\":1,\"without_series\":0,\"bad_labels\":0,\"not_rising\":0,\"first_not_rising\":[]}\n\
{\"type\":\"fault\",\"fault\":\"the record is a Snappy block that does not decode to at most 16 MiB, or does not have the form of its type\",\"file\":\"00000000\",\"offset\":69,\"behind\":10,\"next\":\"copy the segment again and compare; send ships what is before the fault, receive does not start\"}\n\
";

const ZSTANDARD_LINES: &str = "\
fault: the fragment is compressed by Zstandard, or its type byte is damaged
place: file 00000000, byte 0; bytes from there to its end: 11
next: start Prometheus without --storage.tsdb.wal-compression-type=zstd if it has that, or else copy the segment again; send ships what comes before the fault
";

/// Returns the bytes of these digits, or none if they are no digits.
fn bytes_of(alloc: Global, digits: &str) -> Vec<u8> {
    match read_digits(alloc, digits.as_bytes()) {
        Ok(Some(bytes)) => bytes,
        _ => Vec::new(alloc),
    }
}

/// Returns how a run of `body` over a segment ends, and what it writes.
fn body_of(
    alloc: Global,
    segment: &[u8],
    may_compress: bool,
) -> Result<(Result<(), ToolFault>, Vec<u8>), AllocError> {
    let mut writer = Room::new(alloc, 4096)?;
    let mut reader = segment;
    let outcome = run_body_with(alloc, &mut reader, &mut writer, false, may_compress);
    Ok((outcome, writer.into_bytes()))
}

/// Returns how a run of `plan` over the digits of a segment ends, and what it writes.
fn plan_of(
    alloc: Global,
    digits: &str,
    may_compress: bool,
) -> Result<(Result<(), ToolFault>, Vec<u8>), AllocError> {
    let mut writer = Room::new(alloc, 4096)?;
    let mut reader = digits.as_bytes();
    let outcome = match read_settings(alloc, b"") {
        Ok(settings) => run_plan_with(
            alloc,
            &mut reader,
            &mut writer,
            settings,
            ExternalLabels::none(),
            true,
            may_compress,
        ),
        Err(_) => Err(ToolFault::OutOfMemory),
    };
    Ok((outcome, writer.into_bytes()))
}

/// Returns the reader of a segment.
fn alone(alloc: Global, text: &[u8]) -> Result<Vec<Named<&[u8]>>, AllocError> {
    let mut segments = Vec::with_capacity(alloc, 1)?;
    segments.push_reserved(Named {
        name: String::from_str(alloc, "00000000")?,
        source: text,
    });
    Ok(segments)
}

/// Returns the report of a segment.
fn report_of(alloc: Global, digits: &str, may_compress: bool) -> Result<LogFindings, UnreadLog> {
    let segment = bytes_of(alloc, digits);
    inspect(alloc, alone(alloc, &segment)?, may_compress)
}

#[test]
fn body_of_blocks(rt: HostRuntime) -> Result<(), Fail> {
    let alloc = rt.alloc();
    let segment = bytes_of(alloc, SEGMENT);
    let (outcome, body) = body_of(alloc, &segment, true)?;
    holds(
        &rt,
        outcome == Ok(()) && body.as_slice() == bytes_of(alloc, BODY).as_slice(),
    );
    let (outcome, body) = body_of(alloc, &segment, false)?;
    let refused = Err(ToolFault::Log(TailFault::Compressed));
    holds(&rt, outcome == refused && body.is_empty());
    Ok(())
}

#[test]
fn plan_of_blocks(rt: HostRuntime) -> Result<(), Fail> {
    let alloc = rt.alloc();
    let (outcome, plan) = plan_of(alloc, SEGMENT, true)?;
    holds(&rt, outcome == Ok(()) && plan.as_slice() == PLAN.as_bytes());
    let (outcome, plan) = plan_of(alloc, SEGMENT, false)?;
    let refused = Err(ToolFault::Log(TailFault::Compressed));
    holds(&rt, outcome == refused && plan.is_empty());
    Ok(())
}

#[test]
fn reports_of_blocks(rt: HostRuntime) -> Result<(), Fail> {
    let alloc = rt.alloc();
    let table = table_of(alloc, &report_of(alloc, SEGMENT, true)?)?;
    holds(&rt, table.as_slice() == TABLE.as_bytes());
    let json = json_of(alloc, &report_of(alloc, SEGMENT, false)?)?;
    holds(&rt, json.as_slice() == WITHOUT_THE_OPTION.as_bytes());
    let json = json_of(alloc, &report_of(alloc, WITH_BAD_BLOCK, true)?)?;
    holds(&rt, json.as_slice() == BAD_BLOCK.as_bytes());
    Ok(())
}

#[test]
fn entries_of_blocks(rt: HostRuntime) -> Result<(), Fail> {
    let alloc = rt.alloc();
    let segment = bytes_of(alloc, SEGMENT);
    let found = find_entries(alloc, alone(alloc, &segment)?, true, vec![in alloc; 1]?)?;
    holds(
        &rt,
        found.text.as_slice() == FOUND.as_bytes() && found.missing == 0,
    );
    Ok(())
}

#[test]
fn zstandard_is_named(rt: HostRuntime) -> Result<(), Fail> {
    let alloc = rt.alloc();
    let report = report_of(alloc, ZSTANDARD, true)?;
    let fault = match report.damage {
        Some(damage) => damage.fault,
        None => TailFault::OutOfMemory,
    };
    let lines = fault_lines(alloc, fault, true, "00000000", 11, 0)?;
    holds(&rt, lines.as_slice() == ZSTANDARD_LINES.as_bytes());
    Ok(())
}
