//! The end of each page for Prometheus: which program it is, and what the kernel says of it.

ghost use Rattle.std.specs.Prelude.{◌≡◌, ◌++◌, OnOk};
ghost use Rattle.rw_metrics.specs.ProcessPage.{build_page, numbers_page, process_page};

use crate::exposition::{Metric, metrics, push_metrics};
use crate::process::ProcessNumbers;
use crate::rows::{Shown, push_text};
use std::alloc::AllocError;

/// What is before the version of the program.
const BUILD: &str = "# HELP rwship_build_info Always 1; the label is the version of the program.
# TYPE rwship_build_info gauge
rwship_build_info{version=\"";

/// What the kernel says of the process, by the names of Prometheus' own clients.
const PROCESS: [Metric; 4] = metrics! {
    "process_cpu_seconds_total" "counter" "Seconds of processor time in user and kernel mode."
    "process_resident_memory_bytes" "gauge" "Bytes of memory that are resident."
    "process_open_fds" "gauge" "Open file descriptors."
    "process_start_time_seconds" "gauge" "Seconds from 1970 to the start of the process."
};

/// Adds the version of the program.
pub(crate) fn push_build(out: &mut Vec<u8>, version: &str) -> Result<(), AllocError>
    ensures { OnOk result (out.new.items ≡ out.old.items ++ build_page version.now) }
{
    push_text(out, BUILD)?;
    push_text(out, version)?;
    push_text(out, "\"} 1\n")
}

/// Adds these numbers of the process.
#[tactic(auto, unfolding(crate::specs::ProcessPage::numbers_page))]
fn push_numbers(out: &mut Vec<u8>, n: &ProcessNumbers) -> Result<(), AllocError>
    ensures { OnOk result (out.new.items ≡ out.old.items ++ numbers_page n.now) }
{
    push_metrics(
        out,
        &PROCESS,
        &[
            Shown::Micros(n.cpu_micros),
            Shown::Count(n.resident_bytes),
            Shown::Count(n.open_descriptors),
            Shown::Micros(n.start_micros),
        ],
    )
}

/// Adds what the kernel says of the process, if it does.
#[tactic(auto, unfolding(crate::specs::ProcessPage::process_page))]
pub(crate) fn push_process(
    out: &mut Vec<u8>,
    process: &Option<ProcessNumbers>,
) -> Result<(), AllocError>
    ensures { OnOk result (out.new.items ≡ out.old.items ++ process_page process.now) }
{
    match process {
        None => Ok(()),
        Some(numbers) => push_numbers(out, numbers),
    }
}
