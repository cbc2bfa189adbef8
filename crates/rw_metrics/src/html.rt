//! The parts of a page for people.

ghost use Rattle.std.specs.Prelude.{◌≡◌, ◌++◌, ◌≤◌, OnOk, length};
ghost use Rattle.rw_metrics.specs.Html.{page_end, page_start, table_text};
ghost use Rattle.rw_metrics.specs.inner.Rows.{table_of};

use crate::rows::{Form, Shown, Table, push_rows, push_statuses, push_text};
use std::alloc::AllocError;

/// A row of a table.
const CELLS: Form<'static> = Form {
    metric: "",
    start: "<tr><th>",
    between: "</th><td>",
    end: "</td></tr>\n",
    zeros: false,
};

/// The HTML before the title. The page is loaded again every 5 seconds, and its width is that of
/// the device. It has an icon of its own, so that no browser asks for one.
const HEAD: &str = "<!DOCTYPE html>
<html lang=\"en\">
<head>
<meta charset=\"utf-8\">
<meta name=\"viewport\" content=\"width=device-width, initial-scale=1\">
<meta http-equiv=\"refresh\" content=\"5\">
<link rel=\"icon\" href=\"data:,\">
<title>";

/// The HTML between the title and its repetition as a heading.
const STYLE: &str = "</title>
<style>
:root { color-scheme: light dark; font: 16px/1.4 system-ui, sans-serif }
body { max-width: 40rem; margin: 0 auto; padding: 1rem }
h1 { font-size: 1.4rem; margin: 0 }
h2 { font-size: 1.1rem; margin: 1.2rem 0 0 }
p { border-left: .3rem solid #2a9d4b; padding: .3rem .7rem }
p.bad { border-color: #d1242f }
table { width: 100%; border-collapse: collapse }
tr { border-bottom: 1px solid #8886 }
th { font-weight: normal; text-align: left; padding: .2rem 1rem .2rem 0 }
td { font-variant-numeric: tabular-nums; text-align: right }
footer { margin-top: 1.2rem; font-size: .9rem }
</style>
</head>
<body>
<h1>";

/// The HTML after all numbers.
const FOOT: &str = "<footer>The numbers are best effort and are read one after the other. \
    This page is loaded again every 5 seconds. \
    <a href=\"metrics\">The metrics for Prometheus</a></footer>
</body>
</html>
";

/// Adds everything before the first paragraph of a page with this title.
#[tactic(auto, unfolding(crate::specs::Html::page_start))]
pub(crate) fn push_page_start(out: &mut Vec<u8>, title: &str) -> Result<(), AllocError>
    ensures { OnOk result (out.new.items ≡ out.old.items ++ page_start title.now) }
{
    push_text(out, HEAD)?;
    push_text(out, title)?;
    push_text(out, STYLE)?;
    push_text(out, title)?;
    push_text(out, "</h1>\n")?;
    Ok(())
}

/// Adds the end of a page.
#[tactic(auto, unfolding(crate::specs::Html::page_end))]
pub(crate) fn push_page_end(out: &mut Vec<u8>) -> Result<(), AllocError>
    ensures { OnOk result (out.new.items ≡ out.old.items ++ page_end) }
{
    push_text(out, FOOT)
}

/// Adds a table: a row for each label and each status.
#[tactic(auto, unfolding(crate::specs::Html::table_text))]
pub(crate) fn push_table(
    out: &mut Vec<u8>,
    table: &Table,
    numbers: &[Shown],
    counts: &[(u16, u64)],
) -> Result<(), AllocError>
    requires { length table.now.1.now ≤ length numbers.now }
    ensures { OnOk result
        (out.new.items ≡ out.old.items ++ table_text (table_of table.now) numbers.now counts.now) }
{
    let (heading, labels, status) = *table;
    push_text(out, "<h2>")?;
    push_text(out, heading)?;
    push_text(out, "</h2>\n<table>\n")?;
    push_rows(out, &CELLS, labels, numbers)?;
    push_statuses(out, &CELLS, status, counts)?;
    push_text(out, "</table>\n")?;
    Ok(())
}
