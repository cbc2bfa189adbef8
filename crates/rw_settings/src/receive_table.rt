//! The table `receive`.

ghost use Rattle.std.specs.Prelude.{◌≡◌, ◌++◌, string_bytes, IfOk, OnOk};
ghost use Rattle.toml.specs.View.{table_view};
ghost use Rattle.rw_settings.specs.Receiving.{receive_limits};
ghost use Rattle.rw_settings.specs.SettingsText.{receive_text};

use crate::keys::{
    BUSY_FIRST, MAX_BODY_BYTES, MAX_LABEL_BYTES, MAX_LABELS, RECEIVE_SNAPPY, receive_keys,
};
use crate::printed_values::{Shown, names_text, push_lines, push_switch};
use crate::values::{bounded_of, is_on, names_of, path_of};
use rw_head::Limits;
use std::alloc::{AllocError, Global};
use toml::Table;

/// What the table sets, with the default of each key that it does not have. A value that cannot be
/// taken counts as none.
#[tactic(auto, unfolding(crate::specs::Receiving::receive_limits))]
pub(crate) fn receive_limits(alloc: Global, receive: &Table) -> Result<Limits, AllocError>
    ensures { IfOk result (λ l. l ≡ receive_limits (table_view receive.now)) }
{
    Ok(Limits {
        path: path_of(alloc, receive)?,
        max_body_bytes: bounded_of(receive, &MAX_BODY_BYTES),
        max_labels: bounded_of(receive, &MAX_LABELS),
        max_label_bytes: bounded_of(receive, &MAX_LABEL_BYTES),
        busy_first: bounded_of(receive, &BUSY_FIRST),
        names: names_of(receive),
        snappy: is_on(receive, &RECEIVE_SNAPPY),
    })
}

/// Adds the table `receive`.
#[tactic(auto, unfolding(crate::specs::SettingsText::receive_text))]
pub(crate) fn push_receive(
    alloc: Global,
    out: &mut String,
    limits: &Limits,
) -> Result<(), AllocError>
    ensures { OnOk result (string_bytes out.new ≡ string_bytes out.old ++ receive_text limits.now) }
{
    out.push_str("\n[receive]\n")?;
    let values = [
        Shown::Text(limits.path.as_str()),
        Shown::Number(limits.max_body_bytes.get()),
        Shown::Number(limits.max_labels.get()),
        Shown::Number(limits.max_label_bytes.get()),
        Shown::Number(limits.busy_first.get()),
        Shown::Text(names_text(limits.names)),
    ];
    push_lines(alloc, out, receive_keys(), &values)?;
    push_switch(out, &RECEIVE_SNAPPY, limits.snappy)?;
    Ok(())
}
