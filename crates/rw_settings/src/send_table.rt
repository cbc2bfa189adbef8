//! The table `send`.

ghost use Rattle.std.specs.Prelude.{◌≡◌, ◌++◌, string_bytes, IfOk, OnOk};
ghost use Rattle.toml.specs.View.{table_view};
ghost use Rattle.rw_settings.specs.Sending.{send_fields, order_fault, send_fault};
ghost use Rattle.rw_settings.specs.SettingsText.{send_text};

use crate::fault::{SettingsFault, lesser};
use crate::keys::{
    BATCH, CAPACITY, MAX_BACKOFF_MS, MAX_SHARDS, MIN_BACKOFF_MS, MIN_SHARDS, SEND_SNAPPY, SHARDS,
    TIMEOUT_MS, send_keys,
};
use crate::printed_values::{Shown, names_text, push_lines, push_switch};
use crate::sent_labels::labels_fault;
use crate::table_faults::table_fault;
use crate::values::{bounded_of, host_of, is_on, names_of, number_of, path_of};
use rw_relabel::Rules;
use rw_shard_core::{ConfigFields, Target};
use std::alloc::{AllocError, Global};
use toml::Table;

/// What the table sets, with the default of each key that it does not have. A value that cannot be
/// taken counts as none.
#[tactic(auto, unfolding(crate::specs::Sending::send_fields))]
pub(crate) fn send_fields(
    alloc: Global,
    send: &Table,
    rules: Rules,
) -> Result<ConfigFields, AllocError>
    ensures { IfOk result (λ c. c ≡ send_fields (table_view send.now) rules) }
{
    Ok(ConfigFields {
        target: Target {
            host: host_of(alloc, send)?,
            path: path_of(alloc, send)?,
        },
        shards: bounded_of(send, &SHARDS),
        min_shards: bounded_of(send, &MIN_SHARDS),
        max_shards: bounded_of(send, &MAX_SHARDS),
        capacity: bounded_of(send, &CAPACITY),
        batch: bounded_of(send, &BATCH),
        min_backoff_ms: bounded_of(send, &MIN_BACKOFF_MS),
        max_backoff_ms: bounded_of(send, &MAX_BACKOFF_MS),
        timeout_ms: bounded_of(send, &TIMEOUT_MS),
        names: names_of(send),
        snappy: is_on(send, &SEND_SNAPPY),
        rules,
    })
}

/// Returns the fault of a table whose shards or backoff are not between their bounds.
#[tactic(auto, unfolding(crate::specs::Sending::send_fields, crate::specs::Sending::order_fault))]
pub(crate) fn order_fault(send: &Table) -> Option<SettingsFault>
    ensures { result ≡ order_fault (table_view send.now) }
{
    let shards = number_of(send, &SHARDS);
    let is_enough = number_of(send, &MIN_SHARDS) <= shards;
    let is_not_too_many = shards <= number_of(send, &MAX_SHARDS);
    let rises = number_of(send, &MIN_BACKOFF_MS) <= number_of(send, &MAX_BACKOFF_MS);
    if is_enough && is_not_too_many && rises {
        None
    } else {
        Some(SettingsFault::OutOfRange)
    }
}

/// The least fault of the table.
pub(crate) fn send_fault(send: &Table) -> Option<SettingsFault>
    ensures { result ≡ send_fault (table_view send.now) }
{
    let fault = lesser(table_fault(send, send_keys()), order_fault(send));
    lesser(fault, labels_fault(send))
}

/// Adds the table `send`.
#[tactic(auto, unfolding(crate::specs::SettingsText::send_text))]
pub(crate) fn push_send(
    alloc: Global,
    out: &mut String,
    send: &ConfigFields,
) -> Result<(), AllocError>
    ensures { OnOk result (string_bytes out.new ≡ string_bytes out.old ++ send_text send.now) }
{
    out.push_str("[send]\n")?;
    let values = [
        Shown::Text(send.target.host.as_str()),
        Shown::Text(send.target.path.as_str()),
        Shown::Number(send.shards.get()),
        Shown::Number(send.min_shards.get()),
        Shown::Number(send.max_shards.get()),
        Shown::Number(send.capacity.get()),
        Shown::Number(send.batch.get()),
        Shown::Number(send.min_backoff_ms.get()),
        Shown::Number(send.max_backoff_ms.get()),
        Shown::Number(send.timeout_ms.get()),
        Shown::Text(names_text(send.names)),
    ];
    push_lines(alloc, out, send_keys(), &values)?;
    push_switch(out, &SEND_SNAPPY, send.snappy)?;
    Ok(())
}
