//! The table `log`.

ghost use Rattle.std.specs.Prelude.{◌≡◌, ◌++◌, string_bytes, OnOk};
ghost use Rattle.toml.specs.View.{table_view};
ghost use Rattle.rw_settings.specs.LogTable.{may_compress_of};
ghost use Rattle.rw_settings.specs.SettingsText.{log_text};

use crate::keys::COMPRESSION;
use crate::printed_values::push_switch;
use crate::values::is_on;
use std::alloc::AllocError;
use toml::Table;

/// What the table sets. A value that cannot be taken counts as none.
pub(crate) fn may_compress_of(log: &Table) -> bool
    ensures { result ≡ may_compress_of (table_view log.now) }
{
    is_on(log, &COMPRESSION)
}

/// Adds the table `log`, if it sets something.
#[tactic(auto, unfolding(crate::specs::SettingsText::log_text))]
pub(crate) fn push_log(out: &mut String, may_compress: bool) -> Result<(), AllocError>
    ensures { OnOk result
        (string_bytes out.new ≡ string_bytes out.old ++ log_text may_compress) }
{
    if !may_compress {
        return Ok(());
    }
    out.push_str("\n[log]\n")?;
    push_switch(out, &COMPRESSION, true)?;
    Ok(())
}
