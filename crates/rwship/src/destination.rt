//! Where `send` connects to, and what its requests name.

ghost use Rattle.std.specs.Prelude.{◌≡◌, unwrap_or};

use crate::program_end::{report_bad_url, report_result};
use rw_cli::{ReceiverUrl, SendTo, UrlFault, read_receiver_url};
use rw_settings::Settings;
use rw_shard_core::Config;
use rw_text::{Address, ToolFault};
use rw_types::{HostName, RequestPath};
use std::alloc::{AllocError, Global};
use std::process::ExitCode;

/// Where connections go, and what requests name in place of what the settings say.
#[derive(Drop)]
pub struct Destination {
    host: String,
    port: u16,
    /// What a URL says.
    named: Option<Named>,
}

/// What the requests to a URL name.
#[derive(Drop)]
struct Named {
    authority: HostName,
    path: Option<RequestPath>,
}

/// Returns the destination with this URL.
fn at_url(url: ReceiverUrl) -> Destination {
    let ReceiverUrl {
        host,
        port,
        authority,
        path,
    } = url;
    Destination {
        host,
        port,
        named: Some(Named { authority, path }),
    }
}

/// Returns the destination with this address.
fn at_address(alloc: Global, to: Address<'_>) -> Result<Destination, AllocError> {
    Ok(Destination {
        host: String::from_str(alloc, to.host)?,
        port: to.port,
        named: None,
    })
}

/// Returns the settings with what requests to a URL name.
fn with_target(settings: Settings, named: Named) -> Settings
    ensures { result ≡ record settings {
      config = record settings.config {
        target = record {
          host = named.authority;
          path = unwrap_or named.path settings.config.target.path;
        };
      };
    } }
{
    let Settings {
        config,
        limits,
        may_compress,
    } = settings;
    let mut fields = config.into_fields();
    fields.target.host = named.authority;
    if let Some(path) = named.path {
        fields.target.path = path;
    }
    match Config::new(fields) {
        Some(config) => Settings {
            config,
            limits,
            may_compress,
        },
        None => unreachable!(),
    }
}

impl Destination {
    /// Returns the address that connections go to.
    pub fn address(&self) -> Address<'_> {
        Address {
            host: self.host.as_str(),
            port: self.port,
        }
    }

    /// Returns the settings with what requests name, if a URL says so.
    pub fn settings_for(&mut self, settings: Settings) -> Settings {
        match self.named.take() {
            Some(named) => with_target(settings, named),
            None => settings,
        }
    }
}

/// Returns the destination that an option gives. If a URL is not that of a receiver, it reports
/// why, and returns the exit status.
pub fn destination_of(rt: &HostRuntime, to: SendTo<'_>) -> Result<Destination, ExitCode> {
    match to {
        SendTo::Address(to) => match at_address(rt.alloc(), to) {
            Ok(destination) => Ok(destination),
            Err(_) => Err(report_result(rt, Err(ToolFault::OutOfMemory))),
        },
        SendTo::Url(text) => match read_receiver_url(rt.alloc(), text) {
            Ok(url) => Ok(at_url(url)),
            Err(UrlFault::OutOfMemory) => Err(report_result(rt, Err(ToolFault::OutOfMemory))),
            Err(fault) => Err(report_bad_url(rt, text, fault)),
        },
    }
}
