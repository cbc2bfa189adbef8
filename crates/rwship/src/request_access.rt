//! The fields that are added to the requests of `send`.

use crate::program_end::{report_bad_arguments, report_result, report_settings_fault};
use crate::settings::sent_fields_in;
use rw_cli::SettingsFile;
use rw_fields::ExtraFields;
use rw_send::{Access, AccessError};
use rw_settings::SentFields;
use rw_text::ToolFault;
use std::alloc::{AllocError, Global};
use std::process::ExitCode;
use std::sync::Arc;

/// The fields that are added to requests at first, and where they come from.
#[derive(Drop)]
pub struct RequestAccess {
    pub fields: ExtraFields,
    pub access: Arc<Access, Global>,
}

/// Says why a token cannot be sent, without the token.
fn report_access_error(rt: &HostRuntime, error: AccessError, path: &str) -> ExitCode {
    match error {
        AccessError::OutOfMemory => report_result(rt, Err(ToolFault::OutOfMemory)),
        AccessError::Unreadable(why) => {
            let status = report_result(rt, Err(ToolFault::Device));
            let _ = eprintln!(rt;
                "  cannot read the file of send.bearer_token_file, {path}: {why}"
            );
            status
        }
        AccessError::NotSent => report_bad_arguments(
            rt,
            "rwship: send.bearer_token_file: the file has no token that can be sent: it is empty, longer than some 6000 bytes, or has a control character, or send.headers has Authorization too",
        ),
    }
}

/// Returns the fields with the token that is in its file now.
fn read_access(
    rt: &HostRuntime,
    sent: SentFields,
) -> Result<Option<RequestAccess>, (AccessError, String)> {
    let SentFields {
        headers,
        bearer_token_file,
    } = sent;
    if headers.is_empty() && bearer_token_file.is_empty() {
        return Ok(None);
    }
    let alloc = rt.alloc();
    let Ok(path) = String::from_str(alloc, bearer_token_file.as_str()) else {
        return Err((AccessError::OutOfMemory, bearer_token_file));
    };
    let access = Access::new(alloc, headers, bearer_token_file);
    let fields = match access.fields(rt) {
        Ok(fields) => fields,
        Err(error) => return Err((error, path)),
    };
    match Arc::new(alloc, access) {
        Ok(access) => Ok(Some(RequestAccess { fields, access })),
        Err(_) => Err((AccessError::OutOfMemory, path)),
    }
}

/// Returns what is added to requests by these settings, if anything is. If it cannot be added,
/// reports why, and returns the exit status.
pub fn access_in(
    rt: &HostRuntime,
    file: SettingsFile<'_>,
) -> Result<Option<RequestAccess>, ExitCode> {
    let sent = match sent_fields_in(rt, file) {
        Ok(sent) => sent,
        Err(fault) => return Err(report_settings_fault(rt, fault)),
    };
    match read_access(rt, sent) {
        Ok(access) => Ok(access),
        Err((error, path)) => Err(report_access_error(rt, error, path.as_str())),
    }
}
