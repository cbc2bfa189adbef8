//! The host and the path in the requests that carry messages.

ghost use Rattle.std.specs.Prelude.{◌≡◌, ◌==◌, ◌&&◌, Some, None, true, codes, IfOk, string_bytes, if◌then◌else◌};
ghost use Rattle.std.specs.List.{list_all};
ghost use Rattle.rw_types.specs.Labels.{is_word_of};
ghost use Rattle.rw_types.specs.Requests.{is_host_byte, is_path_byte, is_host_name, is_request_path};

use std::alloc::{AllocError, Global};
use std::marker::Model;

/// The most bytes of a host name, and of a path.
const MAX_BYTES: usize = 255;

/// The value of the field `Host` of requests, with a port or without: 1 to 255 bytes, each from `!`
/// to `~`. Contracts see its bytes.
#[derive(Debug, Drop)]
pub struct HostName {
    text: String,
}

impl Model for HostName {
    ghost use Rattle.std.specs.Prelude.{◌≡◌, ℕ, List, true, string_bytes};
    ghost use Rattle.rw_types.specs.Requests.{is_host_name};

    ghost Value = { List ℕ };

    ghost view = { λ h. string_bytes h.text };

    ghost invariant = { λ h. is_host_name (string_bytes h.text) ≡ true };
}

/// The path of requests, with its query if it has one: 1 to 255 bytes, first `/`, then ASCII
/// letters, digits and `/-._~%?=&`. Contracts see its bytes.
#[derive(Debug, Drop)]
pub struct RequestPath {
    text: String,
}

impl Model for RequestPath {
    ghost use Rattle.std.specs.Prelude.{◌≡◌, ℕ, List, true, string_bytes};
    ghost use Rattle.rw_types.specs.Requests.{is_request_path};

    ghost Value = { List ℕ };

    ghost view = { λ p. string_bytes p.text };

    ghost invariant = { λ p. is_request_path (string_bytes p.text) ≡ true };
}

fn is_host_byte(b: u8) -> bool
    ensures { result ≡ is_host_byte b }
{
    b.is_ascii_graphic()
}

fn is_path_byte(b: u8) -> bool
    ensures { result ≡ is_path_byte b }
{
    b.is_ascii_alphanumeric()
        || matches!(
            b,
            b'/' | b'-' | b'.' | b'_' | b'~' | b'%' | b'?' | b'=' | b'&'
        )
}

fn are_host_bytes(bytes: &[u8]) -> bool
    ensures { result ≡ list_all is_host_byte bytes.now }
{
    bytes.iter().all(|b| is_host_byte(*b))
}

fn are_path_bytes(bytes: &[u8]) -> bool
    ensures { result ≡ list_all is_path_byte bytes.now }
{
    bytes.iter().all(|b| is_path_byte(*b))
}

fn is_host_text(text: &[u8]) -> bool
    ensures { result ≡ is_word_of is_host_byte is_host_byte text.now }
{
    match text.split_first() {
        Some((first, rest)) => is_host_byte(*first) && are_host_bytes(rest),
        None => false,
    }
}

fn is_path_text(text: &[u8]) -> bool
    ensures { result ≡ is_word_of (λ b. b == 47) is_path_byte text.now }
{
    match text.split_first() {
        Some((first, rest)) => *first == b'/' && are_path_bytes(rest),
        None => false,
    }
}

fn is_host_name(text: &[u8]) -> bool
    ensures { result ≡ is_host_name text.now }
{
    is_host_text(text) && text.len() <= MAX_BYTES
}

fn is_request_path(text: &[u8]) -> bool
    ensures { result ≡ is_request_path text.now }
{
    is_path_text(text) && text.len() <= MAX_BYTES
}

impl HostName {
    /// Law: it is a host name. The call does nothing.
    pub fn conforms(&self)
        ensures { is_host_name self.now ≡ true }
    {
        let _ = &self.text;
    }

    /// Returns whether `text` may be a host name: 1 to 255 bytes, each from `!` to `~`.
    pub fn is_host(text: &str) -> bool
        ensures { result ≡ is_host_name text.now }
    {
        is_host_name(text.as_bytes())
    }

    /// Returns the host name with this text, or `None` if `is_host` refuses it. This takes no
    /// memory.
    pub fn check(text: String) -> Option<HostName>
        ensures { result
            ≡ (if is_host_name (string_bytes text) then Some (string_bytes text) else None) }
    {
        if HostName::is_host(text.as_str()) {
            Some(HostName { text })
        } else {
            None
        }
    }

    /// Returns `localhost:9090`, the address at which Prometheus listens by default.
    pub fn local_prometheus(alloc: Global) -> Result<HostName, AllocError>
        ensures { IfOk result (λ h. h ≡ codes "localhost:9090") }
    {
        Ok(HostName {
            text: String::from_str(alloc, "localhost:9090")?,
        })
    }

    /// Returns the host name as text.
    pub fn as_str(&self) -> &str
        ensures text { result.now ≡ self.now }
        ensures host { is_host_name result.now ≡ true }
    {
        self.text.as_str()
    }
}

impl RequestPath {
    /// Law: it is a path of requests. The call does nothing.
    pub fn conforms(&self)
        ensures { is_request_path self.now ≡ true }
    {
        let _ = &self.text;
    }

    /// Returns whether `text` may be a path: 1 to 255 bytes, of which the first is `/` and each
    /// other one an ASCII letter, an ASCII digit or one of `/-._~%?=&`.
    pub fn is_path(text: &str) -> bool
        ensures { result ≡ is_request_path text.now }
    {
        is_request_path(text.as_bytes())
    }

    /// Returns the path with this text, or `None` if `is_path` refuses it. This takes no memory.
    pub fn check(text: String) -> Option<RequestPath>
        ensures { result
            ≡ (if is_request_path (string_bytes text) then Some (string_bytes text) else None) }
    {
        if RequestPath::is_path(text.as_str()) {
            Some(RequestPath { text })
        } else {
            None
        }
    }

    /// Returns `/api/v1/write`, the path at which Prometheus receives messages (Remote-Write 1.0,
    /// "Protocol").
    pub fn api_v1_write(alloc: Global) -> Result<RequestPath, AllocError>
        ensures { IfOk result (λ p. p ≡ codes "/api/v1/write") }
    {
        Ok(RequestPath {
            text: String::from_str(alloc, "/api/v1/write")?,
        })
    }

    /// Returns the path as text.
    pub fn as_str(&self) -> &str
        ensures text { result.now ≡ self.now }
        ensures path { is_request_path result.now ≡ true }
    {
        self.text.as_str()
    }
}
