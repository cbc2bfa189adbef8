//! The URL of a receiver, a value of `send --to`.

ghost use Rattle.std.specs.Prelude.{◌≡◌, Some, IfOk, OnOk, codes, string_bytes};
ghost use Rattle.http_uri.specs.declared.uri.Uri.{Uri as Read};
ghost use Rattle.http_uri.specs.Grammar.{or_slash};
ghost use Rattle.http_uri.specs.Uri.{Spells, uri_scheme};
ghost use Rattle.rw_cli.specs.ReceiverUrls.{Names, IsPort, in_request, path_of};

use http_uri::{Authority, PathAndQuery, Uri, UriError};
use percent_encoding::{AsciiSet, ascii_set, percent_encode};
use rw_types::{HostName, RequestPath};
use std::alloc::{AllocError, Global};

/// The port of a URL that names none (RFC 9110, section 4.2.1).
const HTTP_PORT: u16 = 80;

/// What a path and a query may have as it is (RFC 3986, section 3.3), and is escaped, since a
/// `RequestPath` has none of it.
const ESCAPED: AsciiSet = ascii_set!(
    AsciiSet::EMPTY
        .add(b':')
        .add(b'@')
        .add(b'!')
        .add(b'$')
        .add(b'\'')
        .add(b'(')
        .add(b')')
        .add(b'*')
        .add(b',')
        .add(b';')
);

/// The receiver that a URL names.
#[derive(Drop)]
pub struct ReceiverUrl {
    /// The host to look up, an IPv6 address with its brackets.
    pub host: String,
    /// The port, 80 if the URL has none.
    pub port: u16,
    /// The field `Host` of each request: the host, and the port if the URL has one.
    pub authority: HostName,
    /// The path of each request with its query, or `None` if the URL has no path or `/` alone.
    pub path: Option<RequestPath>,
}

/// Why a text is not the URL of a receiver.
#[derive(Clone, Copy, Debug, PartialEq, Eq)]
pub enum UrlFault {
    /// It is no URL with a host, or its host and port are longer than 255 bytes.
    NotUrl,
    /// Its scheme is `https`.
    NeedsTls,
    /// Its scheme is neither `http` nor `https`.
    OtherScheme,
    /// It has a user, which a sender must not send (RFC 9110, section 4.2.4).
    HasUser,
    /// Its port is not a number from 1 to 65,535.
    BadPort,
    /// Its path and query are longer than 255 bytes or have a byte that must be escaped.
    BadPath,
    /// Memory ran out.
    OutOfMemory,
}

impl From<AllocError> for UrlFault {
    ghost use Rattle.std.specs.Prelude.{◌≡◌};
    ghost use Rattle.rw_cli.specs.declared.receiver_url.UrlFault.TheVariants.{OutOfMemory};

    ghost from_gives = { λ _ e. e ≡ OutOfMemory };

    fn from(_: AllocError) -> UrlFault {
        UrlFault::OutOfMemory
    }
}

/// Returns the URI with this text.
fn read_uri(alloc: Global, text: &str) -> Result<Uri, UrlFault>
    ensures { IfOk result (Spells text.now) }
{
    match Uri::from_str(alloc, text) {
        Ok(uri) => Ok(uri),
        Err(UriError::OutOfMemory) => Err(UrlFault::OutOfMemory),
        Err(UriError::Invalid(_)) => Err(UrlFault::NotUrl),
    }
}

/// Returns why requests cannot be sent by this scheme, if they cannot.
fn check_scheme(uri: &Uri) -> Result<(), UrlFault>
    ensures { OnOk result (uri_scheme uri.now ≡ Some (codes "http")) }
{
    match uri.scheme_str() {
        Some("http") => Ok(()),
        Some("https") => Err(UrlFault::NeedsTls),
        Some(_) => Err(UrlFault::OtherScheme),
        None => Err(UrlFault::NotUrl),
    }
}

/// Returns the port that connections go to.
fn port_of(authority: &Authority) -> Result<u16, UrlFault>
    ensures { IfOk result (IsPort authority.now) }
{
    let text = authority.as_str();
    if text.contains('@') {
        return Err(UrlFault::HasUser);
    }
    if authority.host() == text {
        return Ok(HTTP_PORT);
    }
    match authority.port() {
        Some(port) if port.as_u16() > 0 && !port.as_str().starts_with('+') => Ok(port.as_u16()),
        _ => Err(UrlFault::BadPort),
    }
}

/// Returns the field `Host`.
fn host_field(alloc: Global, authority: &Authority) -> Result<HostName, UrlFault>
    ensures { IfOk result (λ h. h ≡ authority.now) }
{
    match HostName::check(String::from_str(alloc, authority.as_str())?) {
        Some(host) => Ok(host),
        None => Err(UrlFault::NotUrl),
    }
}

/// Returns the path as a request has it.
fn escaped(alloc: Global, text: &str) -> Result<String, AllocError>
    ensures { IfOk result (λ t. string_bytes t ≡ in_request text.now) }
{
    let mut path = String::new(alloc);
    if !text.starts_with('/') {
        path.push('/')?;
    }
    percent_encode(text.as_bytes(), ESCAPED).append_to(&mut path)?;
    Ok(path)
}

/// Returns the path, if there is one.
fn path_of(alloc: Global, path: &PathAndQuery) -> Result<Option<RequestPath>, UrlFault>
    ensures { IfOk result (λ p. p ≡ path_of (or_slash path.now)) }
{
    let text = path.as_str();
    if text == "/" {
        return Ok(None);
    }
    match RequestPath::check(escaped(alloc, text)?) {
        Some(path) => Ok(Some(path)),
        None => Err(UrlFault::BadPath),
    }
}

/// Returns the receiver that a URI with the scheme `http` names.
fn receiver_of(alloc: Global, uri: &Uri) -> Result<ReceiverUrl, UrlFault>
    ensures { IfOk result (Names uri.now) }
{
    let (Some(authority), Some(path)) = (uri.authority(), uri.path_and_query()) else {
        return Err(UrlFault::NotUrl);
    };
    Ok(ReceiverUrl {
        host: String::from_str(alloc, authority.host())?,
        port: port_of(authority)?,
        authority: host_field(alloc, authority)?,
        path: path_of(alloc, path)?,
    })
}

/// Reads the URL of a receiver, `http://HOST[:PORT][/PATH][?QUERY]` (RFC 3986, section 3; RFC 9110,
/// section 4.2.1). What a path or a query has and a `RequestPath` does not take is escaped, but for
/// `+`, which means a space to some readers of a query. A fragment is left out, as none is sent.
pub fn read_receiver_url(alloc: Global, text: &str) -> Result<ReceiverUrl, UrlFault>
    ensures { IfOk result (λ r. (uri : Read) × Spells text.now uri
        × (uri_scheme uri ≡ Some (codes "http")) × Names uri r) }
{
    let uri = read_uri(alloc, text)?;
    check_scheme(&uri)?;
    receiver_of(alloc, &uri)
}
