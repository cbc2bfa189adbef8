//! The replies to requests for pages.

ghost use Rattle.std.specs.Prelude.{◌≡◌, IfOk};
ghost use Rattle.rw_metrics_server.specs.Reply.{reply};

use crate::asked::Asked;
use rw_metrics::PageSource;
use rw_text::push_number;
use rw_types::{Sink, write_all};
use std::alloc::{AllocError, AllocGlobal, Global};
use std::fs::Files;

/// The type of the contents of the page for Prometheus.
const TEXT: &str = "text/plain; version=0.0.4";

/// The type of the contents of the page for people.
const HTML: &str = "text/html; charset=utf-8";

const HEALTHY: &[u8] =
    b"HTTP/1.1 200 OK\r\nContent-Type: text/plain; charset=utf-8\r\nConnection: close\r\nContent-Length: 19\r\n\r\nrwship is healthy.\n";

const READY: &[u8] =
    b"HTTP/1.1 200 OK\r\nContent-Type: text/plain; charset=utf-8\r\nConnection: close\r\nContent-Length: 17\r\n\r\nrwship is ready.\n";

const NOT_READY: &[u8] =
    b"HTTP/1.1 503 Service Unavailable\r\nContent-Type: text/plain; charset=utf-8\r\nConnection: close\r\nContent-Length: 36\r\n\r\nrwship reads the log of its folder.\n";

const NOT_FOUND: &[u8] =
    b"HTTP/1.1 404 Not Found\r\nConnection: close\r\nContent-Length: 0\r\n\r\n";

const NOT_ALLOWED: &[u8] =
    b"HTTP/1.1 405 Method Not Allowed\r\nAllow: GET\r\nConnection: close\r\nContent-Length: 0\r\n\r\n";

const BAD: &[u8] = b"HTTP/1.1 400 Bad Request\r\nConnection: close\r\nContent-Length: 0\r\n\r\n";

/// Returns the reply that carries this page, with the type of its contents.
pub(crate) fn reply_of(alloc: Global, kind: &str, page: &[u8]) -> Result<Vec<u8>, AllocError>
    ensures { IfOk result (λ text. text.items ≡ reply kind.now page.now) }
{
    let mut out = Vec::new(alloc);
    out.extend_from_slice("HTTP/1.1 200 OK\r\nContent-Type: ".as_bytes())?;
    out.extend_from_slice(kind.as_bytes())?;
    out.extend_from_slice("\r\nConnection: close\r\nContent-Length: ".as_bytes())?;
    push_number(&mut out, page.len() as u64)?;
    out.extend_from_slice("\r\n\r\n".as_bytes())?;
    out.extend_from_slice(page)?;
    Ok(out)
}

/// Writes the page for Prometheus, or nothing if memory runs out.
fn write_page<W: Sink, R: Files + AllocGlobal + Copy>(
    alloc: Global,
    writer: &mut W,
    source: &PageSource<R>,
) -> Result<(), AllocError> {
    let page = source.page(alloc)?;
    let reply = reply_of(alloc, TEXT, &page)?;
    let _ = write_all(writer, &reply);
    Ok(())
}

/// Writes the page for people, or nothing if memory runs out.
fn write_html<W: Sink, R: Files + AllocGlobal + Copy>(
    alloc: Global,
    writer: &mut W,
    source: &PageSource<R>,
) -> Result<(), AllocError> {
    let page = source.html(alloc)?;
    let reply = reply_of(alloc, HTML, &page)?;
    let _ = write_all(writer, &reply);
    Ok(())
}

/// Writes the reply to what was asked for.
pub(crate) fn write_reply<W: Sink, R: Files + AllocGlobal + Copy>(
    alloc: Global,
    writer: &mut W,
    asked: Asked,
    source: &PageSource<R>,
) {
    let reply = match asked {
        Asked::More => return,
        Asked::Page => {
            let _ = write_page(alloc, writer, source);
            return;
        }
        Asked::Html => {
            let _ = write_html(alloc, writer, source);
            return;
        }
        Asked::Healthy => HEALTHY,
        Asked::Ready if source.is_ready() => READY,
        Asked::Ready => NOT_READY,
        Asked::Elsewhere => NOT_FOUND,
        Asked::Otherwise => NOT_ALLOWED,
        Asked::Bad => BAD,
    };
    let _ = write_all(writer, reply);
}
