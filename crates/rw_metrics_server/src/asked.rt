//! What a request asks for.

ghost use Rattle.std.specs.Prelude.{◌≡◌, codes};
ghost use Rattle.rw_metrics_server.specs.Asking.{Asks, AsksForHtml, AsksForPage};
ghost use Rattle.rw_metrics_server.specs.declared.asked.Asked.TheVariants as Asked;

use httparse::Status;
use httparse::spans::{EMPTY_HEADER_SPAN, parse_request};

/// How many header lines a request may have.
const MOST_HEADERS: usize = 32;

/// What the first bytes of a connection ask for.
#[derive(Clone, Copy, Debug, PartialEq, Eq)]
pub(crate) enum Asked {
    /// The page for Prometheus.
    Page,
    /// The page for people.
    Html,
    /// Whether the program runs.
    Healthy,
    /// Whether the program does what it is for.
    Ready,
    /// Another path.
    Elsewhere,
    /// A page, by a method other than GET.
    Otherwise,
    /// They are not the start of a request.
    Bad,
    /// The head has not come completely.
    More,
}

/// Returns what these bytes ask for.
pub(crate) fn wanted(buf: &[u8]) -> Asked
    ensures page { result ≡ Asked.Page → AsksForPage buf.now }
    ensures html { result ≡ Asked.Html → AsksForHtml buf.now }
    ensures healthy { result ≡ Asked.Healthy → Asks buf.now (codes "GET") (codes "/-/healthy") }
    ensures ready { result ≡ Asked.Ready → Asks buf.now (codes "GET") (codes "/-/ready") }
{
    let mut headers = [EMPTY_HEADER_SPAN; MOST_HEADERS];
    match parse_request(buf, &mut headers) {
        Ok(Status::Complete(head)) => {
            let path = head.path.of(buf);
            let is_get = head.method.of(buf) == b"GET".as_slice();
            let asked = if path == b"/metrics".as_slice() {
                Asked::Page
            } else if path == b"/".as_slice() {
                Asked::Html
            } else if path == b"/-/healthy".as_slice() {
                Asked::Healthy
            } else if path == b"/-/ready".as_slice() {
                Asked::Ready
            } else {
                return Asked::Elsewhere;
            };
            if is_get { asked } else { Asked::Otherwise }
        }
        Ok(Status::Partial) => Asked::More,
        Err(_) => Asked::Bad,
    }
}
