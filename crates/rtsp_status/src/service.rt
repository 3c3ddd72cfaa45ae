//! What is answered.

ghost use Rattle.std.specs.Prelude.{◌≡◌, ◌⊎◌, [], IsTrue, OnOk, OnErr, codes};
ghost use Rattle.http.specs.Request.{head_of};
ghost use Rattle.http_header.specs.HeaderMap.{ContainsKey};
ghost use Rattle.rtsp_status.specs.Asking.{MayChange, Changes, Answers, Fills};

use crate::asked::{Asked, Nearness, asked_by};
use crate::server::Source;
use crate::shown::Shown;
use bytes::{BufMut, Bytes};
use http::{Request, StatusCode};
use http_header::{HeaderName, HeaderValue};
use http_server::{Response, Service};
use std::alloc::{AllocError, Global};

/// Answers requests by what is shown, and has the source do what is asked of it.
#[derive(Drop)]
pub struct StatusService<S> {
    pub alloc: Global,
    pub shown: Shown,
    pub source: S,
    /// From where the request comes that is answered next.
    pub nearness: Nearness,
    /// Whether players' addresses are shown to all.
    pub is_open: bool,
}

const PLAIN: &str = "text/plain; charset=utf-8";

const OPEN_METRICS: &str = "application/openmetrics-text; version=1.0.0; charset=utf-8";

const PLAIN_METRICS: &str = "text/plain; version=0.0.4; charset=utf-8";

const HTML: &str = "text/html; charset=utf-8";

const JSON: &str = "application/json";

// Whether the text format is among what is accepted, and OpenMetrics isn't.
fn prefers_plain(accepted: &str) -> bool {
    let mut has_plain = false;
    for kind in accepted.split(',') {
        let kind = kind.trim();
        if kind.starts_with("application/openmetrics-text") {
            return false;
        }
        has_plain = has_plain || kind.starts_with("text/plain");
    }
    has_plain
}

// Whether the older format is asked for, which is for those who say what they accept.
fn wants_plain(request: &Request<Bytes>) -> bool
    ensures { IsTrue result → ContainsKey (head_of request.now).headers (codes "accept") }
{
    match request.headers().get("accept") {
        Some(value) => match value.to_str() {
            Ok(accepted) => prefers_plain(accepted),
            Err(_) => false,
        },
        None => false,
    }
}

// From where a request counts as coming. One that names an origin is a page's, which a browser shows that
// is near: whose page it is isn't known.
fn nearness_of(request: &Request<Bytes>, from: Nearness) -> Nearness
    ensures nearer { result ≡ Nearness.Loopback → from ≡ Nearness.Loopback }
    ensures page { (result ≡ from) ⊎ ContainsKey (head_of request.now).headers (codes "origin") }
{
    if request.headers().contains_key("origin") {
        Nearness::Elsewhere
    } else {
        from
    }
}

// Adds the headers of a text of this kind, which no cache is to keep.
fn describe(response: &mut Response, kind: HeaderValue) -> Result<(), AllocError>
    ensures status { response.new.status ≡ response.old.status }
    ensures body { response.new.body ≡ response.old.body }
{
    let name = HeaderName::from_static("content-type");
    response.add_header(name, kind)?;
    let (name, value) = (
        HeaderName::from_static("cache-control"),
        HeaderValue::from_static("no-store"),
    );
    response.add_header(name, value)
}

// Says that the connection ends behind this response: each has one request.
fn say_close(response: &mut Response) -> Result<(), AllocError>
    ensures status { response.new.status ≡ response.old.status }
    ensures body { response.new.body ≡ response.old.body }
{
    let name = HeaderName::from_static("connection");
    response.add_header(name, HeaderValue::from_static("close"))
}

// Fills an empty response with a text of this kind.
fn write_text(response: &mut Response, kind: HeaderValue, text: &[u8]) -> Result<(), AllocError>
    requires { response.old.body.items ≡ [] }
    ensures status { response.new.status ≡ response.old.status }
    ensures body { OnOk result (response.new.body.items ≡ text.now) }
{
    describe(response, kind)?;
    response.body.put_slice(text)
}

fn write_not_allowed(response: &mut Response) -> Result<(), AllocError>
    ensures status { OnOk result (response.new.status ≡ 405) }
    ensures body { response.new.body ≡ response.old.body }
{
    response.status = StatusCode::METHOD_NOT_ALLOWED;
    let name = HeaderName::from_static("allow");
    response.add_header(name, HeaderValue::from_static("GET, HEAD"))
}

// Says whether the server is ready.
fn write_ready(response: &mut Response, shown: &Shown) -> Result<(), AllocError>
    requires status { response.old.status ≡ 200 }
    requires body { response.old.body.items ≡ [] }
    ensures { OnOk result (Fills shown.now Asked.Ready response.new) }
{
    if shown.is_ready {
        return write_text(response, HeaderValue::from_static(PLAIN), b"ready\n");
    }
    response.status = StatusCode::SERVICE_UNAVAILABLE;
    write_text(response, HeaderValue::from_static(PLAIN), b"not ready\n")
}

// Fills an empty response, but for what the source has to do.
fn fill(response: &mut Response, asked: Asked, shown: &Shown) -> Result<(), AllocError>
    requires status { response.old.status ≡ 200 }
    requires body { response.old.body.items ≡ [] }
    ensures { OnOk result (Fills shown.now asked response.new) }
{
    say_close(response)?;
    match asked {
        Asked::Metrics => {
            write_text(
                response,
                HeaderValue::from_static(OPEN_METRICS),
                &shown.metrics,
            )
        }
        Asked::Plain => write_text(
            response,
            HeaderValue::from_static(PLAIN_METRICS),
            &shown.plain,
        ),
        Asked::Page => write_text(response, HeaderValue::from_static(HTML), &shown.page),
        Asked::Health => write_text(response, HeaderValue::from_static(PLAIN), b"ok\n"),
        Asked::Ready => write_ready(response, shown),
        Asked::Agent => write_text(response, HeaderValue::from_static(PLAIN), &shown.agent),
        Asked::Sessions => describe(response, HeaderValue::from_static(JSON)),
        Asked::Drain | Asked::End(_) => Ok(()),
        Asked::Hidden | Asked::Forbidden => {
            response.status = StatusCode::FORBIDDEN;
            Ok(())
        }
        Asked::NoSession | Asked::Nothing => {
            response.status = StatusCode::NOT_FOUND;
            Ok(())
        }
        Asked::NotAllowed => write_not_allowed(response),
    }
}

impl<S: Source> StatusService<S> {
    /// Shows nothing yet.
    pub fn new(alloc: Global, source: S) -> StatusService<S> {
        StatusService {
            alloc,
            shown: Shown::nothing(alloc),
            source,
            nearness: Nearness::Elsewhere,
            is_open: false,
        }
    }

    /// Shows what there is now, where there is memory for it, and to whom it is shown by now.
    pub fn look(&mut self) {
        self.is_open = self.source.is_open();
        let snapshot = self.source.snapshot();
        let standing = self.source.standing();
        if let Ok(further) = self.source.further(self.alloc)
            && let Ok(fresh) = Shown::of(self.alloc, &snapshot, &further, standing)
        {
            self.shown = fresh;
        }
    }

    /// Has the source note how it stands.
    pub fn note(&mut self) {
        self.source.note();
    }

    // Has the source do what is asked of it, once the response is filled. A refusal does nothing.
    fn act(&mut self, asked: Asked, response: &mut Response) -> Result<(), AllocError>
        requires { Fills self.old.shown asked response.old }
        ensures shown { self.new.shown ≡ self.old.shown }
        ensures same { ¬ Changes asked → self.new ≡ self.old }
        ensures filled { OnOk result (Fills self.old.shown asked response.new) }
        ensures err { OnErr result (self.new ≡ self.old) }
    {
        match asked {
            Asked::Sessions => {
                let text = self.source.sessions(self.alloc)?;
                response.body.put_slice(&text)?;
            }
            Asked::Drain => self.source.drain(),
            Asked::End(session) => {
                if !self.source.end(session) {
                    response.status = StatusCode::NOT_FOUND;
                }
            }
            _ => {}
        }
        Ok(())
    }
}

impl<S: Source> Service for StatusService<S> {
    ghost answers = { λ old request response new.
        Answers old.shown old.nearness old.is_open (head_of request) response
        × (new.shown ≡ old.shown) × (¬ MayChange (head_of request).method old.nearness → new ≡ old) };

    fn call(
        &mut self,
        request: &Request<Bytes>,
        response: &mut Response,
    ) -> Result<(), AllocError> {
        let (method, path) = (request.method().as_str(), request.uri().path());
        let nearness = nearness_of(request, self.nearness);
        let is_plain = wants_plain(request);
        let asked = asked_by(method, path, nearness, self.is_open, is_plain);
        fill(response, asked, &self.shown)?;
        self.act(asked, response)
    }
}
