//! The page that shows the figures. It loads nothing and has no script: the browser asks anew every
//! two seconds.

ghost use Rattle.std.specs.Prelude.{◌≡◌, ◌+◌, IfOk, codes};
ghost use Rattle.rtsp_metrics.specs.Page.{section_text, page_text};
ghost use Rattle.rtsp_metrics.specs.Page.{server_rows, request_rows, refusal_rows, lateness_rows, count_rows};

use crate::rows::{Row, section};
use crate::snapshot::{BookFigures, ByMethod, Counts, Lateness, Refusals, Snapshot};
use rtsp_text::append_all;
use std::alloc::{AllocError, Global};

/// How each page begins: what a browser needs to lay it out.
pub const PAGE_HEAD: &[u8] = b"<!doctype html><html lang=en><meta charset=utf-8>\
<meta http-equiv=refresh content=2><meta name=viewport content=\"width=device-width\">\
<title>rtspd</title><style>:root{color-scheme:light dark}\
body{font:16px/1.5 system-ui,sans-serif;max-width:48rem;margin:2rem auto;padding:0 1rem}\
h1{font-size:1.4rem}h2{font-size:1rem;margin:1.6rem 0 .4rem}\
table{border-collapse:collapse;width:100%}\
th,td{padding:.1rem .6rem .1rem 0;text-align:left;font-weight:400}th{width:30%}\
td.n{text-align:right;font-variant-numeric:tabular-nums}\
figure{margin:.6rem 0}svg{width:100%;height:4rem;border-bottom:1px solid}\
polyline{fill:none;stroke:currentColor;stroke-width:2;vector-effect:non-scaling-stroke}meter{width:100%;min-width:16rem;height:1.1rem}\
@media(max-width:30rem){body{margin:1rem auto;font-size:14px}th,td{padding-right:.3rem}meter{min-width:3rem}}\
</style><h1>rtspd</h1>\n";

const END: &[u8] = b"<p>The same as text: <a href=\"/metrics\">/metrics</a>\n</html>\n";

// What the journal takes.
fn journal(of: &BookFigures) -> u128
    ensures { result ≡ of.now.entries + of.now.owed + of.now.room }
{
    u128::from(of.entries) + u128::from(of.owed) + u128::from(of.room)
}

fn server_section(alloc: Global, of: &Snapshot) -> Result<Vec<u8>, AllocError>
    ensures { IfOk result (λ text. text.items ≡ section_text (codes "Now") (server_rows of.now)) }
{
    let book = &of.book;
    section(
        alloc,
        b"Now",
        &[
            Row::Number(b"Seconds since it began", of.uptime_seconds),
            Row::Number(b"Sessions", book.sessions),
            Row::Held(b"Uplink, bit/s", book.rate),
            Row::Held(b"Pairs of ports", book.pairs),
            Row::Held(b"Ports", book.ports),
            Row::Bar(b"Journal, used", u128::from(book.entries), journal(book)),
            Row::Bar(
                b"Journal, kept for ends",
                u128::from(book.owed),
                journal(book),
            ),
            Row::Held(b"Connections", of.connections),
        ],
    )
}

fn request_section(alloc: Global, of: &ByMethod) -> Result<Vec<u8>, AllocError>
    ensures { IfOk result (λ text. text.items ≡ section_text (codes "Answers") (request_rows of.now)) }
{
    section(
        alloc,
        b"Answers",
        &[
            Row::Heads(b"<tr><th><td class=n>2xx<td class=n>3xx<td class=n>4xx<td class=n>5xx\n"),
            Row::Answers(b"OPTIONS", of.options),
            Row::Answers(b"DESCRIBE", of.describe),
            Row::Answers(b"SETUP", of.setup),
            Row::Answers(b"PLAY", of.play),
            Row::Answers(b"PAUSE", of.pause),
            Row::Answers(b"TEARDOWN", of.teardown),
            Row::Answers(b"GET_PARAMETER", of.get_parameter),
            Row::Answers(b"SET_PARAMETER", of.set_parameter),
            Row::Answers(b"other", of.other),
        ],
    )
}

fn refusal_section(alloc: Global, of: &Refusals) -> Result<Vec<u8>, AllocError>
    ensures { IfOk result (λ text. text.items ≡ section_text (codes "Refused") (refusal_rows of.now)) }
{
    section(
        alloc,
        b"Refused",
        &[
            Row::Number(b"Bandwidth (453)", of.bandwidth),
            Row::Number(b"Unavailable (503)", of.unavailable),
            Row::Number(b"No such session (454)", of.session),
            Row::Number(b"No such path (404)", of.path),
            Row::Number(b"Not in this state (455)", of.state),
            Row::Number(b"Transport (461)", of.transport),
            Row::Number(b"Credentials (401)", of.credentials),
            Row::Number(b"Other", of.other),
        ],
    )
}

fn lateness_section(alloc: Global, of: &Lateness) -> Result<Vec<u8>, AllocError>
    ensures { IfOk result (λ text. text.items ≡ section_text (codes "How late packets were sent") (lateness_rows of.now)) }
{
    let one = u128::from(of.within_1_ms);
    let two = one + u128::from(of.within_2_ms);
    let five = two + u128::from(of.within_5_ms);
    let ten = five + u128::from(of.within_10_ms);
    let twenty = ten + u128::from(of.within_20_ms);
    let forty = twenty + u128::from(of.within_40_ms);
    let hundred = forty + u128::from(of.within_100_ms);
    let four_hundred = hundred + u128::from(of.within_400_ms);
    let second = four_hundred + u128::from(of.within_1_s);
    let four_seconds = second + u128::from(of.within_4_s);
    let ten_seconds = four_seconds + u128::from(of.within_10_s);
    let all = ten_seconds + u128::from(of.later);
    section(
        alloc,
        b"How late packets were sent",
        &[
            Row::Bar(b"Within 1 ms", one, all),
            Row::Bar(b"Within 2 ms", two, all),
            Row::Bar(b"Within 5 ms", five, all),
            Row::Bar(b"Within 10 ms", ten, all),
            Row::Bar(b"Within 20 ms", twenty, all),
            Row::Bar(b"Within 40 ms", forty, all),
            Row::Bar(b"Within 100 ms", hundred, all),
            Row::Bar(b"Within 400 ms", four_hundred, all),
            Row::Bar(b"Within 1 s", second, all),
            Row::Bar(b"Within 4 s", four_seconds, all),
            Row::Bar(b"Within 10 s", ten_seconds, all),
        ],
    )
}

fn count_section(alloc: Global, of: &Counts) -> Result<Vec<u8>, AllocError>
    ensures { IfOk result (λ text. text.items ≡ section_text (codes "Since it began") (count_rows of.now)) }
{
    section(
        alloc,
        b"Since it began",
        &[
            Row::Number(b"Packets sent", of.packets.sent),
            Row::Number(b"Packets lost", of.packets.lost),
            Row::Number(b"Connections let in", of.connections.accepted),
            Row::Number(b"Connections closed at once", of.connections.refused),
            Row::Number(b"Headers refused", of.connections.headers_refused),
            Row::Number(b"Reads of films that failed", of.media_failures),
            Row::Number(b"Sessions expired", of.expired),
            Row::Number(b"Journal shortened", of.shortenings),
            Row::Number(b"Log lines dropped", of.log_lines_dropped),
        ],
    )
}

// The figures behind what every page begins with.
fn page_with(
    alloc: Global,
    head: &[u8],
    of: &Snapshot,
    further: &[u8],
) -> Result<Vec<u8>, AllocError>
    ensures { IfOk result (λ text. text.items ≡ page_text head.now of.now further.now) }
{
    let server = server_section(alloc, of)?;
    let requests = request_section(alloc, &of.counts.requests)?;
    let refusals = refusal_section(alloc, &of.counts.refusals)?;
    let lateness = lateness_section(alloc, &of.counts.lateness)?;
    let counts = count_section(alloc, &of.counts)?;
    let mut text = Vec::new(alloc);
    append_all(
        &mut text,
        &[
            head, &server, further, &requests, &refusals, &lateness, &counts, END,
        ],
    )?;
    Ok(text)
}

/// The figures as a page for a browser, with a further section: one file, which loads nothing.
pub fn page_text(alloc: Global, of: &Snapshot, further: &[u8]) -> Result<Vec<u8>, AllocError>
    ensures { IfOk result (λ text. text.items ≡ page_text PAGE_HEAD.now of.now further.now) }
{
    page_with(alloc, PAGE_HEAD, of, further)
}
