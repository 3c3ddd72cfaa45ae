//! Writing the figures of a server, family by family. After a refusal a part of the text may be at
//! the end.

ghost use Rattle.std.specs.Prelude.{◌≡◌, ◌++◌, IfOk, OnOk};
ghost use Rattle.rtsp_metrics.specs.Families.{family_text, families_text};
ghost use Rattle.rtsp_metrics.specs.Figures.{server_families, book_families, traffic_families, answer_families, keeping_families};
ghost use Rattle.rtsp_metrics.specs.Figures.{journal_family, uplink_family, requests_family, refusals_family, lateness_family, families, metrics_text};

use crate::families::{Figure, write_counter, write_family, write_gauge, write_held};
use crate::snapshot::{BookFigures, ByMethod, Counts, Held, Lateness, Refusals, Snapshot};
use std::alloc::{AllocError, Global};

fn write_server(out: &mut Vec<u8>, of: &Snapshot) -> Result<(), AllocError>
    ensures { OnOk result (out.new.items ≡ out.old.items ++ families_text (server_families of.now)) }
{
    write_gauge(
        out,
        b"rtspd_uptime_seconds",
        Some(b"seconds"),
        b"Since the server began.",
        of.uptime_seconds,
    )?;
    write_held(
        out,
        b"rtspd_connections",
        None,
        b"Connections that are open, and that may be.",
        &of.connections,
    )
}

#[tactic(auto, unfolding(crate::specs::Figures::journal_family))]
fn write_journal(out: &mut Vec<u8>, of: &BookFigures) -> Result<(), AllocError>
    ensures { OnOk result (out.new.items ≡ out.old.items ++ family_text (journal_family of.now)) }
{
    let help = b"Entries of the journal: written, owed to what is held, and free.";
    let figures = [
        Figure::Count(b"{state=\"written\"}", of.entries),
        Figure::Count(b"{state=\"owed\"}", of.owed),
        Figure::Count(b"{state=\"free\"}", of.room),
    ];
    write_family(
        out,
        b"rtspd_journal_entries",
        b"gauge",
        None,
        help,
        &figures,
    )
}

// The uplink, whose bits are told in bytes, as figures of Prometheus are.
#[tactic(auto, unfolding(crate::specs::Figures::uplink_family))]
fn write_uplink(out: &mut Vec<u8>, of: &Held) -> Result<(), AllocError>
    ensures { OnOk result (out.new.items ≡ out.old.items ++ family_text (uplink_family of.now)) }
{
    let help = b"The uplink, as sessions hold it.";
    let figures = [
        Figure::Eighths(b"{state=\"held\"}", of.held),
        Figure::Eighths(b"{state=\"free\"}", of.free),
    ];
    write_family(
        out,
        b"rtspd_uplink_bytes_per_second",
        b"gauge",
        Some(b"bytes_per_second"),
        help,
        &figures,
    )
}

fn write_book(out: &mut Vec<u8>, of: &BookFigures) -> Result<(), AllocError>
    ensures { OnOk result (out.new.items ≡ out.old.items ++ families_text (book_families of.now)) }
{
    write_gauge(
        out,
        b"rtspd_sessions",
        None,
        b"Sessions that live.",
        of.sessions,
    )?;
    write_uplink(out, &of.rate)?;
    let pairs = b"Pairs of UDP ports: free where both ports are.";
    write_held(out, b"rtspd_port_pairs", None, pairs, &of.pairs)?;
    let ports = b"UDP ports, as sessions hold them.";
    write_held(out, b"rtspd_ports", None, ports, &of.ports)?;
    write_journal(out, of)
}

fn write_requests(out: &mut Vec<u8>, of: &ByMethod) -> Result<(), AllocError>
    ensures { OnOk result (out.new.items ≡ out.old.items ++ family_text (requests_family of.now)) }
{
    let help = b"Requests that were answered.";
    let figures = [
        Figure::Answers(b"OPTIONS", of.options),
        Figure::Answers(b"DESCRIBE", of.describe),
        Figure::Answers(b"SETUP", of.setup),
        Figure::Answers(b"PLAY", of.play),
        Figure::Answers(b"PAUSE", of.pause),
        Figure::Answers(b"TEARDOWN", of.teardown),
        Figure::Answers(b"GET_PARAMETER", of.get_parameter),
        Figure::Answers(b"SET_PARAMETER", of.set_parameter),
        Figure::Answers(b"other", of.other),
    ];
    write_family(out, b"rtspd_requests", b"counter", None, help, &figures)
}

#[tactic(auto, unfolding(crate::specs::Figures::refusals_family))]
fn write_refusals(out: &mut Vec<u8>, of: &Refusals) -> Result<(), AllocError>
    ensures { OnOk result (out.new.items ≡ out.old.items ++ family_text (refusals_family of.now)) }
{
    let help = b"Requests that were refused.";
    let figures = [
        Figure::Count(b"_total{reason=\"bandwidth\"}", of.bandwidth),
        Figure::Count(b"_total{reason=\"unavailable\"}", of.unavailable),
        Figure::Count(b"_total{reason=\"session\"}", of.session),
        Figure::Count(b"_total{reason=\"path\"}", of.path),
        Figure::Count(b"_total{reason=\"state\"}", of.state),
        Figure::Count(b"_total{reason=\"transport\"}", of.transport),
        Figure::Count(b"_total{reason=\"credentials\"}", of.credentials),
        Figure::Count(b"_total{reason=\"other\"}", of.other),
    ];
    write_family(out, b"rtspd_refusals", b"counter", None, help, &figures)
}

fn write_lateness(out: &mut Vec<u8>, of: &Lateness) -> Result<(), AllocError>
    ensures { OnOk result (out.new.items ≡ out.old.items ++ family_text (lateness_family of.now)) }
{
    let one = u128::from(of.within_1_ms);
    let two = one + u128::from(of.within_2_ms);
    let five = two + u128::from(of.within_5_ms);
    let ten = five + u128::from(of.within_10_ms);
    let twenty = ten + u128::from(of.within_20_ms);
    let forty = twenty + u128::from(of.within_40_ms);
    let hundred = forty + u128::from(of.within_100_ms);
    let four_hundred = hundred + u128::from(of.within_400_ms);
    let second = four_hundred + u128::from(of.within_1_s);
    let four_seconds = second + u128::from(of.within_4_s);
    let ten_seconds = four_seconds + u128::from(of.within_10_s);
    let all = ten_seconds + u128::from(of.later);
    let help = b"How late RTP packets were sent.";
    let figures = [
        Figure::Sum(b"_bucket{le=\"0.001\"}", one),
        Figure::Sum(b"_bucket{le=\"0.002\"}", two),
        Figure::Sum(b"_bucket{le=\"0.005\"}", five),
        Figure::Sum(b"_bucket{le=\"0.01\"}", ten),
        Figure::Sum(b"_bucket{le=\"0.02\"}", twenty),
        Figure::Sum(b"_bucket{le=\"0.04\"}", forty),
        Figure::Sum(b"_bucket{le=\"0.1\"}", hundred),
        Figure::Sum(b"_bucket{le=\"0.4\"}", four_hundred),
        Figure::Sum(b"_bucket{le=\"1.0\"}", second),
        Figure::Sum(b"_bucket{le=\"4.0\"}", four_seconds),
        Figure::Sum(b"_bucket{le=\"10.0\"}", ten_seconds),
        Figure::Sum(b"_bucket{le=\"+Inf\"}", all),
        Figure::Sum(b"_count", all),
        Figure::Seconds(b"_sum", of.sum_ms),
    ];
    let name = b"rtspd_packet_lateness_seconds";
    write_family(out, name, b"histogram", Some(b"seconds"), help, &figures)
}

fn write_traffic(out: &mut Vec<u8>, of: &Counts) -> Result<(), AllocError>
    ensures { OnOk result (out.new.items ≡ out.old.items ++ families_text (traffic_families of.now)) }
{
    let accepted = b"Connections that were let in.";
    let refused = b"Connections that were closed at once.";
    let headers = b"Connections of balancers whose header was refused.";
    let sent = b"RTP packets that were sent.";
    let lost = b"RTP packets that could not be sent.";
    let connections = &of.connections;
    write_counter(
        out,
        b"rtspd_connections_accepted",
        accepted,
        connections.accepted,
    )?;
    write_counter(
        out,
        b"rtspd_connections_refused",
        refused,
        connections.refused,
    )?;
    write_counter(
        out,
        b"rtspd_headers_refused",
        headers,
        connections.headers_refused,
    )?;
    write_counter(out, b"rtspd_packets_sent", sent, of.packets.sent)?;
    write_counter(out, b"rtspd_packets_lost", lost, of.packets.lost)
}

fn write_answers(out: &mut Vec<u8>, of: &Counts) -> Result<(), AllocError>
    ensures { OnOk result (out.new.items ≡ out.old.items ++ families_text (answer_families of.now)) }
{
    write_requests(out, &of.requests)?;
    write_refusals(out, &of.refusals)?;
    write_lateness(out, &of.lateness)
}

fn write_keeping(out: &mut Vec<u8>, of: &Counts) -> Result<(), AllocError>
    ensures { OnOk result (out.new.items ≡ out.old.items ++ families_text (keeping_families of.now)) }
{
    let expired = b"Sessions that ended since nothing renewed them.";
    let shortened = b"Times that entries left the journal: of ended sessions, or by a checkpoint.";
    let media = b"Times that the file of a track could not be read.";
    let dropped = b"Lines of the log for which there was no room.";
    write_counter(out, b"rtspd_sessions_expired", expired, of.expired)?;
    write_counter(out, b"rtspd_journal_shortenings", shortened, of.shortenings)?;
    write_counter(out, b"rtspd_media_failures", media, of.media_failures)?;
    write_counter(
        out,
        b"rtspd_log_lines_dropped",
        dropped,
        of.log_lines_dropped,
    )
}

fn write_families(out: &mut Vec<u8>, of: &Snapshot) -> Result<(), AllocError>
    ensures { OnOk result (out.new.items ≡ out.old.items ++ families_text (families of.now)) }
{
    write_server(out, of)?;
    write_book(out, &of.book)?;
    write_traffic(out, &of.counts)?;
    write_answers(out, &of.counts)?;
    write_keeping(out, &of.counts)
}

/// The figures as OpenMetrics 1.0 has them, with the lines of further families before the end.
#[tactic(auto, using(crate::proofs::Appended::behind), unfolding(crate::specs::Figures::metrics_text))]
pub fn metrics_text(alloc: Global, of: &Snapshot, further: &[u8]) -> Result<Vec<u8>, AllocError>
    ensures { IfOk result (λ text. text.items ≡ metrics_text of.now further.now) }
{
    let mut text = Vec::new(alloc);
    write_families(&mut text, of)?;
    text.extend_from_slice(further)?;
    text.extend_from_slice(b"# EOF\n")?;
    Ok(text)
}
