//! What is printed of a server's figures, for OpenMetrics and for a reader.

use crate::parts::has_lines;
use rtsp_metrics::{
    AnswerCounters, BookFigures, Counters, Counts, Held, Method, Snapshot, metrics_text, page_text,
};
use std::test::Fail;

// Counters that saw a few of each.
fn some_counters() -> Counters {
    let counters = Counters::new();
    counters.accepted();
    counters.turned_away();
    counters.sent(1_234_567, 1);
    counters.sent(3, 7);
    counters.sent(1, 9_999);
    counters.lost(2);
    counters.log_lines_dropped(5);
    counters.expired(4);
    counters.media_failed(3, 1);
    counters
}

// Adds what two lanes have answered, each the same.
fn add_answers(counts: &mut Counts) {
    let lane = AnswerCounters::new();
    lane.answered(Method::of(b"OPTIONS"), 200);
    lane.answered(Method::of(b"SETUP"), 453);
    lane.answered(Method::of(b"SETUP"), 503);
    lane.answered(Method::of(b"RECORD"), 501);
    lane.add_to(counts);
    lane.add_to(counts);
}

// What these counters have, with what two lanes have answered.
fn some_counts() -> Counts {
    let mut counts = some_counters().read();
    add_answers(&mut counts);
    counts
}

/// A server's figures, with three sessions.
pub fn snapshot() -> Snapshot {
    Snapshot {
        uptime_seconds: 61,
        connections: Held { held: 2, free: 98 },
        book: BookFigures {
            sessions: 3,
            rate: Held {
                held: 1_500_000,
                free: 8_500_000,
            },
            pairs: Held { held: 1, free: 7 },
            ports: Held { held: 1, free: 15 },
            entries: 40,
            owed: 9,
            room: 51,
        },
        counts: some_counts(),
    }
}

const FAMILIES: &str = "\
# TYPE rtspd_uptime_seconds gauge
# UNIT rtspd_uptime_seconds seconds
# HELP rtspd_uptime_seconds Since the server began.
rtspd_uptime_seconds 61
..
rtspd_uplink_bytes_per_second{state=\"free\"} 1062500.000
..
rtspd_port_pairs{state=\"held\"} 1
..
rtspd_ports{state=\"free\"} 15
..
rtspd_journal_entries{state=\"owed\"} 9
..
rtspd_requests_total{method=\"OPTIONS\",class=\"2xx\"} 2
..
rtspd_requests_total{method=\"other\",class=\"5xx\"} 2
..
rtspd_refusals_total{reason=\"bandwidth\"} 2
rtspd_refusals_total{reason=\"unavailable\"} 2
..
rtspd_packet_lateness_seconds_bucket{le=\"0.005\"} 1234567
rtspd_packet_lateness_seconds_bucket{le=\"0.01\"} 1234570
..
rtspd_packet_lateness_seconds_bucket{le=\"4.0\"} 1234570
rtspd_packet_lateness_seconds_bucket{le=\"10.0\"} 1234571
rtspd_packet_lateness_seconds_bucket{le=\"+Inf\"} 1234571
rtspd_packet_lateness_seconds_count 1234571
rtspd_packet_lateness_seconds_sum 1244.587
..
rtspd_sessions_expired_total 4
..
rtspd_journal_shortenings_total 0
..
rtspd_media_failures_total 1
..
rtspd_log_lines_dropped_total 5
# EOF
";

const ROWS: &str = "\
<tr><th>Sessions<td><td class=n>3
..
<tr><th>Uplink, bit/s<td><meter max=10000000 value=1500000></meter><td class=n>1,500,000 of 10,000,000
..
<tr><th>Ports<td><meter max=16 value=1></meter><td class=n>1 of 16
..
<tr><th>Within 10 ms<td><meter max=1234571 value=1234570></meter><td class=n>1,234,570 of 1,234,571
..
<tr><th>SETUP<td class=n>0<td class=n>0<td class=n>2<td class=n>2
";

#[test]
fn metrics_text_has_the_figures(rt: HostRuntime) -> Result<(), Fail> {
    let text = metrics_text(rt.alloc(), &snapshot(), b"")?;
    has_lines(&rt, &text, FAMILIES);
    assert!(rt; text.ends_with(b"# EOF\n"));
    Ok(())
}

#[test]
fn page_has_the_same_figures(rt: HostRuntime) -> Result<(), Fail> {
    has_lines(&rt, &page_text(rt.alloc(), &snapshot(), b"")?, ROWS);
    Ok(())
}

// Whether it tells of two files that can't be read, each once.
fn tells_of_files(counters: &Counters) -> bool {
    counters.media_failed(65_535, 65_535);
    let first = [counters.take_media_failure(), counters.take_media_failure()];
    counters.media_failed(0, 0);
    first == [Some((65_535, 65_535)), None] && counters.take_media_failure() == Some((0, 0))
}

#[test]
fn a_file_that_cannot_be_read_is_told_once(rt: HostRuntime) {
    let counters = some_counters();
    assert!(rt; tells_of_files(&counters) && counters.read().media_failures == 3);
}
