//! The numbers of the server.

ghost use Rattle.std.specs.Prelude.{◌≡◌, ◌≤◌, ◌<◌, ◌^◌, IfOk, IfSome};
ghost use Rattle.toml.specs.Data.{get_member};
ghost use Rattle.toml.specs.View.{view, table_view};
ghost use Rattle.rtsp_content.specs.Keys as keys;
ghost use Rattle.rtsp_content.specs.Server.{as_players, players_in, server_of, IsWithinLimits};

use crate::fault::{TableFault, must};
use crate::keys::{number_at, number_at_or, optional_number_at, value_at};
use crate::limits::{
    DEFAULT_RENEWAL_STEP, DEFAULT_TIMEOUT, DEFAULT_WORKERS, GREATEST_PORT, LEAST_PORT,
    MAX_CONNECTIONS, MAX_JOURNAL, MAX_PAIRS, MAX_SESSIONS, MAX_TIMEOUT, MAX_UPLINK, MAX_WORKERS,
};
use toml::{Table, Value};

/// The players that the server is to understand.
#[derive(Clone, Copy, PartialEq, Eq)]
pub enum Players {
    /// Those that write what RFC 7826 says.
    Strict,

    /// GStreamer's too, as it is.
    Gstreamer,
}

/// The numbers of the server, and its players.
#[derive(Clone, Copy, PartialEq, Eq)]
pub struct Server {
    /// The first of the UDP ports that are given out in pairs. It is even.
    pub first_port: u16,

    /// How many pairs of ports there are.
    pub pairs: u16,

    /// The bits per second that all streams together may take.
    pub uplink: u64,

    /// How many sessions there may be at once.
    pub sessions: u16,

    /// The seconds that a session lives without a request.
    pub timeout: u32,

    /// A request moves the end of its session only where that makes it later by so many
    /// milliseconds at least. From 1, with which each request moves it, to less than the timeout.
    pub renewal_step: u32,

    /// How many entries the journal may have, counting the returns that they owe.
    pub journal: u32,

    /// How many threads serve connections.
    pub workers: u8,

    /// How many sessions of one address there may be at once, where that is less than all.
    pub sessions_per_address: Option<u16>,

    /// How many connections of one address may be open at once.
    pub connections_per_address: Option<u16>,

    /// Whose requests it understands.
    pub players: Players,
}

// What one address may have, of so much, if the key is there.
fn share_at(table: &Table, key: &str, most: u64) -> Result<Option<u16>, TableFault>
    requires { most < 2 ^ 16 }
    ensures value { result ≡ keys.optional_number_at key.now 1 most (table_view table.now) }
    ensures range { IfOk result (λ o. IfSome o (λ n. (1 ≤ n) × (n ≤ most))) }
{
    match optional_number_at(table, key, 1, most)? {
        Some(share) => Ok(Some(share as u16)),
        None => Ok(None),
    }
}

fn players_named(value: &Value) -> Result<Players, TableFault>
    ensures { result ≡ as_players (view value.now) }
{
    let Some(word) = value.as_str() else {
        return Err(TableFault::BadValue);
    };
    if word == "strict" {
        Ok(Players::Strict)
    } else if word == "gstreamer" {
        Ok(Players::Gstreamer)
    } else {
        Err(TableFault::BadValue)
    }
}

fn players_at(table: &Table, key: &str) -> Result<Players, TableFault>
    ensures { result ≡ players_in (get_member key.now (table_view table.now)) }
{
    match value_at(table, key) {
        Some(value) => players_named(value),
        None => Ok(Players::Strict),
    }
}

/// Reads the table `[server]`.
pub(crate) fn read_server(table: &Table) -> Result<Server, TableFault>
    ensures value { result ≡ server_of (table_view table.now) }
    ensures limits { IfOk result IsWithinLimits }
{
    let first_port = number_at(table, "first_port", LEAST_PORT, GREATEST_PORT)?;
    must(first_port % 2 == 0, TableFault::BadValue)?;
    let pairs = number_at(table, "pairs", 0, MAX_PAIRS)?;
    must(
        first_port + 2 * pairs <= GREATEST_PORT + 1,
        TableFault::BadValue,
    )?;
    let uplink = number_at(table, "uplink", 0, MAX_UPLINK)?;
    let sessions = number_at(table, "sessions", 1, MAX_SESSIONS)?;
    let timeout = number_at_or(table, "timeout", 1, MAX_TIMEOUT, DEFAULT_TIMEOUT)?;
    let most_step = timeout * 1000 - 1;
    let renewal_step = number_at_or(table, "renewal_step", 1, most_step, DEFAULT_RENEWAL_STEP)?;
    let journal = number_at_or(table, "journal", 1, MAX_JOURNAL, MAX_JOURNAL)?;
    let workers = number_at_or(table, "workers", 1, MAX_WORKERS, DEFAULT_WORKERS)?;
    let sessions_per_address = share_at(table, "sessions_per_address", sessions)?;
    let connections_per_address = share_at(table, "connections_per_address", MAX_CONNECTIONS)?;
    let players = players_at(table, "players")?;
    Ok(Server {
        first_port: first_port as u16,
        pairs: pairs as u16,
        uplink,
        sessions: sessions as u16,
        timeout: timeout as u32,
        renewal_step: renewal_step as u32,
        journal: journal as u32,
        workers: workers as u8,
        sessions_per_address,
        connections_per_address,
        players,
    })
}
