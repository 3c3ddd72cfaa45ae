//! How many connections there are descriptors for.

ghost use Rattle.std.specs.Prelude.{◌≡◌, ◌*◌, ◌-◌, min};
ghost use Rattle.rtsp_threads.specs.declared.limits.TheConstants.{CONNECTIONS};

use crate::limits::CONNECTIONS;
use libc::types::rlimit;

/// How many descriptors the process may have open at once, where the system tells.
pub fn descriptor_limit() -> Option<u64> {
    let mut limit = rlimit {
        rlim_cur: 0,
        rlim_max: 0,
    };
    if libc::getrlimit(libc::RLIMIT_NOFILE, &mut limit) == 0 {
        Some(limit.rlim_cur)
    } else {
        None
    }
}

/// How many connections there are descriptors for, of `limit` in all. `kept` of these are open already
/// or kept for something else, and two are kept for each pair of ports.
pub fn connections_for(limit: u64, kept: u64, pairs: u16) -> u64
    ensures { result ≡ min (limit - kept - 2 * pairs) CONNECTIONS }
{
    let left = limit.saturating_sub(kept);
    left.saturating_sub(2 * u64::from(pairs)).min(CONNECTIONS)
}
