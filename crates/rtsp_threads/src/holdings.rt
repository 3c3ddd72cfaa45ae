//! What a book is opened over.

ghost use Rattle.std.specs.Prelude.{◌≡◌};
ghost use Rattle.rtsp_record.specs.Choices.{HasPorts};

use rtsp_content::Table;
use rtsp_record::Whole;

/// What there is to hold by a configuration.
pub fn whole_of(table: &Table) -> Whole
    ensures ports { HasPorts result }
    ensures pairs { (result.first_port ≡ table.now.server.first_port) × (result.pairs ≡ table.now.server.pairs) }
    ensures limits { (result.uplink ≡ table.now.server.uplink) × (result.sessions ≡ table.now.server.sessions) }
    ensures journal { result.journal ≡ table.now.server.journal }
{
    let server = table.server();
    Whole {
        first_port: server.first_port,
        pairs: server.pairs,
        uplink: server.uplink,
        sessions: server.sessions,
        journal: server.journal,
    }
}
