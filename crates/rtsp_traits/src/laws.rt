//! Laws over a set of ports, each the contract of a function that does nothing.

ghost use Rattle.rtsp_admit.specs.Addresses.{ShowsAddresses};
ghost use Rattle.rtsp_traits.specs.Has.{has, RefusalsKeepPorts, AdmissionsGainPorts};
ghost use Rattle.rtsp_traits.specs.PortSet.{calls};

use crate::port_set::PortSet;
use rtsp_admit::{law_admitted_address, law_refused_addresses};
use rtsp_book::Ask;

/// What a set has shows in its calls: a bind adds its ports, which it had not; a failed one changes
/// nothing; an unbind takes its ports away.
pub fn law_ports_show()
    ensures { ShowsAddresses calls has }
{}

/// After an admission that is refused a set has the ports that it had before, each under the same
/// admission.
pub fn law_refused_keeps_ports(ask: &Ask)
    ensures { RefusalsKeepPorts ask.now }
{
    law_ports_show();
    law_refused_addresses::<PortSet>(ask);
}

/// After an admission a set has the ports that it had and the granted ones, less those that the
/// Commit freed.
pub fn law_admitted_gains_ports(ask: &Ask)
    ensures { AdmissionsGainPorts ask.now }
{
    law_ports_show();
    law_admitted_address::<PortSet>(ask);
}
