//! Laws over repairs, each the contract of a function that does nothing.

ghost use Rattle.rtsp_dialect.specs.Laws.{RepairsToItself, RepairedIsWithin, RestStays, SaysTheSame};

/// A request within RFC 7826 is repaired to itself.
#[tactic(auto, using(crate::proofs::Lawful::repairs_to_itself))]
pub fn law_repairs_to_itself()
    ensures { RepairsToItself }
{}

/// A request with a number of at most ten digits, and with `client_port` over UDP alone, once in a
/// specification and beside no address, is within RFC 7826 once it is repaired.
#[tactic(auto, using(crate::proofs::Lawful::repaired_is_within))]
pub fn law_repaired_is_within()
    ensures { RepairedIsWithin }
{}

/// The method, the URI, the version, the body, the names of all headers and the values of all but
/// Pipelined-Requests and Transport stay, in their order.
#[tactic(auto, using(crate::proofs::Lawful::rest_stays))]
pub fn law_rest_stays()
    ensures { RestStays }
{}

/// A repaired number is the number modulo 10^8, and repaired specifications are the same ones, with
/// the ports of an address in place of those of a `client_port`.
#[tactic(auto, using(crate::proofs::Lawful::says_the_same))]
pub fn law_says_the_same()
    ensures { SaysTheSame }
{}
