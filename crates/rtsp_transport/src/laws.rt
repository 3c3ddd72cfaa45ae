//! A law over the readers of this crate: the contract of a function that does nothing.

ghost use Rattle.rtsp_transport.specs.Laws.{HeaderGrammar};

/// The readers that specifications above this crate cite read what the grammar of each header value
/// has, and nothing else: Transport, Require, Session, CSeq and Pipelined-Requests. And the pick
/// that they cite is the first specification that can be served.
#[tactic(auto, using(crate::proofs::LawLemmas::header_grammar))]
pub fn law_header_grammar()
    ensures { HeaderGrammar }
{}
