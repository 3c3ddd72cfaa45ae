//! Laws over gates and over the header that they read, each the contract of a function that does nothing.

ghost use Rattle.rtsp_credentials.specs.Grammar.{ReadsGrammar};
ghost use Rattle.rtsp_credentials.specs.Laws.{OnlyRightful, RightfulPass};

/// A request that is let through has the credentials of a user, by the definition of RFC 7616, or is
/// an OPTIONS that names no session.
#[tactic(auto, using(crate::proofs::Rightful::only_rightful))]
pub fn law_only_rightful()
    ensures { OnlyRightful }
{}

/// A request that has the credentials of a user, by the definition of RFC 7616, is let through.
pub fn law_rightful_pass()
    ensures { RightfulPass }
{}

/// The parameters that are read of a header are those that it spells by the grammar of RFC 7235, and
/// nothing else is read.
#[tactic(auto, using(crate::proofs::Spelled::reads_grammar))]
pub fn law_reads_grammar()
    ensures { ReadsGrammar }
{}
