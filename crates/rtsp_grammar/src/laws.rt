//! What holds of the grammar for every text.

ghost use Rattle.rtsp_grammar.specs.Answer.{OneAnswer, Stays, NoAnswer, OpensOut};
ghost use Rattle.rtsp_grammar.specs.Reading.{ReadsRules, OneReading};
ghost use Rattle.rtsp_grammar.specs.Stream.{KeepsItems, HoweverCut};
ghost use Rattle.rtsp_grammar.specs.Writing.{ReadsBack};

/// A head's lines are read as the four rules say, and the rules allow no other reading.
#[tactic(auto, using(crate::proofs::HeadRules::head_reads, crate::proofs::HeadRules::head_only))]
pub fn law_reads_rules()
    ensures reads { ReadsRules }
    ensures one { OneReading }
{}

/// A text has at most one answer, and no longer text has another.
#[tactic(auto, using(crate::proofs::LongerLemmas::same_for_longer))]
pub fn law_one_answer()
    ensures { OneAnswer }
{}

/// The answer of a text is also that of each longer text.
#[tactic(auto, using(crate::proofs::LongerLemmas::stays))]
pub fn law_stays()
    ensures { Stays }
{}

/// An undecided text has no answer.
#[tactic(auto, using(crate::proofs::LongerLemmas::no_answer))]
pub fn law_no_answer()
    ensures { NoAnswer }
{}

/// For each undecided text there is a longer one that has an answer.
#[tactic(auto, using(crate::proofs::OpenLemmas::opens_out))]
pub fn law_opens_out()
    ensures { OpensOut }
{}

/// An item within the grammar that is written is read back, whatever follows it.
pub fn law_reads_back()
    ensures { ReadsBack }
{}

/// The items read from a prefix are the first items of the whole stream, however it is cut.
#[tactic(auto, using(crate::proofs::StreamLemmas::keeps_items))]
pub fn law_keeps_items()
    ensures { KeepsItems }
{}

/// Feeds that have given all items of a text have given the same ones, however it was cut.
pub fn law_however_cut()
    ensures { HoweverCut }
{}
