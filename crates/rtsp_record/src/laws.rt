//! Laws over the definitions, each the contract of a function that does nothing.

ghost use Rattle.rtsp_record.specs.LastWord.{LastWords, SameWords};
ghost use Rattle.rtsp_record.specs.Records.{InverseTwice};

/// The inverse of the inverse is the record.
pub fn law_inverse()
    ensures { InverseTwice }
{}

/// Each fact of the book of a legal journal is what the last record of its kind says: a session
/// lives where its last Open or Close is an Open, a thing is held where its last Hold or Free is a
/// Hold, and so for streams, bindings, phase and expiry.
pub fn law_last_words()
    ensures { LastWords }
{}

/// Legal journals whose last records of each kind say the same have equal books.
pub fn law_same_words()
    ensures { SameWords }
{}
