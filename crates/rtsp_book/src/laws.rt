//! Laws over the definitions, each the contract of a function that does nothing.

ghost use Rattle.rtsp_book.specs.Laws.{Granted, GivingBack};

/// What a step is answered is allowed record by record, and leaves the entries and the owed returns
/// within the limit of the journal.
pub fn law_granted()
    ensures { Granted }
{}

/// The steps that give back, by which nothing new is held, leave entries and owed returns together as
/// many as before, and make at most 64 records.
pub fn law_giving_back()
    ensures { GivingBack }
{}
