//! Laws over tables that go on, each the contract of a function that does nothing.

ghost use Rattle.rtsp_content.specs.Growing.{KeepsPlaces, FindsAlike, ExtendsChain};

/// A table that goes on has at each place of the old one what that has, unless the place was given to another.
pub fn law_keeps_places()
    ensures { KeepsPlaces }
{}

/// What a path names it names in a table that goes on, unless the place was given to another.
pub fn law_finds_alike()
    ensures { FindsAlike }
{}

/// Tables that go on chain.
pub fn law_extends_chain()
    ensures { ExtendsChain }
{}
