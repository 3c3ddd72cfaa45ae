//! What comes of a turn.

/// What comes of a turn of a pacer.
#[derive(Clone, Copy, PartialEq, Eq)]
pub enum Turn {
    /// All that was due is sent, and more will be due.
    More,
    /// The last packet of the play is sent, in this turn or before.
    AtEnd,
    /// The session isn't in the play that the pacer was made for. Nothing was sent.
    OtherPlay,
    /// The sink failed at a packet. The next turn goes on with that one.
    SinkFailed,
}

/// What comes of a turn of a pacer whose session has left the play.
#[derive(Clone, Copy, PartialEq, Eq)]
pub enum LastTurn {
    /// All units that were counted as sent are.
    Done,
    /// What was due of them is sent. More was counted.
    More,
    /// No pause of the play and no play after it leads to the phase. Nothing was sent.
    NotLeft,
    /// The sink failed at a packet. The next turn goes on with that one.
    SinkFailed,
}
