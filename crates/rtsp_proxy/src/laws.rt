//! Laws over headers, each the contract of a function that does nothing.

ghost use Rattle.rtsp_proxy.specs.Laws.{AnswerStays, IsShortUntold, LineIsRead, OwnIsRead, PlayerIsRead};

/// What is told of a header by its first bytes is told of it whatever follows.
pub fn law_answer_stays()
    ensures { AnswerStays }
{}

/// A text of which nothing is told yet is short.
pub fn law_header_is_short()
    ensures { IsShortUntold }
{}

/// A header of version 1 that names a player is read as its address and port, and nothing behind it.
pub fn law_line_is_read()
    ensures { LineIsRead }
{}

/// A header of version 2 that names a player is read as its address and port, and nothing behind it.
pub fn law_player_is_read()
    ensures { PlayerIsRead }
{}

/// A header of version 2 of a balancer's own connection is read as that, whatever it tells besides.
pub fn law_own_is_read()
    ensures { OwnIsRead }
{}
