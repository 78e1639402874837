// What a status log means, and what is claimed of it; the jobs over it are Refresh and Update of `status_log`.
#![tactic(auto)]

ghost use Rattle.log_rules.specs.Claims.{AnyOrder, UnheardIsLost, InParts, FromSilence};

// A board unheard is a board lost.
pub fn a_board_unheard_is_a_board_lost()
    ensures { UnheardIsLost }
{}

// For a file that isn't refused, the same records in another order give the same answer.
pub fn any_order()
    ensures { AnyOrder }
{}

// A log read in parts of whole records gives what the whole log gives.
pub fn in_parts()
    ensures { InParts }
{}

// Refresh is Update of bytes that are all 0.
pub fn from_silence()
    ensures { FromSilence }
{}
