// 'A board is taken only at an epoch's start': the one that goes out in this epoch's packets, which the start has fixed, wait included.
ghost use Rattle.std.specs.Prelude.{◌≡◌};
ghost use Rattle.spoken.specs.Taking.{taken_of};

use sender::{Board, Sender};

pub fn taken(sender: Sender) -> Board
    ensures { result ≡ taken_of sender }
{
    sender.outgoing
}
