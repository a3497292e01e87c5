// What a line is answered (01, 'Session'): the number and the table afterwards.
ghost use Rattle.std.specs.Prelude.{◌≡◌};
ghost use Rattle.std.specs.Result.{result_unwrap_or};
ghost use Rattle.ground.specs.Refusals.{number_told};
ghost use Rattle.sender.specs.Answers.{refusal_number};
ghost use Rattle.session_lines.specs.Replies.{is_board, replied, reply_of};

use crate::line::Line;
use sender::{Refusal, Table};

#[derive(Clone, Copy)]
pub struct Reply {
    pub table: Table,
    pub number: u8,
}

// What a call leaves: a refused one the table as it was.
fn replied(table: Table, answer: Result<Table, Refusal>) -> Reply
    ensures { result ≡ replied (result_unwrap_or answer table) (number_told refusal_number answer) }
{
    Reply {
        table: answer.unwrap_or(table),
        number: ground::number_told(answer),
    }
}

pub fn reply_to(table: Table, line: Line) -> Reply
    ensures { result ≡ reply_of table line }
{
    match line {
        Line::Size(count) => replied(table, sender::start(table.kind, count)),
        Line::Add(slot) => replied(table, sender::add(table, slot)),
        Line::Remove(slot) => replied(table, sender::remove(table, slot)),
        Line::Report(epoch, mst, ack) => Reply {
            table: sender::report(table, epoch, mst, ack),
            number: 0,
        },
        Line::Lapse => replied(table, sender::lapse(table)),
        Line::Board => Reply { table, number: 0 },
        Line::Malformed => Reply { table, number: 13 },
    }
}

pub fn is_board(line: Line) -> bool
    ensures { result ≡ is_board line }
{
    matches!(line, Line::Board)
}
