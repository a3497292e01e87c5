// The row of a port's member.
ghost use Rattle.std.specs.Prelude.{◌≡◌};
ghost use Rattle.rows.specs.Member.{member_at, member_of, member_row, put_member};
ghost use Rattle.rows.specs.Laws.Records.{member_back};

use crate::row::Row;
use crate::{group, row};

#[derive(Clone, Copy)]
pub struct Member {
    // bytes of the row that nothing is in yet
    pub spare: [u8; 4],
    // the word of the last good packet; 255 where there was none
    pub word: u8,
    // and its number
    pub number: u8,
    // the state worked out at the last report
    pub state: u8,
    // and the number under which the port had it
    pub state_number: u8,
    // the last good word and number at the last report, with which RS-Ack compares
    pub told_word: u8,
    pub told_number: u8,
    // hold-off and wait-to-restore, in reports
    pub hold_off: u16,
    pub restore: u16,
    // at how many reports the timer has run: hold-off in OK, restoring in FAIL
    pub elapsed: u16,
}

impl Row for Member {
    ghost of_row = { member_of };

    ghost to_row = { member_row };

    fn of_row(row: [u8; 16]) -> Member {
        Member {
            spare: [row[12], row[13], row[14], row[15]],
            word: row[0],
            number: row[1],
            state: row[2],
            state_number: row[3],
            told_word: row[4],
            told_number: row[5],
            hold_off: u16::from_be_bytes([row[6], row[7]]),
            restore: u16::from_be_bytes([row[8], row[9]]),
            elapsed: u16::from_be_bytes([row[10], row[11]]),
        }
    }

    fn to_row(self) -> [u8; 16] {
        let hold_off = self.hold_off.to_be_bytes();
        let restore = self.restore.to_be_bytes();
        let elapsed = self.elapsed.to_be_bytes();
        [
            self.word,
            self.number,
            self.state,
            self.state_number,
            self.told_word,
            self.told_number,
            hold_off[0],
            hold_off[1],
            restore[0],
            restore[1],
            elapsed[0],
            elapsed[1],
            self.spare[0],
            self.spare[1],
            self.spare[2],
            self.spare[3],
        ]
    }

    ghost is_back = { member_back };
}

pub fn get(state: &[[u8; 16]], port: u8) -> Member
    ensures { result ≡ member_at state.now port }
{
    row::get(state, port as usize * group::PORT_ROWS + 2)
}

pub fn put(state: &mut [[u8; 16]], port: u8, member: Member)
    ensures { state.new ≡ put_member state.old port member }
{
    row::put(state, port as usize * group::PORT_ROWS + 2, member);
}
