// The row of a port's step.
ghost use Rattle.std.specs.Prelude.{◌≡◌};
ghost use Rattle.rows.specs.Step.{step_at, step_of, step_row, put_step, with_next};
ghost use Rattle.rows.specs.Laws.Records.{step_back};

use crate::row::Row;
use crate::{group, row};

#[derive(Clone, Copy)]
pub struct Step {
    // bytes of the row that nothing is in yet
    pub spare: [u8; 4],
    // 0 until the port has had a frame
    pub heard: u8,
    // not 0 where its latest frame came flagged
    pub failed: u8,
    // the frames counted rightly in a row, as far as the step rule asks
    pub count: u8,
    // the tag that the next frame should have
    pub next: u16,
    pub joined: u8,
    // not 0 where the port was in step at the beginning, and ever since
    pub ever_since: u8,
    // the epochs from the oldest to the one joined at
    pub joined_at: u8,
    // not 0 where the ruling packet arrived whole
    pub whole: u8,
    // the frames in a row, up to the latest, that broke the count
    pub breaks: u8,
    // not 0 where the latest packet had a right CRC and another MFI2 than the count says
    pub odd: u8,
    // of VC-12: what the bits of the latest packet's count say, as far as they have come
    pub bits: u8,
}

impl Row for Step {
    ghost of_row = { step_of };

    ghost to_row = { step_row };

    fn of_row(row: [u8; 16]) -> Step {
        Step {
            spare: [row[12], row[13], row[14], row[15]],
            heard: row[0],
            failed: row[1],
            count: row[2],
            next: u16::from_be_bytes([row[3], row[4]]),
            joined: row[5],
            ever_since: row[6],
            joined_at: row[7],
            whole: row[8],
            breaks: row[9],
            odd: row[10],
            bits: row[11],
        }
    }

    fn to_row(self) -> [u8; 16] {
        let next = self.next.to_be_bytes();
        [
            self.heard,
            self.failed,
            self.count,
            next[0],
            next[1],
            self.joined,
            self.ever_since,
            self.joined_at,
            self.whole,
            self.breaks,
            self.odd,
            self.bits,
            self.spare[0],
            self.spare[1],
            self.spare[2],
            self.spare[3],
        ]
    }

    ghost is_back = { step_back };
}

pub fn get(state: &[[u8; 16]], port: u8) -> Step
    ensures { result ≡ step_at state.now port }
{
    row::get(state, port as usize * group::PORT_ROWS + 1)
}

pub fn put(state: &mut [[u8; 16]], port: u8, step: Step)
    ensures { state.new ≡ put_step state.old port step }
{
    row::put(state, port as usize * group::PORT_ROWS + 1, step);
}

// The next tag alone: two bytes of the row.
pub fn put_next(state: &mut [[u8; 16]], port: u8, next: u16)
    ensures { state.new ≡ put_step state.old port (with_next (step_at state.old port) next) }
{
    let at = port as usize * group::PORT_ROWS + 1;
    if at < state.len() {
        row::is_whole(state[at]);
        let bytes = next.to_be_bytes();
        state[at][3] = bytes[0];
        state[at][4] = bytes[1];
    }
}
