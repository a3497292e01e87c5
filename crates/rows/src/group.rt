// The group's row.
ghost use Rattle.std.specs.Prelude.{◌≡◌};
ghost use Rattle.rows.specs.Group.{group_at, group_of, group_row, put_group};
ghost use Rattle.rows.specs.Laws.Records.{group_back};
ghost use Rattle.rows.specs.Rows.{rows_for};

use crate::row;
use crate::row::Row;

#[derive(Clone, Copy)]
pub struct Group {
    // bytes of the row that nothing is in yet
    pub spare: [u8; 4],
    // the kind of packet
    pub kind: u8,
    // how many ports
    pub count: u8,
    // P
    pub payload: u16,
    // W
    pub window: u16,
    // 0 until receiving has begun
    pub begun: u8,
    // 0 until the first epoch is gathered
    pub gathered: u8,
    // the oldest epoch not yet reported or gathered
    pub oldest: u8,
    // the place of the window's first frame
    pub origin: u16,
    pub rs_ack: u8,
}

impl Row for Group {
    ghost of_row = { group_of };

    ghost to_row = { group_row };

    fn of_row(row: [u8; 16]) -> Group {
        Group {
            spare: [row[12], row[13], row[14], row[15]],
            kind: row[0],
            count: row[1],
            payload: u16::from_be_bytes([row[2], row[3]]),
            window: u16::from_be_bytes([row[4], row[5]]),
            begun: row[6],
            gathered: row[7],
            oldest: row[8],
            origin: u16::from_be_bytes([row[9], row[10]]),
            rs_ack: row[11],
        }
    }

    fn to_row(self) -> [u8; 16] {
        let payload = self.payload.to_be_bytes();
        let window = self.window.to_be_bytes();
        let origin = self.origin.to_be_bytes();
        [
            self.kind,
            self.count,
            payload[0],
            payload[1],
            window[0],
            window[1],
            self.begun,
            self.gathered,
            self.oldest,
            origin[0],
            origin[1],
            self.rs_ack,
            self.spare[0],
            self.spare[1],
            self.spare[2],
            self.spare[3],
        ]
    }

    ghost is_back = { group_back };
}

pub fn get(state: &[[u8; 16]]) -> Group
    ensures { result ≡ group_at state.now }
{
    row::get(state, 0)
}

pub fn put(state: &mut [[u8; 16]], group: Group)
    ensures { state.new ≡ put_group state.old group }
{
    row::put(state, 0, group);
}

// How many rows a port has.
pub const PORT_ROWS: usize = 5;

// How many rows a group of so many ports has.
pub fn rows_for(count: u8) -> usize
    ensures { result ≡ rows_for count }
{
    count as usize * PORT_ROWS + 1
}
