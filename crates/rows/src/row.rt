// A row of the state, and the records that stand in one.
ghost use Rattle.std.specs.Prelude.{◌≡◌, length};
ghost use Rattle.ground.specs.Types.{Bytes};
ghost use Rattle.rows.specs.Rows.{row_in, put_row};

// A record that stands in one row.
pub(crate) trait Row: Copy {
    ghost of_row: { Bytes → Self };

    ghost to_row: { Self → Bytes };

    fn of_row(row: [u8; 16]) -> Self
        ensures { result ≡ of_row row };

    fn to_row(self) -> [u8; 16]
        ensures { result ≡ to_row self };

    // What was put reads as it was.
    ghost is_back: { (held : Self) → of_row (to_row held) ≡ held };
}

pub(crate) fn row_in(state: &[[u8; 16]], at: usize) -> [u8; 16]
    ensures { result ≡ row_in state.now at }
{
    if at < state.len() { state[at] } else { [0; 16] }
}

pub(crate) fn put_row(state: &mut [[u8; 16]], at: usize, row: [u8; 16])
    ensures { state.new ≡ put_row state.old at row }
{
    if at < state.len() {
        state[at] = row;
    }
}

pub(crate) fn get<R: Row>(state: &[[u8; 16]], at: usize) -> R
    ensures { result ≡ R.of_row (row_in state.now at) }
{
    R::of_row(row_in(state, at))
}

pub(crate) fn put<R: Row>(state: &mut [[u8; 16]], at: usize, held: R)
    ensures { state.new ≡ put_row state.old at (R.to_row held) }
{
    put_row(state, at, held.to_row());
}

// A row has sixteen bytes: what its type says, said where a proof can cite it.
pub(crate) fn is_whole(row: [u8; 16])
    ensures { length row ≡ 16 }
{}
