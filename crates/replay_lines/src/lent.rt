// The receiver on the parts of the lent rows and store that are its own.
ghost use Rattle.std.specs.Prelude.{◌≡◌, ◌≤◌, ◌++◌, length, take, drop};
ghost use Rattle.receiver.specs.Fetch.{fetch_of};
ghost use Rattle.replay_lines.specs.Laws.Due.{due_at};
ghost use Rattle.replay_lines.specs.Turn.{blamed_in, cleared_rows, started_rows, store_in, times_fit};

use recording::Settings;
use rows::Group;

// The times of the group's ports are in range.
#[tactic(auto, unfolding(crate::specs::Turn::times_fit))]
pub(crate) fn times_fit(settings: Settings) -> bool
    requires { settings.ports ≤ 64 }
    ensures { result ≡ times_fit settings }
{
    let n = settings.ports as usize;
    receiver::times_within(&settings.hold_off[..n]) & receiver::times_within(&settings.restore[..n])
}

// All rows are cleared first.
pub(crate) fn start(settings: Settings, store: usize, rows: &mut [[u8; 16]], count: usize)
    requires { (count ≤ length rows.old) × (settings.ports ≤ 64) × (store ≡ store_in settings) }
    ensures { rows.new ≡ started_rows settings (take count (cleared_rows rows.old)) ++ drop count (cleared_rows rows.old) }
{
    rows.fill([0; 16]);
    let n = settings.ports as usize;
    receiver::start_as(
        settings.kind,
        settings.ports,
        settings.size,
        settings.window,
        store,
        &settings.hold_off[..n],
        &settings.restore[..n],
        &mut rows[..count],
    );
}

pub(crate) fn fetch(
    rows: &mut [[u8; 16]],
    count: usize,
    store: &[u8],
    bytes: usize,
    out: &mut [u8],
    report: &mut [u8],
)
    requires { (count ≤ length rows.old) × (bytes ≤ length store.now) }
    ensures { (rows.new ≡ (fetch_of (take count rows.old) (take bytes store.now) out.old report.old).rows ++ drop count rows.old)
        × (out.new ≡ (fetch_of (take count rows.old) (take bytes store.now) out.old report.old).out)
        × (report.new ≡ (fetch_of (take count rows.old) (take bytes store.now) out.old report.old).report) }
{
    receiver::fetch(&mut rows[..count], &store[..bytes], out, report);
}

// The port to which the cause of the next report applies, read before it is fetched.
pub(crate) fn blamed(rows: &[[u8; 16]], count: usize) -> u8
    requires { count ≤ length rows.now }
    ensures { result ≡ blamed_in (take count rows.now) }
{
    let mut cause = [0u8, 255];
    receiver::cause(&rows[..count], &mut cause);
    cause[1]
}

#[tactic(auto, unfolding(receiver::specs::Fetch::due_in))]
fn is_due_in(state: &[[u8; 16]]) -> bool
    ensures { result ≡ due_at state.now }
{
    let group = rows::group::get(state);
    let ports = phases::ports_in(group);
    if (0 < ports) & (group.begun != 0) & (group.gathered != 0) {
        return phases::is_complete(group, state, ports);
    }
    false
}

// Whether a fetch would give a report.
pub(crate) fn is_due(rows: &[[u8; 16]], count: usize) -> bool
    requires { count ≤ length rows.now }
    ensures { result ≡ due_at (take count rows.now) }
{
    is_due_in(&rows[..count])
}
