// A report fetched (01, 'Report of an epoch'; 'For fetching: 9 first').
#![tactic(auto, unfolding(crate::specs::Fetch::due_in, crate::specs::Fetch::record_of, crate::specs::Fetch::report_if_due, crate::specs::Fetch::rows_if_due, crate::specs::Fetch::out_if_due, crate::specs::Fetch::lent_fits, crate::specs::Fetch::fetch_of))]

ghost use Rattle.std.specs.Prelude.{◌≡◌};
ghost use Rattle.receiver.specs.Fetch.{due_in, fetch_of, out_if_due, report_if_due, rows_if_due, none_due, record_of};
ghost use Rattle.receiver.specs.Report.{output_of, epoch_report, reported_of, seen_all};

use crate::report::Report;
use crate::{flags, joining, lengths, report, states};
use judge::Seen;
use rows::Group;
use step::answers;

// A host fetches after every frame: the two flags come first, and the ports end at the first one that still owes a frame.
fn is_due(group: Group, ports: u8, state: &[[u8; 16]]) -> bool
    ensures { result ≡ due_in group ports state.now }
{
    if (0 < ports) & flags::is_set(group.begun) & flags::is_set(group.gathered) {
        return phases::is_complete(group, state, ports);
    }
    false
}

fn none_due() -> Report
    ensures { result ≡ none_due }
{
    Report {
        mark: 0,
        epoch: 0,
        x: 0,
        cause: 0,
        bytes: 0,
    }
}

// What is seen of the ports, and then the epoch passed: both by one use of the table. Joining is not beside it, since the compiler then makes more of that.
fn see_and_pass(group: Group, ports: u8, state: &mut [[u8; 16]], store: &[u8]) -> [Seen; 64]
    ensures { (result ≡ seen_all group state.old ports)
        × (state.new ≡ reported_of group store.now ports state.old) }
{
    let table = packet::share_table();
    let seen = report::seen_all(&table, group, state, ports);
    states::pass(&table, group, store, ports, state);
    seen
}

// The report of the oldest epoch, which is due.
fn report_oldest(
    group: Group,
    ports: u8,
    state: &mut [[u8; 16]],
    store: &[u8],
    out: &mut [u8],
) -> Report
    ensures { (result ≡ epoch_report group (seen_all group state.old ports) ports)
        × (state.new ≡ reported_of group store.now ports state.old)
        × (out.new ≡ output_of group (seen_all group state.old ports) ports store.now out.old) }
{
    let seen = see_and_pass(group, ports, state, store);
    let cause = judge::cause(group.kind, seen, ports);
    let mark = judge::mark(group.kind, cause);
    let order = judge::ordered(seen, ports);
    joining::output_by(group, mark, order, store, out);
    joining::report_by(group, mark, cause, order)
}

fn report_if_due(
    group: Group,
    ports: u8,
    state: &mut [[u8; 16]],
    store: &[u8],
    out: &mut [u8],
) -> Report
    ensures { (result ≡ report_if_due group ports state.old)
        × (state.new ≡ rows_if_due group ports state.old store.now)
        × (out.new ≡ out_if_due group ports state.old store.now out.old) }
{
    if is_due(group, ports, state) {
        return report_oldest(group, ports, state, store, out);
    }
    none_due()
}

fn record_of(r: Report) -> [u8; 8]
    ensures { result ≡ record_of r }
{
    [
        r.mark,
        r.epoch,
        r.x,
        r.cause,
        (r.bytes / 16777216 % 256) as u8,
        (r.bytes / 65536 % 256) as u8,
        (r.bytes / 256 % 256) as u8,
        (r.bytes % 256) as u8,
    ]
}

// The report of the oldest epoch not yet reported, if it is due: its frames into the output, and what it says into the record.
pub fn fetch(state: &mut [[u8; 16]], store: &[u8], out: &mut [u8], report: &mut [u8]) -> u8
    ensures { (result ≡ (fetch_of state.old store.now out.old report.old).answer)
        × (state.new ≡ (fetch_of state.old store.now out.old report.old).rows)
        × (out.new ≡ (fetch_of state.old store.now out.old report.old).out)
        × (report.new ≡ (fetch_of state.old store.now out.old report.old).report) }
{
    let group = rows::group::get(state);
    let ports = phases::ports_in(group);
    if !lengths::is_fetch(
        group,
        ports,
        state.len(),
        store.len(),
        out.len(),
        report.len(),
    ) {
        return answers::LENGTH;
    }
    let given = report_if_due(group, ports, state, store, out);
    report.copy_from_slice(&record_of(given));
    answers::DONE
}
