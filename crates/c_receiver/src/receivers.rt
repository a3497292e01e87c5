// The receiver for C: its state in lent rows of sixteen bytes, its frames in a lent store.
ghost use Rattle.std.specs.Prelude.{◌≡◌, length};
ghost use Rattle.c_receiver.specs.Receivers.{failed_c, kind_c, start_as_answer_c, start_as_rows_c};
ghost use Rattle.receiver.specs.Fetch.{fetch_of};
ghost use Rattle.receiver.specs.Frame.{frame_of};
ghost use Rattle.receiver.specs.Shown.{ports_answer, ports_out, reply_answer, reply_out};
ghost use Rattle.receiver.specs.Starting.{start_answer, start_rows};

use packet::kinds;

fn is_failed(failed: u32) -> bool
    ensures { result ≡ failed_c failed }
{
    failed != 0
}

pub fn levelspruce_receiver_start(
    ports: u32,
    payload: u32,
    window: u32,
    store_bytes: usize,
    state: &mut [[u8; 16]],
) -> u8
    ensures { (result ≡ start_answer 0 ports payload window store_bytes (length state.old))
        × (state.new ≡ start_rows 0 ports payload window store_bytes state.old) }
{
    receiver::start(kinds::H4, ports, payload, window, store_bytes, state)
}

fn kind_byte(kind: u32) -> u8
    ensures { result ≡ kind_c kind }
{
    u8::try_from(kind).unwrap_or(255)
}

pub fn levelspruce_receiver_start_as(
    kind: u32,
    ports: u32,
    payload: u32,
    window: u32,
    store_bytes: usize,
    hold_off: &[u32],
    restore: &[u32],
    state: &mut [[u8; 16]],
) -> u8
    ensures { (result ≡ start_as_answer_c kind ports payload window store_bytes hold_off.now restore.now (length state.old))
        × (state.new ≡ start_as_rows_c kind ports payload window store_bytes hold_off.now restore.now state.old) }
{
    receiver::start_as(
        kind_byte(kind),
        ports,
        payload,
        window,
        store_bytes,
        hold_off,
        restore,
        state,
    )
}

pub fn levelspruce_receiver_frame(
    state: &mut [[u8; 16]],
    port: u32,
    failed: u32,
    h4: u8,
    payload: &[u8],
    store: &mut [u8],
) -> u8
    ensures { (result ≡ (frame_of state.old port (failed_c failed) h4 payload.now store.old).answer)
        × (state.new ≡ (frame_of state.old port (failed_c failed) h4 payload.now store.old).rows)
        × (store.new ≡ (frame_of state.old port (failed_c failed) h4 payload.now store.old).store) }
{
    receiver::frame(state, port, is_failed(failed), h4, payload, store)
}

pub fn levelspruce_receiver_fetch(
    state: &mut [[u8; 16]],
    store: &[u8],
    out: &mut [u8],
    report: &mut [u8],
) -> u8
    ensures { (result ≡ (fetch_of state.old store.now out.old report.old).answer)
        × (state.new ≡ (fetch_of state.old store.now out.old report.old).rows)
        × (out.new ≡ (fetch_of state.old store.now out.old report.old).out)
        × (report.new ≡ (fetch_of state.old store.now out.old report.old).report) }
{
    receiver::fetch(state, store, out, report)
}

pub fn levelspruce_receiver_ports(state: &[[u8; 16]], ports: &mut [[u8; 8]]) -> u8
    ensures { (result ≡ ports_answer state.now (length ports.old))
        × (ports.new ≡ ports_out state.now ports.old) }
{
    receiver::ports(state, ports)
}

pub fn levelspruce_receiver_reply(state: &[[u8; 16]], epoch: u8, reply: &mut [u8]) -> u8
    ensures { (result ≡ reply_answer state.now (length reply.old))
        × (reply.new ≡ reply_out state.now epoch reply.old) }
{
    receiver::reply(state, epoch, reply)
}
