// Receiving begun anew: one flagged frame on every port, in port order.
#![tactic(auto, unfolding(crate::specs::Anew::anew_fits, crate::specs::Anew::anew_answer, crate::specs::Anew::anew_rows, crate::specs::Laws::Anew::flagged_port))]

ghost use Rattle.std.specs.Prelude.{◌≡◌, length};
ghost use Rattle.receiver.specs.Anew.{anew_answer, anew_rows};
ghost use Rattle.receiver.specs.Laws.Anew.{flagged_port, flagged_ports};

use crate::lengths;
use step::answers;

// The rows after a flagged frame, of which nothing is stored: of the port its step alone changes. A frame's own functions (arrival) are not called, since
// the compiler would then no longer take them into the call that every frame makes.
fn flag_port(port: u8, store: &[u8], state: &mut [[u8; 16]])
    ensures { state.new ≡ flagged_port store.now port state.old }
{
    let group = rows::group::get(state);
    let step = rows::step::get(state, port);
    let taken = step::decide(group, step, true, false, 0);
    rows::step::put(state, port, taken.step);
    if taken.settles {
        phases::settle(phases::ports_in(group), store, state);
    }
}

fn flag_ports(ports: u8, store: &[u8], state: &mut [[u8; 16]])
    ensures { state.new ≡ flagged_ports store.now ports state.old }
{
    for port in 0..ports {
        flag_port(port, store, state);
    }
}

// The store is read where the first epoch is gathered in between.
pub fn anew(state: &mut [[u8; 16]], store: &[u8]) -> u8
    ensures { (result ≡ anew_answer state.old (length store.now))
        × (state.new ≡ anew_rows state.old store.now) }
{
    let group = rows::group::get(state);
    let ports = phases::ports_in(group);
    let whole = phases::store_for(group, ports);
    if !lengths::is_lent(ports, state.len(), store.len(), whole) {
        return answers::LENGTH;
    }
    flag_ports(ports, store, state);
    answers::DONE
}
