// A whole work order for C: each command is the card's own C call, on the bytes that those before it left. So it is one by one on any bytes.
ghost use Rattle.std.specs.Prelude.{◌≡◌, length};
ghost use Rattle.c_cards.specs.Orders.{command_answer_on, command_state_on, kind_answer_on, kind_state_on, order_answer_on, order_answers_on, order_state_on, orders_on};

use crate::card_calls;
use crate::card_calls::CARD_BYTES;

// 'kind, group and slot': 8 for a number that is no kind, before all that its own call answers.
fn by_kind(kind: u32, group: u32, slot: u32, state: &mut [u8]) -> u8
    ensures { (result ≡ kind_answer_on kind group slot state.old) × (state.new ≡ kind_state_on kind group slot state.old) }
{
    match kind {
        0 => card_calls::levelspruce_card_add(state, group, slot),
        1 => card_calls::levelspruce_card_remove(state, group, slot),
        2 => card_calls::levelspruce_card_claim(state, group, slot),
        3 => card_calls::levelspruce_card_release(state, group, slot),
        _ => 8,
    }
}

fn one(command: [u32; 3], state: &mut [u8]) -> u8
    ensures { (result ≡ command_answer_on state.old command) × (state.new ≡ command_state_on state.old command) }
{
    by_kind(command[0], command[1], command[2], state)
}

fn each(state: &mut [u8], commands: &[[u32; 3]], answers: &mut [u8])
    requires { length commands.now ≡ length answers.old }
    ensures { (state.new ≡ (orders_on state.old commands.now).state)
        × (answers.new ≡ (orders_on state.old commands.now).numbers) }
{
    let mut i = 0;
    while i < commands.len() {
        let command = commands[i];
        let answer = one(command, state);
        answers[i] = answer;
        i += 1;
    }
}

pub fn levelspruce_card_order(state: &mut [u8], commands: &[[u32; 3]], answers: &mut [u8]) -> u8
    ensures { (result ≡ order_answer_on state.old commands.now answers.old)
        × (state.new ≡ order_state_on state.old commands.now answers.old)
        × (answers.new ≡ order_answers_on state.old commands.now answers.old) }
{
    if state.len() != CARD_BYTES {
        return 9;
    }
    if commands.len() != answers.len() {
        return 9;
    }
    each(state, commands, answers);
    0
}
