// c_cards::commands for C.
ghost use Rattle.std.specs.Prelude.{◌≡◌};
ghost use Rattle.c_cards.specs.Orders.{order_answer_on, order_answers_on, order_state_on};

#[unsafe(no_mangle)]
pub extern "C" fn levelspruce_card_order(
    state: &mut [u8],
    commands: &[[u32; 3]],
    answers: &mut [u8],
) -> u8
    ensures { (result ≡ order_answer_on state.old commands.now answers.old)
        × (state.new ≡ order_state_on state.old commands.now answers.old)
        × (answers.new ≡ order_answers_on state.old commands.now answers.old) }
{
    c_cards::commands::levelspruce_card_order(state, commands, answers)
}
