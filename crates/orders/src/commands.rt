// A command: 'a small record of kind, group and slot' (02, 2026-07). The kinds are the four calls of a card that take a group and a slot.
ghost use Rattle.std.specs.Prelude.{◌≡◌, ◌<◌, length};
ghost use Rattle.cards.specs.Answers.{told};
ghost use Rattle.orders.specs.Orders.{outcome_by, stored_by};

use cards::{Card, Refusal};

#[derive(Clone, Copy)]
pub enum Kind {
    Add,
    Remove,
    Claim,
    Release,
}

#[derive(Clone, Copy)]
pub struct Command {
    pub kind: Kind,
    pub group: u32,
    pub slot: u32,
}

fn outcome_of(card: Card, command: Command) -> Result<Card, Refusal>
    ensures { result ≡ told (outcome_by card command) }
{
    let Command { kind, group, slot } = command;
    match kind {
        Kind::Add => card.add(group, slot),
        Kind::Remove => card.remove(group, slot),
        Kind::Claim => card.claim(group, slot),
        Kind::Release => card.release(group, slot),
    }
}

// The card that one command leaves; its number stands in the list of answers.
pub(crate) fn one(card: Card, command: Command, i: usize, answers: &mut [u8]) -> Card
    requires { i < length answers.old }
    ensures { (result ≡ (outcome_by card command).card) × (answers.new ≡ stored_by card command i answers.old) }
{
    let outcome = outcome_of(card, command);
    answers[i] = ground::number_told(outcome);
    outcome.unwrap_or(card)
}
