// An order is a list of commands.
ghost use Rattle.std.specs.Prelude.{◌≡◌, length};
ghost use Rattle.std.specs.Result.{result_unwrap_or};
ghost use Rattle.orders.specs.Orders.{answers_of, first_answers, first_ordered, ordered_of, ordered_told};

use crate::commands;
use crate::commands::Command;
use cards::{Card, Refusal};

// Each command on the card as those before it left it; 9 where there are more or fewer answers than commands, and nothing is done.
pub fn order(card: Card, commands: &[Command], answers: &mut [u8]) -> Result<Card, Refusal>
    ensures told { (result ≡ ordered_told (ordered_of card commands.now (length answers.old))) × (answers.new ≡ answers_of card commands.now answers.old) }
    ensures left { result_unwrap_or result card ≡ (ordered_of card commands.now (length answers.old)).card }
{
    if commands.len() != answers.len() {
        return Err(Refusal::Length);
    }
    let mut left = card;
    for (i, command) in commands.iter().enumerate() {
        left = commands::one(left, *command, i, answers);
    }
    Ok(left)
}

// The first n of an array, for callers that hold no slice of commands; 9 where n is more than there are.
pub fn order_of(
    card: Card,
    commands: [Command; 64],
    n: usize,
    answers: &mut [u8],
) -> Result<Card, Refusal>
    ensures told { (result ≡ ordered_told (first_ordered card commands n (length answers.old))) × (answers.new ≡ first_answers card commands n answers.old) }
    ensures left { result_unwrap_or result card ≡ (first_ordered card commands n (length answers.old)).card }
{
    let first = commands.get(..n).ok_or(Refusal::Length)?;
    order(card, first, answers)
}
