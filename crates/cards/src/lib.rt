// Two circuits on one card (02, 2026-06): two groups share the card's slots. 'Each slot is owned by at most one group; claim and release move it. Numbers, words, EOS and waits are per group.'
#![tactic(auto)]

mod card;
mod owners;
mod parts;
mod refusals;

pub use card::Card;
pub use owners::mark_of;
pub use parts::sender_of;
pub use refusals::Refusal;
