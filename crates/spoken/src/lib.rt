// The spoken board (02, 2026-10): 'From two whole boards, old and new, it produces the spoken changes'; 'Applying the changes to the old board gives the new one.'
#![tactic(auto)]

mod applying;
mod comparing;
mod lists;
mod runs;
mod speaking;
mod taking;
mod telling;

pub use applying::apply;
pub use comparing::changes_between;
pub use lists::{Change, Changes, Refusal, WaitChange};
pub use runs::Run;
pub use speaking::{SPEECH_ROOM, speak};
pub use taking::taken;
pub use telling::{speak_runs, speak_whole};
