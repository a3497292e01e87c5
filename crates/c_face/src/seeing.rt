// A sender's settings for C, for a host that was handed its state.
ghost use Rattle.std.specs.Prelude.{◌≡◌, length};
ghost use Rattle.sender.specs.Epochs.{started_epoch};
ghost use Rattle.c_face.specs.Boards.{shown_answer_c};
ghost use Rattle.c_face.specs.Settings.{sender_settings, settings_bytes, settings_bytes_c};

use crate::keeping;
use crate::keeping::SENDER_BYTES;
use packet::kinds;
use sender::Sender;

fn next_epoch(sender: Sender) -> u8
    ensures { result ≡ started_epoch sender }
{
    let table = sender.table;
    if sender.begun {
        return kinds::next_epoch(table.kind, sender.epoch);
    }
    sender.epoch
}

fn put_settings(sender: Sender, settings: &mut [u8])
    requires { length settings.old ≡ settings_bytes }
    ensures { settings.new ≡ sender_settings sender }
{
    let table = sender.table;
    let count = ground::size_byte(table.count);
    let next = next_epoch(sender);
    let wait = ground::one_if(table.wait);
    let image = [table.kind, count, next, wait, table.remembered];
    settings.copy_from_slice(&image);
}

pub fn levelspruce_sender_settings(state: &[u8], settings: &mut [u8]) -> u8
    ensures { (result ≡ shown_answer_c 5 state.now settings.old)
        × (settings.new ≡ settings_bytes_c state.now settings.old) }
{
    if state.len() != SENDER_BYTES {
        return 9;
    }
    if settings.len() != 5 {
        return 9;
    }
    let sender = keeping::sender_of(state);
    put_settings(sender, settings);
    0
}
