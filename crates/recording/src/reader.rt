// 'A record is read through a reader that stays on the lent text and knows how far it has come.' (2026-05) The reader is a struct with the
// text slice and a position; all work is done on a plain text and place.
ghost use Rattle.std.specs.Prelude.{◌≡◌, drop};
ghost use Rattle.recording.specs.Reader.{reader_at};
ghost use Rattle.recording.specs.Record.{record_in};

use crate::record;
use crate::record::Record;

#[derive(Clone, Copy)]
pub struct Reader<'a> {
    pub text: &'a [u8],
    pub at: usize,
}

impl<'a> Reader<'a> {
    // A reader at the beginning of a text.
    pub fn on(text: &'a [u8]) -> Reader<'a>
        ensures { result ≡ reader_at text.entry 0 }
    {
        Reader { text, at: 0 }
    }

    // The reader at another place of its text.
    pub fn moved(self, at: usize) -> Reader<'a>
        ensures { result ≡ reader_at self.entry.text at }
    {
        Reader { at, ..self }
    }

    // What stands where the reader is.
    pub fn next(self, ports: u32, size: u32) -> Record
        ensures { result ≡ record_in ports size self.entry.at (drop self.entry.at self.entry.text.now) }
    {
        record::record_in(self.text, self.at, ports, size)
    }
}

// What a reader of this text finds at a place.
pub fn record_at(text: &[u8], at: usize, ports: u32, size: u32) -> Record
    ensures { result ≡ record_in ports size at (drop at text.now) }
{
    Reader::on(text).moved(at).next(ports, size)
}
