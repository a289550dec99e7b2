// Writing a part of a text that may be longer than any buffer: a row's type can be, since types share their parts.
#![tactic(auto)]

ghost use Rattle.std.specs.Prelude.{◌≡◌, length};
ghost use Rattle.ptype.specs.Show.{decimal};
ghost use Rattle.rows_window.specs.Showing.{Shows, is_full, Shown};
ghost use Rattle.rows_window.specs.ShowingLaws.{window_laws};

use display::{Full, MOST_DIGITS, Sink, Writer};

// How many bytes of the text are still passed over, and where the next byte goes.
#[derive(Clone, Copy)]
pub struct Window {
    pub skip: usize,
    pub at: usize,
}

// The buffer that is lent to be written into, and the window through which it is.
#[derive(Drop)]
pub struct WindowWriter<'a> {
    pub buffer: &'a mut [u8],
    pub window: Window,
}

impl<'a> WindowWriter<'a> {
    // Whether nothing more is written, whatever the text.
    pub fn is_full(&self) -> bool
        ensures { result ≡ is_full self.now }
    {
        self.window.skip == 0 && self.window.at >= self.buffer.len()
    }

    // Writes of the next piece of the text what lies in the window, as far as it has room.
    pub fn put(&mut self, piece: &[u8])
        ensures { Shows self.old self.new piece.now }
    {
        let passed = self.window.skip.min(piece.len());
        let mut writer = Writer {
            buffer: self.buffer,
            at: self.window.at,
        };
        let _ = writer.put(&piece[passed..]);
        self.window.at = writer.at;
        self.window.skip -= passed;
    }

    // A number in decimal is the next piece.
    pub fn put_decimal(&mut self, n: usize)
        ensures { Shows self.old self.new (decimal n) }
    {
        let mut digits = [0u8; MOST_DIGITS];
        let mut writer = Writer::new(&mut digits);
        let Ok(()) = writer.put_decimal(n) else {
            return;
        };
        let end = writer.at;
        self.put(&digits[..end]);
    }
}

// A full window tells so, that no more of a text is gone through.
impl<'a> Sink for WindowWriter<'a> {
    ghost Wrote = { Shown };

    ghost laws = { window_laws };

    fn write(&mut self, piece: &[u8]) -> Result<(), Full> {
        self.put(piece);
        if self.is_full() { Err(Full) } else { Ok(()) }
    }
}
