// The start of a word, to show in a message.
use arrayvec::ArrayString;
use std::fmt;

/// The first bytes of a word, as they are shown. A longer one is shown cut.
#[derive(Clone, Copy, Debug)]
pub struct Quote {
    shown: ArrayString<24>,
    cut: bool,
}

impl Quote {
    pub fn new() -> Quote {
        Quote {
            shown: ArrayString::new(),
            cut: false,
        }
    }

    pub fn push(&mut self, byte: u8) {
        if self.shown.try_push(printable(byte)).is_err() {
            self.cut = true;
        }
    }

    /// The start of a word that is there as a whole.
    pub fn of(word: &str) -> Quote {
        let mut quote = Quote::new();
        for byte in word.as_bytes() {
            quote.push(*byte);
        }
        quote
    }

    pub fn is_cut(&self) -> bool {
        self.cut
    }
}

/// A byte that could move a terminal's cursor, or that is no ASCII, is shown as `?`.
fn printable(byte: u8) -> char {
    match byte {
        b' '..=b'~' => char::from(byte),
        _ => '?',
    }
}

impl fmt::Display for Quote {
    fn fmt<W: fmt::Write>(&self, f: &mut fmt::Formatter<W>) -> fmt::Result {
        f.write_str(self.shown.as_str())?;
        if self.cut {
            f.write_str("..")?;
        }
        Ok(())
    }
}
