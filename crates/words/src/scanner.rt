// Reads words from bytes that come a few at a time, and knows where in the file it is.
ghost use Rattle.std.specs.Prelude.{◌≡◌, ◌+◌, ◌<◌, ◌≤◌, true, false, not, ◌++◌, is_some, is_ok, IfOk, IfErr, if◌then◌else◌, Err, vec_len, OnOk, nat_lt};
ghost use Rattle.std.specs.Option.{option_to_list};
ghost use Rattle.words.specs.declared.flaw.Stop.TheVariants.{Full};
ghost use Rattle.words.specs.Flaws.{flawed};
ghost use Rattle.words.specs.Scan.{kind, next, read, in_word, wrong, ended, begun, behind, scanned};

use crate::flaw::{Flaw, Stop};
use crate::list::WordList;
use crate::quote::Quote;
use crate::scan::{Kind, Mode, Spot};

/// How many bytes of a file are read at most, so that a program ends on one that has no end.
pub const LONGEST: u32 = 67_108_864;

#[derive(Clone, Copy)]
pub struct Scanner {
    mode: Mode,
    /// Where the next byte stands.
    at: Spot,
    /// Where the word begins, and its bytes so far.
    word: Spot,
    quote: Quote,
    taken: u32,
    ghost few: { taken ≤ 67108864 },
    ghost line: { at.line ≤ taken + 1 },
    ghost column: { at.column ≤ taken + 1 },
}

impl Scanner {
    pub fn new() -> Scanner
        ensures mode { result.mode ≡ Mode.Between }
        ensures at { (result.at.line ≡ 1) × (result.at.column ≡ 1) }
        ensures taken { result.taken ≡ 0 }
    {
        let start = Spot { line: 1, column: 1 };
        Scanner {
            mode: Mode::Between,
            at: start,
            word: start,
            quote: Quote::new(),
            taken: 0,
        }
    }

    /// Takes the next byte, and gives the word that ends before it.
    pub fn feed(&mut self, byte: u8) -> Result<Option<u32>, Flaw>
        ensures full { self.old.taken ≡ 67108864 → is_ok result ≡ false }
        ensures mode { self.old.taken < 67108864 → self.new.mode ≡ next self.old.mode (kind byte) }
        ensures at { self.old.taken < 67108864 → self.new.at ≡ behind self.old.at (kind byte) }
        ensures taken { self.old.taken < 67108864 → self.new.taken ≡ self.old.taken + 1 }
        ensures start { self.old.taken < 67108864 → self.new.word ≡ begun self.old.mode self.new.mode self.old.at self.old.word }
        ensures word { IfOk result (λ w. (self.new.mode ≡ next self.old.mode (kind byte)) × (w ≡ ended self.old.mode self.new.mode)) }
        ensures flaw { IfErr result (λ f. flawed f ≡ (if nat_lt self.old.taken 67108864 then self.new.word else self.old.at)) }
        ensures goes { self.old.taken < 67108864 → wrong self.old.mode ≡ false → wrong self.new.mode ≡ false → is_ok result ≡ true }
        ensures stops { wrong self.old.mode ≡ true → in_word self.new.mode ≡ false → is_ok result ≡ false }
    {
        if self.taken >= LONGEST {
            return Err(Flaw::TooLong(self.at));
        }
        let kind = Kind::from(byte);
        let before = self.mode;
        let here = self.at;
        let after = before.step(kind);
        self.at = here.behind(kind);
        self.taken += 1;
        self.mode = after;
        if after.is_in_word() {
            if !before.is_in_word() {
                self.word = here;
                self.quote = Quote::new();
            }
            self.quote.push(byte);
            if after.is_wrong() && self.quote.is_cut() {
                return Err(self.no_number());
            }
            return Ok(None);
        }
        if before.is_wrong() {
            return Err(self.no_number());
        }
        Ok(before.word())
    }

    /// Takes some bytes, and puts the words that end among them behind those in `words`.
    pub fn feed_all(&mut self, bytes: &[u8], words: &mut WordList) -> Result<(), Stop>
        ensures same_words { words.new.words.ghost_name ≡ words.old.words.ghost_name }
        ensures scanned { OnOk result ((self.new.mode, words.new.words.now.items) ≡ scanned self.old.mode words.old.words.now.items bytes.now) }
        ensures most { words.new.most ≡ words.old.most }
    {
        for byte in bytes {
            words.keep(self.feed(*byte)?)?;
        }
        Ok(())
    }

    fn no_number(&self) -> Flaw
        ensures { flawed result ≡ self.now.word }
    {
        Flaw::NoNumber(self.word, self.quote)
    }

    /// What the end of the input says: the last word may end there.
    pub fn finish(&self) -> Result<Option<u32>, Flaw>
        ensures word { IfOk result (λ w. w ≡ read self.now.mode) }
        ensures test { is_ok result ≡ not (wrong self.now.mode) }
        ensures flaw { IfErr result (λ f. flawed f ≡ self.now.word) }
    {
        if self.mode.is_wrong() {
            return Err(self.no_number());
        }
        Ok(self.mode.word())
    }
}
