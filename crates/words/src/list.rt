// The words that were read, and how many they may be.
ghost use Rattle.std.specs.Prelude.{◌≡◌, ◌+◌, ◌^◌, ◌<◌, ◌≤◌, max, true, ◌++◌, is_some, Err, vec_len, OnOk};
ghost use Rattle.std.specs.Option.{option_to_list};
ghost use Rattle.words.specs.declared.flaw.Stop.TheVariants.{Full};

use crate::flaw::Stop;

/// A caller's words, one behind the other, up to `most` in all.
#[derive(Drop)]
pub struct WordList<'a> {
    words: &'a mut Vec<u32>,
    most: usize,
    ghost within: { vec_len words.now ≤ most },
}

impl<'a> WordList<'a> {
    /// These words, up to `most` in all. If they are more already, there is room for no other.
    pub fn new(words: &'a mut Vec<u32>, most: usize) -> WordList<'a>
        ensures same_words { result.words.ghost_name ≡ words.entry.ghost_name }
        ensures words { result.words.now ≡ words.old }
        ensures most { result.most ≡ max most (vec_len words.old) }
    {
        let most = most.max(words.len());
        WordList { words, most }
    }

    /// Leaves room for so many words more.
    pub fn make_room(&mut self, more: usize)
        ensures same_words { self.new.words.ghost_name ≡ self.old.words.ghost_name }
        ensures words { self.new.words.now ≡ self.old.words.now }
        ensures most { self.new.most ≤ vec_len self.old.words.now + more }
        ensures all { vec_len self.old.words.now + more < 2 ^ 64 → self.new.most ≡ vec_len self.old.words.now + more }
    {
        self.most = self.len().saturating_add(more);
    }

    pub fn len(&self) -> usize
        ensures { result ≡ vec_len self.now.words.now }
    {
        self.words.len()
    }

    /// Puts the word that ended, if one did, behind the others, unless there are `most` already.
    pub fn keep(&mut self, word: Option<u32>) -> Result<(), Stop>
        ensures same_words { self.new.words.ghost_name ≡ self.old.words.ghost_name }
        ensures items { OnOk result (self.new.words.now.items ≡ self.old.words.now.items ++ option_to_list word) }
        ensures most { self.new.most ≡ self.old.most }
        ensures full { is_some word ≡ true → self.old.most ≤ vec_len self.old.words.now → result ≡ Err Full }
    {
        let Some(word) = word else {
            return Ok(());
        };
        if self.len() >= self.most {
            return Err(Stop::Full);
        }
        self.words.push(word)?;
        Ok(())
    }
}
