// Rows as they are written, from the front, with room kept for all that is still owed.
ghost use Rattle.std.specs.Prelude.{◌≡◌, ◌↔◌, true, cond, ◌+◌, ◌<◌, ◌≤◌, length, [], ◌∷◌, ◌++◌, option_to_list};
ghost use Rattle.arrayvec.specs.ArrayVec.{array_vec_len};
ghost use Rattle.texts.specs.Owed.{Written, Opened, RoomFor};
ghost use Rattle.texts.specs.declared.spell.Leaf.TheVariants.{Me};
ghost use Rattle.texts.specs.Spelled.{head_row, instead_of, leaf_row, operation_row, parts_in};

use crate::spell::{Head, Leaf, Words};
use arrayvec::ArrayVec;
use model::Op;

/// How many words a page has.
pub const MOST: usize = 2048;

/// The words so far, and how many parts of what was begun are still owed. A part takes a word at least, and each that is
/// owed has one set aside; so whatever is begun can be brought to its end.
// That a part is owed is asked by each method, and is no invariant, since of a page that is done nothing is owed.
#[derive(Debug, PartialEq, Drop)]
pub struct Page {
    words: ArrayVec<u32, MOST>,
    owed: usize,
    ghost room: { array_vec_len words + owed ≤ 2048 },
}

impl Page {
    /// A text with so many variables begins: its statement is owed.
    pub fn begin(variables: u32) -> Page
        ensures words { result.words.items ≡ variables ∷ [] }
        ensures owed { result.owed ≡ 1 }
    {
        let mut words = ArrayVec::new();
        words.push(variables);
        Page { words, owed: 1 }
    }

    /// One word of what is owed.
    fn word(&mut self, word: u32)
        requires { 0 < self.old.owed }
        ensures words { self.new.words.items ≡ self.old.words.items ++ word ∷ [] }
        ensures owed { Written self.old.owed self.new.owed }
    {
        self.owed -= 1;
        self.words.push(word);
    }

    /// Whether there was room for words and for so many parts behind them. Where there is none, nothing is written.
    fn put(&mut self, words: Words, parts: u8) -> bool
        requires { 0 < self.old.owed }
        ensures room { result ≡ true ↔ RoomFor (words.0 ∷ option_to_list words.1) parts (array_vec_len self.old.words) self.old.owed }
        ensures words { self.new.words.items ≡ self.old.words.items ++ cond result (words.0 ∷ option_to_list words.1) [] }
        ensures owed { self.new.owed + cond result 1 0 ≡ self.old.owed + cond result parts 0 }
    {
        let (first, second) = words;
        let more = usize::from(parts) + usize::from(second.is_some());
        let fits = more <= self.words.remaining_capacity() - self.owed;
        if fits {
            self.word(first);
            self.owed += more;
            if let Some(second) = second {
                self.word(second);
            }
        }
        fits
    }

    /// A part with no part in it. Where there is no room for both its words, it is `me`.
    pub fn leaf(&mut self, leaf: Leaf)
        requires { 0 < self.old.owed }
        ensures words { RoomFor (leaf_row leaf) 0 (array_vec_len self.old.words) self.old.owed → self.new.words.items ≡ self.old.words.items ++ leaf_row leaf }
        ensures full { (RoomFor (leaf_row leaf) 0 (array_vec_len self.old.words) self.old.owed → ⊥) → self.new.words.items ≡ self.old.words.items ++ leaf_row Me }
        ensures owed { Written self.old.owed self.new.owed }
    {
        if !self.put(leaf.words(), 0) {
            let (me, _) = Leaf::Me.words();
            self.word(me);
        }
    }

    /// A part begins, and whether there was room for what is in it: that is to follow. Where there is none, the part is
    /// `me` or `nothing`.
    pub fn open(&mut self, head: Head) -> bool
        requires { 0 < self.old.owed }
        ensures room { result ≡ true ↔ RoomFor (head_row head) (parts_in head) (array_vec_len self.old.words) self.old.owed }
        ensures words { self.new.words.items ≡ self.old.words.items ++ cond result (head_row head) (leaf_row (instead_of head)) }
        ensures owed { Opened (parts_in head) self.old.owed self.new.owed result }
    {
        let opened = self.put(head.words(), head.parts());
        if !opened {
            self.leaf(head.instead());
        }
        opened
    }

    /// An operation on two expressions with no part in them.
    pub fn operation(&mut self, op: Op, left: Leaf, right: Leaf)
        requires { 0 < self.old.owed }
        ensures words { RoomFor (operation_row op left right) 0 (array_vec_len self.old.words) self.old.owed → self.new.words.items ≡ self.old.words.items ++ operation_row op left right }
        ensures owed { Written self.old.owed self.new.owed }
    {
        if self.open(Head::Operation(op)) {
            self.leaf(left);
            self.leaf(right);
        }
    }

    /// The rows so far.
    pub fn rows(&self) -> &[u32]
        ensures value { result.now ≡ self.now.words.items }
        ensures bound { length result.now ≤ 2048 }
    {
        self.words.as_slice()
    }
}
