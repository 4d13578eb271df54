// What is printed of all texts, and of one that disagrees.
use crate::compare::{Disagreement, ORDERS, Picture};
use std::fmt;
use texts::case::Case;

/// How many texts there were of each kind.
#[derive(Clone, Copy, Default)]
pub struct Tally {
    even: u64,
    uneven: u64,
    no_text: u64,
    disagree: u64,
    touched: u64,
    waited: u64,
    out_of_turns: u64,
}

impl Tally {
    /// Counts a text.
    pub fn count(&mut self, compared: Result<Option<Picture>, Disagreement>) {
        match compared {
            Ok(Some(picture)) => self.count_even(picture),
            Ok(None) => self.uneven = self.uneven.saturating_add(1),
            Err(why) => {
                self.disagree = self.disagree.saturating_add(1);
                if why == Disagreement::NoText {
                    self.no_text = self.no_text.saturating_add(1);
                }
            }
        }
    }

    fn count_even(&mut self, picture: Picture) {
        let Picture {
            touched,
            waited,
            out_of_turns,
        } = picture;
        self.even = self.even.saturating_add(1);
        self.touched = self.touched.saturating_add(u64::from(touched));
        self.waited = self.waited.saturating_add(u64::from(waited));
        self.out_of_turns = self.out_of_turns.saturating_add(u64::from(out_of_turns));
    }

    pub fn all_agree(&self) -> bool {
        self.disagree == 0
    }
}

/// All texts from a seed.
#[derive(Clone, Copy)]
pub struct Summary {
    pub texts: u32,
    pub seed: u32,
    pub tally: Tally,
}

impl fmt::Display for Summary {
    fn fmt<W: fmt::Write>(&self, f: &mut fmt::Formatter<W>) -> fmt::Result {
        let Summary {
            texts,
            seed,
            tally: Tally {
                even,
                uneven,
                no_text,
                disagree,
                touched,
                waited,
                out_of_turns,
            },
        } = *self;
        let orders = even
            .saturating_add(uneven)
            .saturating_mul(u64::from(ORDERS));
        writeln!(
            f,
            "{texts} texts from seed {seed}: {even} even, {uneven} uneven, {no_text} no text, {disagree} disagree"
        )?;
        writeln!(f, "orders that agree: {orders}")?;
        writeln!(f, "clashes met again: {uneven}")?;
        write!(
            f,
            "of the even ones {touched} touched the memory, {waited} waited, {out_of_turns} had threads out of turns"
        )
    }
}

/// Words in a line. The crate `answer` puts a blank before each, for lists behind a name.
#[derive(Clone, Copy)]
struct Line<'a>(&'a [u32]);

impl fmt::Display for Line<'_> {
    fn fmt<W: fmt::Write>(&self, f: &mut fmt::Formatter<W>) -> fmt::Result {
        let Some((first, others)) = self.0.split_first() else {
            return Ok(());
        };
        write!(f, "{first}")?;
        for word in others {
            write!(f, " {word}")?;
        }
        Ok(())
    }
}

/// A text that disagrees: its number, in the form of files, and how to run it again.
#[derive(Drop)]
pub struct Report<'a> {
    pub number: u32,
    pub case: &'a Case,
    pub why: Disagreement,
}

impl fmt::Display for Report<'_> {
    fn fmt<W: fmt::Write>(&self, f: &mut fmt::Formatter<W>) -> fmt::Result {
        let Report { number, case, why } = self;
        let threads = case.threads();
        let turns = case.turns();
        writeln!(f, "text {number}: {why}")?;
        writeln!(
            f,
            "# ./kernel verdict --threads {threads} --turns {turns} --memory {number}.words {number}.rows"
        )?;
        writeln!(
            f,
            "# ./kernel orders --threads {threads} --turns {turns} --memory {number}.words --seed {number} {number}.rows"
        )?;
        writeln!(f, "# {number}.words\n{}", Line(case.memory()))?;
        write!(f, "# {number}.rows\n{}", Line(case.rows()))
    }
}
