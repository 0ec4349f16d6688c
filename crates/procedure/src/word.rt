// The words of a file: 32 bits, the lowest byte first. The top 4 bits are the kind, then a (4 bits), b, c and d (8 bits each).
ghost use Rattle.std.specs.Prelude.{◌≡◌, ◌+◌, ◌<◌, ◌∷◌, true, false, length, MatchOption, MatchResult};
ghost use Rattle.std.specs.Iterator.{YieldsFirst, item_count};
ghost use Rattle.procedure.specs.Words.{words};
ghost use Rattle.procedure.specs.Faults.{fault_at};
ghost use Rattle.game.specs.declared.fault.Reason.TheVariants as reason;

use game::fault::{Fault, Reason};
use game::goal::Word;

// The first word, and the bytes after it.
pub fn split_word(bytes: &[u8]) -> Option<(Word, &[u8])>
    ensures { MatchOption result (length bytes.now < 4) (λ p. (words bytes.now ≡ p.0 ∷ words p.1.now) × (length p.1.now + 4 ≡ length bytes.now)) }
{
    match bytes {
        [w0, w1, w2, w3, rest @ ..] => {
            let word = Word {
                kind: *w3 / 16,
                a: *w3 % 16,
                b: *w2,
                c: *w1,
                d: *w0,
            };
            Some((word, rest))
        }
        _ => None,
    }
}

// The words of a file, from its start.
#[derive(Drop)]
pub struct Words<'a>(pub &'a [u8]);

impl<'a> Iterator for Words<'a> {
    type Item = Word;

    ghost next_gives = { YieldsFirst (λ s. words s.0.now) };

    ghost remaining = { item_count (λ s. words s.0.now) };

    fn next(&mut self) -> Option<Word> {
        let (word, rest) = split_word(self.0)?;
        self.0 = rest;
        Some(word)
    }
}

// A word, and its place among those of the file.
#[derive(Clone, Copy)]
pub(crate) struct Placed {
    pub(crate) place: usize,
    pub(crate) word: Word,
}

impl Placed {
    // The refusal of the word for a reason.
    pub(crate) fn refuse(self, reason: Reason) -> Fault
        ensures { result ≡ fault_at self.place reason }
    {
        Fault {
            reason,
            place: self.place,
        }
    }

    // Both unused fields are 0.
    pub(crate) fn unused(self, one: u8, other: u8) -> Result<(), Fault>
        ensures { MatchResult result (λ _. one + other ≡ 0) (λ e. (0 < one + other) × (e ≡ fault_at self.place reason.Unused)) }
    {
        if one != 0 || other != 0 {
            return Err(self.refuse(Reason::Unused));
        }
        Ok(())
    }

    // The numbers of the word are in their ranges.
    pub(crate) fn ranged(self, fits: bool) -> Result<(), Fault>
        ensures { MatchResult result (λ _. fits ≡ true) (λ e. (fits ≡ false) × (e ≡ fault_at self.place reason.Range)) }
    {
        if !fits {
            return Err(self.refuse(Reason::Range));
        }
        Ok(())
    }
}
