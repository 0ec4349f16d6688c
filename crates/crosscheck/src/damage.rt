// Lists that make no game, and the first rule that they break.
use crate::listing::Listing;
use crate::random::Random;
use crate::refusal::Refusal;
use game::fault::Reason;
use std::alloc::AllocError;
use systems::line::MoveLine;

impl Listing {
    fn has_shape(&self) -> bool {
        let cells = self.agents.saturating_mul(self.states);
        (1..=6).contains(&self.agents)
            && (1..=1024).contains(&self.states)
            && self.atoms <= 28
            && self.masks.len() == cells
            && self.looks.len() == cells
            && self.marks.len() == self.states
            && self.starts.len() == self.states
            && self.moves.len() <= 4096
    }

    fn has_line(&self, line: &MoveLine) -> bool {
        usize::from(line.state) < self.states
            && usize::from(line.next) < self.states
            && line.covers.iter().all(|cover| *cover < 16)
    }

    // The place of the first bad entry in a list of masks, marks or moves.
    fn bad_entry(&self) -> Option<usize> {
        let limit = 1u64 << self.atoms.min(32);
        self.masks
            .iter()
            .position(|mask| !(1..16).contains(mask))
            .or_else(|| self
                .marks
                .iter()
                .position(|marks| u64::from(*marks) >= limit))
            .or_else(|| self.moves.iter().position(|line| !self.has_line(line)))
    }

    // The first rule that the lists break, at its entry.
    pub(crate) fn broken(&self) -> Result<(), Refusal> {
        if !self.has_shape() {
            return Err(Refusal::at(Reason::Shape, 0));
        }
        if let Some(place) = self.bad_entry() {
            return Err(Refusal::at(Reason::Entry, place));
        }
        if self.starts.iter().all(|start| *start == 0) {
            return Err(Refusal::at(Reason::NoStart, 0));
        }
        Ok(())
    }
}

impl Random {
    // Writes over an entry of a list, if there is one.
    fn overwrite<T: Copy>(&mut self, list: &mut [T], x: T) {
        if let Some(entry) = list.get_mut(self.below(list.len())) {
            *entry = x;
        }
    }

    // Takes the last entry away, or adds one.
    fn stretch<T: Copy>(&mut self, list: &mut Vec<T>, x: T) -> Result<(), AllocError> {
        if self.once_in(2) {
            let _ = list.pop();
        } else {
            list.push(x)?;
        }
        Ok(())
    }

    fn damage_lengths(&mut self, listing: &mut Listing) -> Result<(), AllocError> {
        match self.below(8) {
            0 => self.stretch(&mut listing.masks, 1)?,
            1 => self.stretch(&mut listing.looks, 1)?,
            2 => self.stretch(&mut listing.marks, 0)?,
            3 => self.stretch(&mut listing.starts, 1)?,
            4 => listing.agents = self.below(9),
            5 => listing.states = self.below(12),
            6 => listing.atoms = self.below(40),
            _ => {
                for _ in 0..4090 {
                    listing.moves.push(self.move_line(listing.states))?;
                }
            }
        }
        Ok(())
    }

    fn damage_entry(&mut self, listing: &mut Listing) {
        match self.below(6) {
            0 => self.overwrite(&mut listing.masks, 0),
            1 => {
                let mask = self.byte(256);
                self.overwrite(&mut listing.masks, mask)
            }
            2 => {
                let marks = 1 << self.byte(32);
                self.overwrite(&mut listing.marks, marks)
            }
            3 => {
                let line = self.move_line(listing.states.saturating_add(1));
                self.overwrite(&mut listing.moves, line)
            }
            4 => {
                let mut line = self.move_line(listing.states);
                let agent = self.below(6);
                line.covers[agent] = self.byte(20);
                self.overwrite(&mut listing.moves, line)
            }
            _ => {
                let marks = u32::from(self.byte(16));
                self.overwrite(&mut listing.marks, marks)
            }
        }
    }

    // Damages a listing in some ways.
    pub(crate) fn damage(&mut self, listing: &mut Listing) -> Result<(), AllocError> {
        if self.once_in(5) {
            self.damage_lengths(listing)?;
        }
        for _ in 0..self.below(3) {
            self.damage_entry(listing);
        }
        if self.once_in(4) {
            listing.starts.fill(0);
        }
        Ok(())
    }
}
