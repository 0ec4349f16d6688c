// Counting: how often something came, and what differs.
use crate::refusal::{Refusal, number_of};
use game::fault::Reason;
use std::num::Wrapping;
use std::{fmt, io};

// How often each number below 64 came.
#[derive(Drop)]
pub struct Counts {
    counts: [Wrapping<usize>; 64],
}

impl Counts {
    pub(crate) fn new() -> Counts {
        Counts {
            counts: [Wrapping(0); 64],
        }
    }

    pub(crate) fn add(&mut self, number: u8) {
        if let Some(count) = self.counts.get_mut(usize::from(number)) {
            *count += 1;
        }
    }

    pub(crate) fn of(&self, number: usize) -> usize {
        self.counts.get(number).map_or(0, |count| count.0)
    }

    pub(crate) fn total(&self) -> usize {
        self.counts.iter().sum::<Wrapping<usize>>().0
    }
}

// The numbers that came.
impl fmt::Display for Counts {
    fn fmt<W: fmt::Write>(&self, f: &mut fmt::Formatter<W>) -> fmt::Result {
        for (number, count) in self.counts.iter().enumerate() {
            let count = count.0;
            if count > 0 {
                write!(f, " {number}: {count}")?;
            }
        }
        Ok(())
    }
}

// How much was accepted, and how often something was refused, for reasons that are all printed.
#[derive(Drop)]
pub struct Outcomes<'a> {
    reasons: &'a [Reason],
    accepted: Wrapping<usize>,
    refusals: Counts,
}

impl<'a> Outcomes<'a> {
    pub(crate) fn new(reasons: &'a [Reason]) -> Outcomes<'a> {
        Outcomes {
            reasons,
            accepted: Wrapping(0),
            refusals: Counts::new(),
        }
    }

    pub(crate) fn add(&mut self, refusal: Option<Refusal>) {
        match refusal {
            Some(refusal) => self.refusals.add(refusal.number),
            None => self.accepted += 1,
        }
    }
}

impl fmt::Display for Outcomes<'_> {
    fn fmt<W: fmt::Write>(&self, f: &mut fmt::Formatter<W>) -> fmt::Result {
        let accepted = self.accepted.0;
        write!(f, "{accepted}")?;
        for reason in self.reasons {
            let number = number_of(*reason);
            let count = self.refusals.of(usize::from(number));
            write!(f, ", {number}: {count}")?;
        }
        Ok(())
    }
}

// How many answers differ.
#[derive(Drop)]
pub struct Differences(Wrapping<usize>);

impl Differences {
    pub(crate) fn new() -> Self {
        Differences(Wrapping(0))
    }

    // Notes a difference, and shows the first.
    pub(crate) fn note<F: FnOnce() -> io::Result<()> + Drop>(&mut self, show: F) -> io::Result<()>
        requires { F.IsAlwaysCallable show }
    {
        if self.0 == Wrapping(0) {
            show()?;
        }
        self.0 += 1;
        Ok(())
    }
}

impl fmt::Display for Differences {
    fn fmt<W: fmt::Write>(&self, f: &mut fmt::Formatter<W>) -> fmt::Result {
        let count = self.0.0;
        write!(f, "{count} differ")
    }
}
