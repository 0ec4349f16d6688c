// Small cases at random: what the proved code answers against a second, plain reading of the same lists.
#![tactic(auto)]

mod ask;
mod calls;
mod counts;
mod crew;
mod damage;
mod file;
mod files;
mod goal_word;
mod hiring;
mod kind;
mod listing;
mod places;
mod plain;
mod questions;
mod random;
mod readings;
mod refusal;
mod second;
mod second_reader;
mod session;
mod sets;
mod settled;
mod sheet;
mod source;
mod tally;
mod turns;
mod words;

use crate::calls::compare_calls;
use crate::files::compare_files;
use crate::random::Random;
use crate::readings::compare_readings;
use std::io;

fn main(rt: HostRuntime) -> io::Result<()> {
    let mut random = Random::new(rt.alloc(), 20260);
    compare_readings(&rt, &mut random)?;
    compare_calls(&rt, &mut random)?;
    compare_files(&rt, &mut random)
}
