// What a system comes from: lists, or the bytes of a procedure file.
use crate::crew::Crew;
use crate::file::{bytes_of, system_of, words_of};
use crate::listing::Listing;
use crate::plain::Plain;
use crate::questions::{Asked, first_otherwise};
use crate::random::Random;
use crate::session::Session;
use boards::Board;
use std::alloc::{AllocError, Global};
use systems::listed_system::open;

pub trait Source {
    // The first question that the system answers otherwise.
    fn first_otherwise(&self, plain: &Plain, random: &mut Random) -> Option<Asked>;

    // The first call of a session to which a case of the system says something else.
    fn replay<B: Board + Drop>(&self, heap: Global, board: B, session: &Session) -> Option<usize>;
}

impl Source for Listing {
    fn first_otherwise(&self, plain: &Plain, random: &mut Random) -> Option<Asked> {
        first_otherwise(&open(&self.lists()), plain, random)
    }

    fn replay<B: Board + Drop>(&self, _heap: Global, board: B, session: &Session) -> Option<usize> {
        session.replay(open(&self.lists()), board)
    }
}

// The procedure file of an agents' system.
#[derive(Drop)]
pub struct File(Vec<u8>);

impl Crew {
    pub(crate) fn file(&self, heap: Global) -> Result<File, AllocError> {
        Ok(File(bytes_of(heap, &words_of(heap, self, &[])?)?))
    }
}

impl Source for File {
    // A file that is not read has no sizes.
    fn first_otherwise(&self, plain: &Plain, random: &mut Random) -> Option<Asked> {
        match system_of(random.heap, &self.0) {
            Some(system) => first_otherwise(&system, plain, random),
            None => Some(Asked::Sizes),
        }
    }

    // A file that is not read differs from the first call on.
    fn replay<B: Board + Drop>(&self, heap: Global, board: B, session: &Session) -> Option<usize> {
        match system_of(heap, &self.0) {
            Some(system) => session.replay(system, board),
            None => Some(0),
        }
    }
}
