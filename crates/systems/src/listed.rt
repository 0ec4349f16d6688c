// A listed game: lists that the check accepts.
ghost use Rattle.std.specs.Prelude.{◌≡◌, true, nat_lt};
ghost use Rattle.std.specs.List.{list_all};
ghost use Rattle.systems.specs.Lists.{accepted};

use crate::lists::Lists;

#[derive(Clone, Copy)]
pub struct Game<'a> {
    pub lists: Lists<'a>,
    ghost fine: { accepted lists ≡ true },
    ghost narrow: { list_all (λ v. nat_lt v 65536) lists.looks.now ≡ true },
}
