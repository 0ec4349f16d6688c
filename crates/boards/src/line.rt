// One row of change points. It is a part of the memory that a board was handed, lent for one change: a struct of its own round that
// loan, with the rise as its invariant, would be no plainer than the clause `rise`.
ghost use Rattle.std.specs.Prelude.{◌≡◌, ℕ, ◌+◌, ◌-◌, ◌<◌, ◌≤◌, not, [], ◌∷◌, ◌++◌, length, take, replicate, if◌then◌else◌, nat_eq, nat_le};
ghost use Rattle.std.specs.List.{insert, remove};
ghost use Rattle.boards.specs.Points.{member, Rise};

// Takes the number at `i` out, moves those above it down, and ends with `last`.
fn take_out(row: &mut [u16], i: usize, last: u16)
    requires { i < length row.old }
    ensures { row.new ≡ remove row.old i ++ last ∷ [] }
{
    row[i] = last;
    row[i..].rotate_left(1);
}

// Puts `point` in at `i`, moves those from there on up, and lets the last one go.
fn put_in(row: &mut [u16], i: usize, point: u16)
    requires { i < length row.old }
    ensures { row.new ≡ take (length row.old) (insert row.old i point) }
{
    let last = row.len() - 1;
    row[last] = point;
    row[i..].rotate_right(1);
}

// Whether the state is a member.
pub(crate) fn holds(row: &[u16], n: u16, state: u16) -> bool
    requires rise { Rise n row.now }
    requires known { state < n }
    ensures { result ≡ member row.now state }
{
    match row.binary_search(&state) {
        Ok(i) => i % 2 == 0,
        Err(i) => i % 2 == 1,
    }
}

// Turns the membership of every state from `point` on.
fn toggle(row: &mut [u16], n: u16, point: u16)
    requires rise { Rise n row.old }
    requires known { point ≤ n }
    ensures rise { Rise n row.new }
    ensures turned { (t : ℕ) → t < n → member row.new t ≡ (if nat_le point t then not (member row.old t) else member row.old t) }
{
    match row.binary_search(&point) {
        Ok(i) => take_out(row, i, n),
        Err(i) => put_in(row, i, point),
    }
}

// Turns the membership of one state: where only the edge of a run shifts, one number changes.
fn flip(row: &mut [u16], n: u16, state: u16)
    requires rise { Rise n row.old }
    requires known { state < n }
    ensures rise { Rise n row.new }
    ensures turned { (t : ℕ) → t < n → member row.new t ≡ (if nat_eq t state then not (member row.old t) else member row.old t) }
{
    match row.binary_search(&state) {
        Ok(i) if row[i + 1] != state + 1 => row[i] = state + 1,
        Err(above) if row[above] == state + 1 => row[above] = state,
        _ => {
            toggle(row, n, state);
            toggle(row, n, state + 1);
        }
    }
}

// Makes one state a member, or none.
pub(crate) fn assign(row: &mut [u16], n: u16, state: u16, to: bool)
    requires rise { Rise n row.old }
    requires known { state < n }
    ensures rise { Rise n row.new }
    ensures turned { (t : ℕ) → t < n → member row.new t ≡ (if nat_eq t state then to else member row.old t) }
{
    if holds(row, n, state) != to {
        flip(row, n, state);
    }
}
