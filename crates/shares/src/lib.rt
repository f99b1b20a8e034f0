// How many journeys of a display each of four groups gets (RULES 12.2), of numbers alone.
#![tactic(auto)]

ghost use Rattle.std.specs.Prelude.{◌≡◌, [], ◌∷◌, ◌+◌, ◌-◌, min};
ghost use Rattle.shares.specs.Shares.{at_first_of, needs, shares_of};

// How many journeys a display shows.
const SHOWN: usize = 64;

fn at_first(n: usize) -> usize
    ensures { result ≡ at_first_of n }
{
    n.min(16)
}

// What a list needs beyond that.
fn needed(n: usize) -> usize
    ensures { result ≡ needs n }
{
    n - at_first(n)
}

// What is left after a list that needs so much.
fn after(left: usize, n: usize) -> usize
    ensures { result ≡ left - needs n }
{
    left.saturating_sub(needed(n))
}

// What a list gets, of what is left when its turn comes.
fn share(left: usize, n: usize) -> usize
    ensures { result ≡ at_first_of n + min left (needs n) }
{
    at_first(n) + left.min(needed(n))
}

// The shares of groups 0 to 3, whose lists are so long; the list of a group that isn't there has length 0.
pub fn shares(lengths: [usize; 4]) -> [usize; 4]
    ensures { result ≡ shares_of lengths }
{
    let [a, b, c, d] = lengths;
    let mut left = SHOWN - (at_first(a) + at_first(b) + at_first(c) + at_first(d));
    lengths.map(|n| {
        let given = share(left, n);
        left = after(left, n);
        given
    })
}
