// The set bits of a number, one after another from the lowest.
ghost use Rattle.std.specs.Prelude.{◌≡◌, ◌<◌, MatchOption};
ghost use Rattle.std.specs.Iterator.{at_most};
ghost use Rattle.glance.specs.Glance.{Lowest, Without};

// The place of the lowest set bit.
pub fn first_place(left: u64) -> usize
    requires { 0 < left }
    ensures { Lowest left result }
{
    u64::trailing_zeros(left) as usize
}

// The number without that bit.
pub fn without_first(left: u64) -> u64
    requires { 0 < left }
    ensures { Without left result }
{
    left & (left - 1)
}

// The places of a number's set bits.
#[derive(Clone, Copy, Drop)]
pub struct Places {
    pub left: u64,
}

impl Iterator for Places {
    type Item = usize;

    ghost next_gives = { λ s r t. MatchOption r ((s.left ≡ 0) × (t.left ≡ 0)) (λ place. Lowest s.left place × Without s.left t.left) };

    ghost remaining = { λ s. at_most s.left };

    fn next(&mut self) -> Option<usize> {
        if self.left == 0 {
            return None;
        }
        let place = first_place(self.left);
        self.left = without_first(self.left);
        Some(place)
    }
}
