// A number of copies that can be asked for.
ghost use Rattle.std.specs.Prelude.{◌≡◌, ◌<◌, if◌then◌else◌, Some, None, nat_eq};

use std::marker::Model;

// From 1 to 255 copies. Clauses see the number. Not the library's NonZeroU8: a number of copies is a type of its own, so
// that no other number stands in for it.
#[derive(Clone, Copy, Debug, PartialEq, Eq)]
pub struct Copies {
    count: u8,
}

impl Model for Copies {
    ghost use Rattle.std.specs.Prelude.{ℕ, ◌<◌};

    ghost Value = { ℕ };

    ghost view = { λ c. c.count };

    ghost invariant = { λ c. 0 < c.count };

    ghost inverse = { λ n. record { count = n } };
}

// `new` and `count` stand as `new` and `get` do in Rust's NonZero: there is one ground to answer None, and an error of
// `TryFrom` would tell no more.
impl Copies {
    pub fn one() -> Copies
        ensures { result ≡ 1 }
    {
        Copies { count: 1 }
    }

    // So many copies; None where there are none.
    pub fn new(count: u8) -> Option<Copies>
        ensures { result ≡ (if nat_eq count 0 then None else Some count) }
    {
        if count == 0 {
            return None;
        }
        Some(Copies { count })
    }

    pub fn count(self) -> u8
        ensures count { result ≡ self }
        ensures some { 0 < result }
    {
        self.count
    }
}
