// The lesser and the greater of two numbers, a flag as a number, and the number before a number: what std's methods answer, under names
// that were promised and may not go (`at_most`, `greater`, `flag`, `predecessor`). The other crates call the methods.
#![tactic(auto)]

ghost use Rattle.std.specs.Prelude.{◌≡◌, cond, ◌-◌, min, max};

pub fn at_most(x: usize, limit: usize) -> usize
    ensures { result ≡ min x limit }
{
    x.min(limit)
}

pub fn greater(a: u8, b: u8) -> u8
    ensures { result ≡ max a b }
{
    a.max(b)
}

pub fn flag(b: bool) -> u8
    ensures { result ≡ cond b 1 0 }
{
    u8::from(b)
}

// The number before x, and 0 of 0: of a controller or a register, which count from 1, its index in an array.
pub fn predecessor(x: usize) -> usize
    ensures { result ≡ x - 1 }
{
    x.saturating_sub(1)
}
