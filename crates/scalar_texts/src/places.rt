// The places of characters in a text.
ghost use Rattle.std.specs.Prelude.{◌≡◌, ◌<◌, ◌≤◌, ◌^◌, ◌↔◌, ℕ, pos, ◌<ℤ◌, IfOk, string_bytes, chars};
ghost use Rattle.std.specs.Prelude.{length as count_of};
ghost use Rattle.scalar_texts.specs.Places.{substring, place_of, StandsAt};

use std::alloc::{AllocError, Global};

/// `length` of VTL: the number of characters.
pub fn length(s: &str) -> u64
    ensures { result ≡ count_of (chars s.now) }
{
    s.chars().count() as u64
}

/// `substr` of VTL: the characters at the places `q` from 1 with `start <= q` and, where there is a length,
/// `q < start + length`.
pub fn substr(alloc: Global, s: &str, start: i64, length: Option<i64>) -> Result<String, AllocError>
    ensures { IfOk result (λ t. chars (string_bytes t) ≡ substring (chars s.now) start length) }
{
    let start = i128::from(start);
    let passed = places_below(start);
    match length {
        None => s.chars().skip(passed).collect(alloc),
        Some(length) => {
            let seen = places_below(start + i128::from(length));
            s.chars().take(seen).skip(passed).collect(alloc)
        }
    }
}

// How many places, from 1 on, lie below the bound.
fn places_below(bound: i128) -> usize
    requires { bound <ℤ pos (2 ^ 64) }
    ensures { (place : ℕ) → 0 < place → (place ≤ result) ↔ (pos place <ℤ bound) }
{
    bound.max(1) as usize - 1
}

/// `instr` of VTL: the least place, from 1, at which `part` stands, 0 if it stands at none. The empty text stands at 1.
pub fn instr(s: &str, part: &str) -> u64
    ensures value { result ≡ place_of (chars s.now) (chars part.now) }
    ensures stands { 0 < result → StandsAt (chars s.now) (chars part.now) result }
    ensures least { (place : ℕ) → StandsAt (chars s.now) (chars part.now) place → (0 < result) × (result ≤ place) }
{
    match s.find(part) {
        None => 0,
        Some(at) => length(&s[..at]) + 1,
    }
}
