// The ranks of codes, and the highest of several values.
ghost use Rattle.std.specs.Prelude.{◌≡◌, ◌≢◌, AllPairs, All, ◌<◌, length, nat_eq, position, IfSome, IsNone, ◌↔◌};
ghost use Rattle.std.specs.Cmp.Lexicographic.{pointwise};
ghost use Rattle.vtl_values.specs.declared.value.Value.TheVariants.{Null, Text};
ghost use Rattle.viral_attributes.specs.Combination.{IsCodeOrNull, rank, place_of_highest};

use sqlite_items::Items;
use std::marker::Model;
use vtl_values::{Value, Word};

/// The codes of a viral attribute, the lowest rank first. Contracts see them as the list of the codes, which differ.
#[derive(Debug, Drop)]
pub struct Ranks {
    codes: Items<Word>,
}

impl Model for Ranks {
    ghost use Rattle.std.specs.Prelude.{◌≢◌, ℕ, List, AllPairs};

    ghost Value = { List (List ℕ) };

    ghost view = { λ r. r.codes };

    ghost invariant = { λ r. AllPairs (λ a b. a ≢ b) r.codes };
}

impl Ranks {
    /// The ranks of these codes, lowest first.
    pub fn of(codes: Items<Word>) -> Ranks
        requires { AllPairs (λ a b. a ≢ b) codes }
        ensures { result ≡ codes }
    {
        Ranks { codes }
    }

    /// The code list, lowest rank first. Its codes differ.
    pub fn codes(&self) -> &[Word]
        ensures codes { result.now ≡ self.now }
        ensures differ { AllPairs (λ a b. a ≢ b) self.now }
    {
        self.codes.as_slice()
    }

    fn rank(&self, value: &Value) -> usize
        ensures { result ≡ rank self.now value.now }
    {
        match value {
            Value::Text(code) => rank_of(self.codes.as_slice(), code),
            _ => 0,
        }
    }
}

fn rank_of(codes: &[Word], code: &Word) -> usize
    ensures { result ≡ rank codes.now (Text code.now) }
{
    match place_of(codes, code) {
        Some(place) => place + 1,
        None => 0,
    }
}

fn place_of(codes: &[Word], code: &Word) -> Option<usize>
    ensures place { result ≡ position (λ listed. pointwise nat_eq listed code.now) codes.now }
    ensures within { IfSome result (λ place. place < length codes.now) }
{
    codes.iter().position(|listed| listed == code)
}

/// The first place of a value with the highest rank. There is none where all values are null, or where there is no
/// value.
pub fn combine(ranks: &Ranks, values: &[Value]) -> Option<u64>
    requires { All (IsCodeOrNull ranks.now) values.now }
    ensures place { result ≡ place_of_highest ranks.now values.now }
    ensures none { IsNone result ↔ All (λ value. value ≡ Null) values.now }
{
    let mut place = None;
    let mut highest = 0;
    for (i, value) in values.iter().enumerate() {
        let rank = ranks.rank(value);
        if rank > highest {
            highest = rank;
            place = Some(i as u64);
        }
    }
    place
}
