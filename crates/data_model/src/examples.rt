// The definitions worked on small maps over numbers.
ghost use Rattle.std.specs.Prelude.{◌≡◌, [], ◌∷◌, Some, None, nat_eq, nat_lt};
ghost use Rattle.std.specs.Ordering.{nat_cmp};
ghost use Rattle.data_model.specs.Maps.{union};
ghost use Rattle.data_model.specs.Deltas.{Leads, composed, gained, lost};
ghost use Rattle.data_model.specs.Outcomes.{made, outcome, range_at};
ghost use Rattle.data_model.specs.Examples.{changes, points, sum_of};

use crate::POINT_LIMIT;

/// Two maps with one common key: their sum has that key alone, and their union has the left one's
/// point there.
pub fn two_maps()
    ensures sum { sum_of (points ((1, 10) ∷ (2, 20) ∷ [])) (points ((2, 5) ∷ (3, 7) ∷ [])) ≡
        points ((2, 25) ∷ []) }
    ensures union { union (points ((1, 10) ∷ (2, 20) ∷ [])) (points ((2, 5) ∷ (3, 7) ∷ [])) ≡
        points ((1, 10) ∷ (2, 20) ∷ (3, 7) ∷ []) }
{}

/// A delta in which one point changes, one goes and one comes; and two deltas, the second of which
/// brings the first key back to its point.
pub fn deltas()
    ensures leads { Leads (changes ((1, (Some 10, Some 11)) ∷ (2, (Some 20, None)) ∷ (3, (None, Some 30)) ∷ []))
        (points ((1, 10) ∷ (2, 20) ∷ [])) (points ((1, 11) ∷ (3, 30) ∷ [])) }
    ensures gained { gained (changes ((1, (Some 10, Some 11)) ∷ (2, (Some 20, None)) ∷ (3, (None, Some 30)) ∷
        (4, (None, Some 40)) ∷ [])) ≡ 2 }
    ensures lost { lost (changes ((1, (Some 10, Some 11)) ∷ (2, (Some 20, None)) ∷ (3, (None, Some 30)) ∷
        (4, (None, Some 40)) ∷ [])) ≡ 1 }
    ensures composed { composed nat_eq (changes ((1, (Some 10, Some 11)) ∷ (2, (None, Some 20)) ∷ []))
        (changes ((1, (Some 11, Some 10)) ∷ (2, (Some 20, Some 21)) ∷ (3, (Some 30, None)) ∷ [])) ≡
        changes ((2, (None, Some 21)) ∷ (3, (Some 30, None)) ∷ []) }
{}

/// An operator that is evaluated at 1, 3 and 2: where 2 and 3 are out of range the lesser key
/// counts, and where none is, the result is the map.
pub fn outcomes()
    ensures range { outcome {R = nat_cmp} (1 ∷ 3 ∷ 2 ∷ []) (λ k. nat_lt 1 k) (1 ∷ 3 ∷ 2 ∷ [])
        (λ k. Some k) ≡ range_at 2 }
    ensures made { outcome {R = nat_cmp} (1 ∷ 3 ∷ 2 ∷ []) (λ k. nat_lt 3 k) (1 ∷ 2 ∷ [])
        (λ k. Some k) ≡ made (points ((1, 1) ∷ (2, 2) ∷ [])) }
    ensures limit { POINT_LIMIT ≡ 200000 }
{}
