// What follows from the definitions, for those who build on them.
ghost use Rattle.std.specs.Prelude.{◌≡◌, ℕ, List, Ok, ℤ};
ghost use Rattle.std.specs.Cmp.{IsTotalOrder};
ghost use Rattle.std.specs.FinMap.{IsAntisymmetric};
ghost use Rattle.vtl_values.specs.declared.kind.Kind.{Kind};
ghost use Rattle.vtl_values.specs.declared.value.Value.{Value};
ghost use Rattle.vtl_values.specs.Numerals.{number_of, SpellsNumber};
ghost use Rattle.vtl_values.specs.Order.{value_cmp, key_cmp};
ghost use Rattle.vtl_values.specs.Ranges.{IsNumber};
ghost use Rattle.vtl_values.specs.Texts.{value_of, text_of, Fits};

/// A value that fits a kind is read back as itself, and what is read fits its kind.
pub fn written_values_are_read_back()
    ensures read_back { (kind : Kind) (value : Value) → Fits kind value → value_of kind (text_of value) ≡ Ok value }
    ensures fits { (kind : Kind) (text : List ℕ) (value : Value) → value_of kind text ≡ Ok value → Fits kind value }
{}

/// A text is read as a number just where it spells that number.
pub fn numbers_are_spelled()
    ensures spelled { (text : List ℕ) (millionths : ℤ) → number_of text ≡ Ok millionths → SpellsNumber text millionths }
    ensures read { (text : List ℕ) (millionths : ℤ) → SpellsNumber text millionths → IsNumber millionths → number_of text ≡ Ok millionths }
{}

/// Values and keys have one total order, in which only equal ones tie.
pub fn values_are_ordered()
    ensures values { IsTotalOrder value_cmp }
    ensures value_ties { IsAntisymmetric value_cmp }
    ensures keys { IsTotalOrder key_cmp }
    ensures key_ties { IsAntisymmetric key_cmp }
{}
