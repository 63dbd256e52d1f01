// Each operator on small data sets.
ghost use Rattle.std.specs.Prelude.{◌≡◌, [], ◌∷◌, true, false, codes, pos, Some, None};
ghost use Rattle.vtl_values.specs.declared.kind.Kind.TheVariants.{Truth, Integer, Number, Text};
ghost use Rattle.vtl_values.specs.declared.kind.Role.TheVariants.{Identifier, Measure};
ghost use Rattle.vtl_syntax.specs.declared.words.RoundFunction.TheVariants as rounding;
ghost use Rattle.scalar_trees.specs.declared.operators.BinaryOperator.TheVariants as binary;
ghost use Rattle.scalar_trees.specs.declared.operators.UnaryOperator.TheVariants as unary;
ghost use Rattle.scalar_trees.specs.declared.typing.stop.Fault.TheVariants.{UnknownComponent, WrongType, WrongStructure, NameTwice, BadConstant};
ghost use Rattle.data_set_trees.specs.clauses.After.{made};
ghost use Rattle.data_set_trees.specs.declared.form.Form.TheVariants as form;
ghost use Rattle.data_set_trees.specs.declared.tree.SetOperation.TheVariants.{Union};
ghost use Rattle.data_set_trees.specs.Pairs.{lifted};
ghost use Rattle.data_set_trees.specs.Members.{member_typed};
ghost use Rattle.data_set_trees.specs.Exists.{exists_typed};
ghost use Rattle.data_set_trees.specs.Sets.{sets_typed};
ghost use Rattle.data_set_trees.specs.Checks.{check_structure, is_imbalance_of, tells};
ghost use Rattle.data_set_trees.specs.Choices.{choice_typed};
ghost use Rattle.data_set_trees.specs.Examples.{here, id, year, amount, status, amounts, by_year, by_codes, tested, A, B, C, D, E, T, F, three, half, abc, is_set, has_fault};

/// `A + 3` has the structure of A, `A > 3` has `bool_var`, and `length(T)` has `int_var`. Of C a note goes and the status
/// stays. A text has no sum. E's status has the name that a comparison would give, and 7 digits are too many.
pub fn one_data_set()
    ensures sum { is_set (lifted (form.Binary binary.Plus) here (A ∷ three ∷ [])) amounts }
    ensures compared { is_set (lifted (form.Binary binary.Greater) here (A ∷ three ∷ [])) (id ∷ made Measure Truth (codes "bool_var") ∷ []) }
    ensures length { is_set (lifted (form.Unary unary.Length) here (T ∷ [])) (id ∷ made Measure Integer (codes "int_var") ∷ []) }
    ensures viral { is_set (lifted (form.Binary binary.Times) here (half ∷ C ∷ [])) (id ∷ year ∷ amount ∷ status ∷ []) }
    ensures text { has_fault (lifted (form.Binary binary.Plus) here (T ∷ three ∷ [])) WrongType }
    ensures constant { has_fault (lifted (form.Binary binary.Plus) here (A ∷ abc ∷ [])) WrongType }
    ensures twice { has_fault (lifted (form.Binary binary.Less) here (E ∷ three ∷ [])) NameTwice }
    ensures digits { has_fault (lifted (form.Round rounding.Trunc (Some (pos 7))) here (A ∷ [])) BadConstant }
{}

/// `A + B` has the structure of both, and `A + C` the identifiers of C. The text of T is told before its name, which no
/// measure of A has. The costs of D have another name, so they are compared with A and not added; and neither C nor D
/// has all identifiers of the other.
pub fn two_data_sets()
    ensures alike { is_set (lifted (form.Binary binary.Plus) here (A ∷ B ∷ [])) amounts }
    ensures larger { is_set (lifted (form.Binary binary.Plus) here (A ∷ C ∷ [])) (id ∷ year ∷ amount ∷ status ∷ []) }
    ensures text { has_fault (lifted (form.Binary binary.Plus) here (A ∷ T ∷ [])) WrongType }
    ensures names { has_fault (lifted (form.Binary binary.And) here (F ∷ C ∷ [])) WrongType }
    ensures measures { has_fault (lifted (form.Binary binary.Plus) here (A ∷ D ∷ [])) WrongStructure }
    ensures compared { is_set (lifted (form.Binary binary.Less) here (A ∷ D ∷ [])) (id ∷ made Identifier Text (codes "Other") ∷ made Measure Truth (codes "bool_var") ∷ []) }
    ensures identifiers { has_fault (lifted (form.Binary binary.Less) here (C ∷ D ∷ [])) WrongStructure }
    ensures many { has_fault (lifted form.Replace here (T ∷ T ∷ [])) WrongStructure }
{}

/// `C#Me` is the amount alone, `C#Note` a text of the name `string_var`, and there is no `A#Note`.
pub fn members()
    ensures measure { is_set (member_typed (codes "Me") here C) (id ∷ year ∷ amount ∷ status ∷ []) }
    ensures attribute { is_set (member_typed (codes "Note") here C) (id ∷ year ∷ made Measure Text (codes "string_var") ∷ status ∷ []) }
    ensures unknown { has_fault (member_typed (codes "Note") here A) UnknownComponent }
    ensures scalar { has_fault (member_typed (codes "Me") here three) WrongStructure }
{}

/// `exists_in(C, A)` has C's identifiers and status; `union(C, C)` has the note too, and `union(A, C)` is refused.
pub fn sets()
    ensures exists { is_set (exists_typed None here C A) (id ∷ year ∷ made Measure Truth (codes "bool_var") ∷ status ∷ []) }
    ensures scalar { has_fault (exists_typed None here C three) WrongStructure }
    ensures union { is_set (sets_typed Union here (C ∷ C ∷ [])) by_year }
    ensures unlike { has_fault (sets_typed Union here (A ∷ C ∷ [])) WrongStructure }
{}

/// `if F then A else 3` has A's amount, which stays a number; a text doesn't agree with it. A number is no condition,
/// and two scalars have no measure to stand in.
pub fn choices()
    ensures number { is_set (choice_typed here F A three) amounts }
    ensures text { has_fault (choice_typed here F A abc) WrongType }
    ensures condition { has_fault (choice_typed here A A B) WrongType }
    ensures scalars { has_fault (choice_typed here F three half) WrongStructure }
{}

/// What is checked has the one measure `bool_var`. Without an imbalance the result has a number for it, and with one its
/// kind and its viral attributes too.
pub fn checks()
    ensures tells { tells tested ≡ true }
    ensures other { tells amounts ≡ false }
    ensures fits { is_imbalance_of tested by_codes ≡ true }
    ensures identifiers { is_imbalance_of tested by_year ≡ false }
    ensures plain { check_structure tested None ≡ id ∷ made Measure Truth (codes "bool_var") ∷ made Measure Number (codes "imbalance") ∷ made Measure Text (codes "errorcode") ∷ made Measure Integer (codes "errorlevel") ∷ [] }
    ensures imbalanced { check_structure tested (Some by_codes) ≡ id ∷ made Measure Truth (codes "bool_var") ∷ made Measure Integer (codes "imbalance") ∷ made Measure Text (codes "errorcode") ∷ made Measure Integer (codes "errorlevel") ∷ status ∷ [] }
{}
