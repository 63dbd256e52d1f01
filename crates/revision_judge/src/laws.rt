// What follows from the definitions, for those who build on them.
ghost use Rattle.std.specs.Prelude.{◌≡◌, ◌<◌, ◌≤◌, ◌++◌, ◌∷◌, [], ℕ, List, Some, length, slice_get};
ghost use Rattle.std.specs.List.{All};
ghost use Rattle.vtl_values.specs.declared.structure.Component.{Component};
ghost use Rattle.vtl_values.specs.Structures.{NamedStructures, IsStructure, number_of};
ghost use Rattle.point_sets.specs.DataSets.{DataSet};
ghost use Rattle.point_sets.specs.declared.revision.Part.{Part};
ghost use Rattle.point_sets.specs.declared.revision.RawField.{RawField};
ghost use Rattle.point_sets.specs.declared.revision.Revision.{Revision};
ghost use Rattle.revision_judge.specs.declared.ruling.Refusal.{Refusal as RefusalOfRow};
ghost use Rattle.revision_judge.specs.declared.ruling.Ruling.TheVariants as told;
ghost use Rattle.revision_judge.specs.Fields.{cells, key_cells, rest_cells};
ghost use Rattle.revision_judge.specs.declared.ruling.Share.{Share};
ghost use Rattle.revision_judge.specs.Judging.{Fit, Refused, AreInputs, judged, inputs_then, inputs_after};
ghost use Rattle.revision_judge.specs.Shares.{StandsForJudgement, with_shares};
ghost use Rattle.revision_judge.specs.Alone.{NamedByNone, judged_alone};

/// A structure's identifiers stand first, so where the key is read before the other values the fields are looked at in
/// structure order.
pub fn fields_are_read_in_structure_order()
    ensures { (components : List Component) (fields : List RawField) → IsStructure components →
        cells components fields ≡ key_cells components fields ++ rest_cells components fields }
{}

/// Inputs stay inputs: what an accepted revision leaves are data sets of their structures within the limit of points, and
/// those that no part names stay.
pub fn accepted_revision_leaves_inputs()
    ensures inputs { (structures : NamedStructures) (inputs : List DataSet) (revision : Revision) (nexts : List DataSet) →
        AreInputs structures inputs → judged structures inputs revision ≡ Fit nexts → AreInputs structures nexts }
    ensures others { (structures : NamedStructures) (inputs : List DataSet) (revision : Revision) (nexts : List DataSet) (n : ℕ) →
        judged structures inputs revision ≡ Fit nexts → NamedByNone structures n revision.parts →
        slice_get nexts n ≡ slice_get inputs n }
{}

/// A revision without parts fits and changes nothing. One of one part is judged by its rows alone: it is refused as they
/// are, or its data set is that after them and all others stay.
pub fn short_revisions_are_judged_by_their_rows()
    ensures none { (structures : NamedStructures) (inputs : List DataSet) →
        judged structures inputs (record { parts = [] }) ≡ Fit inputs }
    ensures one { (structures : NamedStructures) (inputs : List DataSet) (part : Part) (n : ℕ) →
        number_of structures part.set ≡ Some n → n < length inputs →
        judged structures inputs (record { parts = part ∷ [] }) ≡ judged_alone structures inputs part.rows n }
{}

/// A refused revision is refused in one of its parts.
pub fn refused_revision_tells_its_part()
    ensures { (structures : NamedStructures) (inputs : List DataSet) (revision : Revision) (refusal : RefusalOfRow) →
        judged structures inputs revision ≡ Refused refusal →
        (1 ≤ refusal.part) × (refusal.part ≤ length revision.parts) }
{}

/// After any revisions there is a data set of each structure, within the limit of points.
pub fn inputs_after_revisions_are_inputs()
    ensures one_more { (structures : NamedStructures) (inputs : List DataSet) (revision : Revision) →
        AreInputs structures inputs → AreInputs structures (inputs_then structures inputs revision) }
    ensures all { (structures : NamedStructures) (revisions : List Revision) →
        AreInputs structures (inputs_after structures revisions) }
{}

/// What the judge answers tells the inputs after the revision: those with the shares put in place, or the same.
pub fn answer_tells_the_inputs()
    ensures below { (structures : NamedStructures) (inputs : List DataSet) (revision : Revision) (shares : List Share) →
        StandsForJudgement inputs (told.Fit shares) (judged structures inputs revision) →
        All (λ share. share.set < length inputs) shares }
    ensures fit { (structures : NamedStructures) (inputs : List DataSet) (revision : Revision) (shares : List Share) →
        StandsForJudgement inputs (told.Fit shares) (judged structures inputs revision) →
        inputs_then structures inputs revision ≡ with_shares inputs shares }
    ensures refused { (structures : NamedStructures) (inputs : List DataSet) (revision : Revision) (refusal : RefusalOfRow) →
        StandsForJudgement inputs (told.Refused refusal) (judged structures inputs revision) →
        inputs_then structures inputs revision ≡ inputs }
{}
