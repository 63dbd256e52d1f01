// What follows from the definitions of judging and of feeds.
ghost use Rattle.std.specs.Prelude.{◌≡◌, ◌<◌, ℕ, List, Ok, IsSome, length};
ghost use Rattle.std.specs.List.{All, Any};
ghost use Rattle.std.specs.FinMap.{get};
ghost use Rattle.vtl_values.specs.Structures.{NamedStructures};
ghost use Rattle.vtl_values.specs.declared.value.Value.{Value};
ghost use Rattle.point_sets.specs.DataSets.{DataSet};
ghost use Rattle.point_sets.specs.declared.revision.Revision.{Revision};
ghost use Rattle.revision_judge.specs.declared.ruling.Ruling.TheVariants.{Fit};
ghost use Rattle.revision_judge.specs.declared.ruling.Share.{Share};
ghost use Rattle.revision_judge.specs.Alone.{NamedByNone};
ghost use Rattle.revision_judge.specs.Judging.{components_of, input, judged};
ghost use Rattle.revision_judge.specs.Shares.{StandsForJudgement, with_shares};
ghost use Rattle.revision_files.specs.Feeds.{feed_of};
ghost use Rattle.feed_laws.specs.Asked.{IsAsAsked, Names, rows_for};
ghost use Rattle.feed_laws.specs.Written.{CanBeWritten, written_feed};

/// Where a revision fits, and the shares that its ruling gives are put in place: of each data set, the key of each row that
/// puts has just the row's values, and the key of each row that removes has no point; a key changes only where a row of a
/// part of this data set names it, and all other keys stay as they were; a data set that no part names stays as it was.
/// Each key in a share is one that such a row names.
pub fn fit_revision_changes_what_its_rows_name()
    ensures keys { (structures : NamedStructures) (inputs : List DataSet) (revision : Revision) (shares : List Share) (n : ℕ) →
        StandsForJudgement inputs (Fit shares) (judged structures inputs revision) → n < length inputs →
        IsAsAsked (components_of structures n) (rows_for structures n revision.parts) (input inputs n) (input (with_shares inputs shares) n) }
    ensures sets { (structures : NamedStructures) (inputs : List DataSet) (revision : Revision) (shares : List Share) (n : ℕ) →
        StandsForJudgement inputs (Fit shares) (judged structures inputs revision) → NamedByNone structures n revision.parts →
        input (with_shares inputs shares) n ≡ input inputs n }
    ensures shares { (structures : NamedStructures) (inputs : List DataSet) (revision : Revision) (shares : List Share) →
        StandsForJudgement inputs (Fit shares) (judged structures inputs revision) →
        All (λ share. (key : List Value) → IsSome (get share.delta key) →
        Any (Names (components_of structures share.set) key) (rows_for structures share.set revision.parts)) shares }
{}

/// A feed that is written by the rules reads back as its revisions. These can be written:
///
/// - each revision has a part at least, since a block begins a revision;
/// - each name of a data set, known or not, is a list of characters, so that it has a UTF-8, without a line feed, at which
///   its line would end, and without blanks at its ends, which are dropped where it is read;
/// - of a known data set the names of the columns differ, none is that of the action, and they are texts of a record: lists
///   of characters in which no line after the first begins with `@`, since a block would start there, in quotes or not;
/// - each row has a field for each component, or in a part of another data set as many fields as the first row, since a
///   row has as many fields as its header; a field that is given has a character at least, since one without is read as
///   an empty one, and is a text of a record;
/// - the limits of a feed are kept: on its blocks, on the rows of each, and on the fields of all rows.
pub fn written_feed_reads_back()
    ensures { (structures : NamedStructures) (revisions : List Revision) → CanBeWritten structures revisions →
        feed_of structures (written_feed structures revisions) ≡ Ok revisions }
{}
