// Choices between words or signs: a table for each.
ghost use Rattle.vtl_grammar.specs.Words.{roles, group_words, directions, exists_rows, fill_spans, rows_outputs, check_outputs, modes, hierarchy_inputs, hierarchy_outputs, check_inputs, relations, plus_or_minus, sorts};

use crate::mark::Mark;
use vtl_syntax::words::{
    CheckInput, CheckOutput, Direction, ExistsRows, FillSpan, GroupWord, HierarchyInput,
    HierarchyOutput, ItemRole, Mode, Relation, RowsOutput, Sign, Sort,
};
use vtl_tokens::{Keyword, Sign as SignToken};

/// A choice between words or signs. Reading and spelling go by this table alone.
pub trait Choice: Copy + 'static {
    ghost use Rattle.std.specs.Prelude.{◌≡◌, ◌∷◌};
    ghost use Rattle.vtl_grammar.specs.Words.{Words, mark_of};

    ghost words: { Words Self };

    /// The word or the sign that writes it.
    fn mark(self) -> Mark
        ensures { mark_of result ≡ words.marked self };

    /// All of them, in the order in which the grammar has them.
    fn all() -> &'static [Self]
        ensures { result.now ≡ words.first ∷ words.others };
}

impl Choice for ItemRole {
    ghost words = { roles };

    fn mark(self) -> Mark {
        match self {
            ItemRole::Measure => Mark::Word(Keyword::Measure),
            ItemRole::Attribute => Mark::Word(Keyword::Attribute),
        }
    }

    fn all() -> &'static [Self] {
        &[ItemRole::Measure, ItemRole::Attribute]
    }
}

impl Choice for GroupWord {
    ghost words = { group_words };

    fn mark(self) -> Mark {
        match self {
            GroupWord::By => Mark::Word(Keyword::By),
            GroupWord::Except => Mark::Word(Keyword::Except),
        }
    }

    fn all() -> &'static [Self] {
        &[GroupWord::By, GroupWord::Except]
    }
}

impl Choice for Direction {
    ghost words = { directions };

    fn mark(self) -> Mark {
        match self {
            Direction::Ascending => Mark::Word(Keyword::Asc),
            Direction::Descending => Mark::Word(Keyword::Desc),
        }
    }

    fn all() -> &'static [Self] {
        &[Direction::Ascending, Direction::Descending]
    }
}

impl Choice for ExistsRows {
    ghost words = { exists_rows };

    fn mark(self) -> Mark {
        match self {
            ExistsRows::All => Mark::Word(Keyword::All),
            ExistsRows::True => Mark::Word(Keyword::True),
            ExistsRows::False => Mark::Word(Keyword::False),
        }
    }

    fn all() -> &'static [Self] {
        &[ExistsRows::All, ExistsRows::True, ExistsRows::False]
    }
}

impl Choice for FillSpan {
    ghost words = { fill_spans };

    fn mark(self) -> Mark {
        match self {
            FillSpan::All => Mark::Word(Keyword::All),
            FillSpan::Single => Mark::Word(Keyword::Single),
        }
    }

    fn all() -> &'static [Self] {
        &[FillSpan::All, FillSpan::Single]
    }
}

impl Choice for RowsOutput {
    ghost words = { rows_outputs };

    fn mark(self) -> Mark {
        match self {
            RowsOutput::Invalid => Mark::Word(Keyword::Invalid),
            RowsOutput::All => Mark::Word(Keyword::All),
            RowsOutput::AllMeasures => Mark::Word(Keyword::AllMeasures),
        }
    }

    fn all() -> &'static [Self] {
        &[
            RowsOutput::Invalid,
            RowsOutput::All,
            RowsOutput::AllMeasures,
        ]
    }
}

impl Choice for CheckOutput {
    ghost words = { check_outputs };

    fn mark(self) -> Mark {
        match self {
            CheckOutput::All => Mark::Word(Keyword::All),
            CheckOutput::Invalid => Mark::Word(Keyword::Invalid),
        }
    }

    fn all() -> &'static [Self] {
        &[CheckOutput::All, CheckOutput::Invalid]
    }
}

impl Choice for Mode {
    ghost words = { modes };

    fn mark(self) -> Mark {
        match self {
            Mode::NonNull => Mark::Word(Keyword::NonNull),
            Mode::NonZero => Mark::Word(Keyword::NonZero),
            Mode::PartialNull => Mark::Word(Keyword::PartialNull),
            Mode::PartialZero => Mark::Word(Keyword::PartialZero),
            Mode::AlwaysNull => Mark::Word(Keyword::AlwaysNull),
            Mode::AlwaysZero => Mark::Word(Keyword::AlwaysZero),
        }
    }

    fn all() -> &'static [Self] {
        &[
            Mode::NonNull,
            Mode::NonZero,
            Mode::PartialNull,
            Mode::PartialZero,
            Mode::AlwaysNull,
            Mode::AlwaysZero,
        ]
    }
}

impl Choice for HierarchyInput {
    ghost words = { hierarchy_inputs };

    fn mark(self) -> Mark {
        match self {
            HierarchyInput::Rule => Mark::Word(Keyword::Rule),
            HierarchyInput::Dataset => Mark::Word(Keyword::Dataset),
            HierarchyInput::RulePriority => Mark::Word(Keyword::RulePriority),
        }
    }

    fn all() -> &'static [Self] {
        &[
            HierarchyInput::Rule,
            HierarchyInput::Dataset,
            HierarchyInput::RulePriority,
        ]
    }
}

impl Choice for HierarchyOutput {
    ghost words = { hierarchy_outputs };

    fn mark(self) -> Mark {
        match self {
            HierarchyOutput::Computed => Mark::Word(Keyword::Computed),
            HierarchyOutput::All => Mark::Word(Keyword::All),
        }
    }

    fn all() -> &'static [Self] {
        &[HierarchyOutput::Computed, HierarchyOutput::All]
    }
}

impl Choice for CheckInput {
    ghost words = { check_inputs };

    fn mark(self) -> Mark {
        match self {
            CheckInput::Dataset => Mark::Word(Keyword::Dataset),
            CheckInput::DatasetPriority => Mark::Word(Keyword::DatasetPriority),
        }
    }

    fn all() -> &'static [Self] {
        &[CheckInput::Dataset, CheckInput::DatasetPriority]
    }
}

impl Choice for Relation {
    ghost words = { relations };

    fn mark(self) -> Mark {
        match self {
            Relation::Equal => Mark::Sign(SignToken::Equal),
            Relation::Less => Mark::Sign(SignToken::LessThan),
            Relation::Greater => Mark::Sign(SignToken::GreaterThan),
            Relation::AtMost => Mark::Sign(SignToken::AtMost),
            Relation::AtLeast => Mark::Sign(SignToken::AtLeast),
        }
    }

    fn all() -> &'static [Self] {
        &[
            Relation::Equal,
            Relation::Less,
            Relation::Greater,
            Relation::AtMost,
            Relation::AtLeast,
        ]
    }
}

impl Choice for Sign {
    ghost words = { plus_or_minus };

    fn mark(self) -> Mark {
        match self {
            Sign::Plus => Mark::Sign(SignToken::Plus),
            Sign::Minus => Mark::Sign(SignToken::Minus),
        }
    }

    fn all() -> &'static [Self] {
        &[Sign::Plus, Sign::Minus]
    }
}

impl Choice for Sort {
    ghost words = { sorts };

    fn mark(self) -> Mark {
        match self {
            Sort::Dataset => Mark::Word(Keyword::Dataset),
            Sort::Integer => Mark::Word(Keyword::Integer),
            Sort::Number => Mark::Word(Keyword::Number),
            Sort::Text => Mark::Word(Keyword::String),
            Sort::Truth => Mark::Word(Keyword::Boolean),
        }
    }

    fn all() -> &'static [Self] {
        &[
            Sort::Dataset,
            Sort::Integer,
            Sort::Number,
            Sort::Text,
            Sort::Truth,
        ]
    }
}
