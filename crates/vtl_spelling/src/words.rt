// Words and signs with which forms begin or go on: each is one token.
ghost use Rattle.vtl_spelling.specs.Words.{or_kind, comparison_kind, in_kind, sum_kind, product_kind, prefix_kind, unary_kind, round_kind, binary_kind, set_kind, difference_kind, join_kind, aggregate_kind, window_kind, offset_kind, time_kind};

use crate::kinds::FormWord;
use vtl_syntax::words::{
    AggregateFunction, BinaryFunction, Comparison, DifferenceFunction, InSign, JoinFunction,
    OffsetFunction, OrSign, Prefix, ProductSign, RoundFunction, SetFunction, SumSign, TimeFunction,
    UnaryFunction, WindowFunction,
};
use vtl_tokens::{Keyword, Sign, TokenKind};

impl FormWord for OrSign {
    ghost form_word = { or_kind };

    fn kind(&self) -> TokenKind {
        match self {
            OrSign::Or => TokenKind::Reserved(Keyword::Or),
            OrSign::Xor => TokenKind::Reserved(Keyword::Xor),
        }
    }
}

impl FormWord for Comparison {
    ghost form_word = { comparison_kind };

    fn kind(&self) -> TokenKind {
        match self {
            Comparison::Equal => TokenKind::Sign(Sign::Equal),
            Comparison::NotEqual => TokenKind::Sign(Sign::NotEqual),
            Comparison::Less => TokenKind::Sign(Sign::LessThan),
            Comparison::Greater => TokenKind::Sign(Sign::GreaterThan),
            Comparison::AtMost => TokenKind::Sign(Sign::AtMost),
            Comparison::AtLeast => TokenKind::Sign(Sign::AtLeast),
        }
    }
}

impl FormWord for InSign {
    ghost form_word = { in_kind };

    fn kind(&self) -> TokenKind {
        match self {
            InSign::In => TokenKind::Reserved(Keyword::In),
            InSign::NotIn => TokenKind::Reserved(Keyword::NotIn),
        }
    }
}

impl FormWord for SumSign {
    ghost form_word = { sum_kind };

    fn kind(&self) -> TokenKind {
        match self {
            SumSign::Plus => TokenKind::Sign(Sign::Plus),
            SumSign::Minus => TokenKind::Sign(Sign::Minus),
            SumSign::Join => TokenKind::Sign(Sign::Bars),
        }
    }
}

impl FormWord for ProductSign {
    ghost form_word = { product_kind };

    fn kind(&self) -> TokenKind {
        match self {
            ProductSign::Times => TokenKind::Sign(Sign::Star),
            ProductSign::Over => TokenKind::Sign(Sign::Slash),
        }
    }
}

impl FormWord for Prefix {
    ghost form_word = { prefix_kind };

    fn kind(&self) -> TokenKind {
        match self {
            Prefix::Plus => TokenKind::Sign(Sign::Plus),
            Prefix::Minus => TokenKind::Sign(Sign::Minus),
            Prefix::Not => TokenKind::Reserved(Keyword::Not),
        }
    }
}

impl FormWord for UnaryFunction {
    ghost form_word = { unary_kind };

    fn kind(&self) -> TokenKind {
        match self {
            UnaryFunction::Abs => TokenKind::Reserved(Keyword::Abs),
            UnaryFunction::Ceil => TokenKind::Reserved(Keyword::Ceil),
            UnaryFunction::Floor => TokenKind::Reserved(Keyword::Floor),
            UnaryFunction::Trim => TokenKind::Reserved(Keyword::Trim),
            UnaryFunction::Ltrim => TokenKind::Reserved(Keyword::Ltrim),
            UnaryFunction::Rtrim => TokenKind::Reserved(Keyword::Rtrim),
            UnaryFunction::Upper => TokenKind::Reserved(Keyword::Upper),
            UnaryFunction::Lower => TokenKind::Reserved(Keyword::Lower),
            UnaryFunction::Length => TokenKind::Reserved(Keyword::Length),
            UnaryFunction::Isnull => TokenKind::Reserved(Keyword::Isnull),
        }
    }
}

impl FormWord for RoundFunction {
    ghost form_word = { round_kind };

    fn kind(&self) -> TokenKind {
        match self {
            RoundFunction::Round => TokenKind::Reserved(Keyword::Round),
            RoundFunction::Trunc => TokenKind::Reserved(Keyword::Trunc),
        }
    }
}

impl FormWord for BinaryFunction {
    ghost form_word = { binary_kind };

    fn kind(&self) -> TokenKind {
        match self {
            BinaryFunction::Mod => TokenKind::Reserved(Keyword::Mod),
            BinaryFunction::Nvl => TokenKind::Reserved(Keyword::Nvl),
            BinaryFunction::Instr => TokenKind::Reserved(Keyword::Instr),
        }
    }
}

impl FormWord for SetFunction {
    ghost form_word = { set_kind };

    fn kind(&self) -> TokenKind {
        match self {
            SetFunction::Union => TokenKind::Reserved(Keyword::Union),
            SetFunction::Intersect => TokenKind::Reserved(Keyword::Intersect),
        }
    }
}

impl FormWord for DifferenceFunction {
    ghost form_word = { difference_kind };

    fn kind(&self) -> TokenKind {
        match self {
            DifferenceFunction::Setdiff => TokenKind::Reserved(Keyword::Setdiff),
            DifferenceFunction::Symdiff => TokenKind::Reserved(Keyword::Symdiff),
        }
    }
}

impl FormWord for JoinFunction {
    ghost form_word = { join_kind };

    fn kind(&self) -> TokenKind {
        match self {
            JoinFunction::Inner => TokenKind::Reserved(Keyword::InnerJoin),
            JoinFunction::Left => TokenKind::Reserved(Keyword::LeftJoin),
            JoinFunction::Full => TokenKind::Reserved(Keyword::FullJoin),
            JoinFunction::Cross => TokenKind::Reserved(Keyword::CrossJoin),
        }
    }
}

impl FormWord for AggregateFunction {
    ghost form_word = { aggregate_kind };

    fn kind(&self) -> TokenKind {
        match self {
            AggregateFunction::Sum => TokenKind::Reserved(Keyword::Sum),
            AggregateFunction::Avg => TokenKind::Reserved(Keyword::Avg),
            AggregateFunction::Count => TokenKind::Reserved(Keyword::Count),
            AggregateFunction::Min => TokenKind::Reserved(Keyword::Min),
            AggregateFunction::Max => TokenKind::Reserved(Keyword::Max),
            AggregateFunction::Median => TokenKind::Reserved(Keyword::Median),
        }
    }
}

impl FormWord for WindowFunction {
    ghost form_word = { window_kind };

    fn kind(&self) -> TokenKind {
        match self {
            WindowFunction::Sum => TokenKind::Reserved(Keyword::Sum),
            WindowFunction::Avg => TokenKind::Reserved(Keyword::Avg),
            WindowFunction::Count => TokenKind::Reserved(Keyword::Count),
            WindowFunction::Min => TokenKind::Reserved(Keyword::Min),
            WindowFunction::Max => TokenKind::Reserved(Keyword::Max),
            WindowFunction::Median => TokenKind::Reserved(Keyword::Median),
            WindowFunction::FirstValue => TokenKind::Reserved(Keyword::FirstValue),
            WindowFunction::LastValue => TokenKind::Reserved(Keyword::LastValue),
            WindowFunction::RatioToReport => TokenKind::Reserved(Keyword::RatioToReport),
        }
    }
}

impl FormWord for OffsetFunction {
    ghost form_word = { offset_kind };

    fn kind(&self) -> TokenKind {
        match self {
            OffsetFunction::Lag => TokenKind::Reserved(Keyword::Lag),
            OffsetFunction::Lead => TokenKind::Reserved(Keyword::Lead),
        }
    }
}

impl FormWord for TimeFunction {
    ghost form_word = { time_kind };

    fn kind(&self) -> TokenKind {
        match self {
            TimeFunction::FlowToStock => TokenKind::Reserved(Keyword::FlowToStock),
            TimeFunction::StockToFlow => TokenKind::Reserved(Keyword::StockToFlow),
            TimeFunction::PeriodIndicator => TokenKind::Reserved(Keyword::PeriodIndicator),
        }
    }
}
