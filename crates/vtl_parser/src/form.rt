// The forms of expressions, by the word or the sign with which one begins or goes on.
ghost use Rattle.std.specs.Prelude.{◌≡◌, option_map};
ghost use Rattle.vtl_grammar.specs.Marks.{key, sign, mark_in};
ghost use Rattle.vtl_grammar.specs.Forms.{form_of, tail_of};
ghost use Rattle.vtl_grammar.specs.Reading.{form_at, tail_at};
ghost use Rattle.vtl_parser.specs.Forms.{prefix_form, suffix_tail, window_of};

use vtl_syntax::words::{
    AggregateFunction, BinaryFunction, Comparison, DifferenceFunction, InSign, JoinFunction,
    OffsetFunction, OrSign, Prefix, ProductSign, RoundFunction, SetFunction, SumSign, TimeFunction,
    UnaryFunction, WindowFunction,
};
use vtl_tokens::{Keyword, Sign, TokenKind};

/// What begins an expression and is no name and no literal.
#[derive(Clone, Copy)]
pub enum PrefixForm {
    If,
    Bracket,
    Signed(Prefix),
    One(OneOperand),
    Two(TwoOperands),
    Substr,
    Replace,
    Sets(SetFunction),
    Join(JoinFunction),
    Aggregate(AggregateFunction),
    Count,
    Rank,
    Check,
}

/// Calls of one operand, with no other expression in them.
#[derive(Clone, Copy)]
pub enum OneOperand {
    Unary(UnaryFunction),
    Round(RoundFunction),
    Between,
    MatchCharacters,
    Window(WindowFunction),
    Offset(OffsetFunction),
    Time(TimeFunction),
    Timeshift,
    FillTimeSeries,
    CheckDatapoint,
    Hierarchy,
    CheckHierarchy,
}

/// Calls of two operands, with no other expression in them.
#[derive(Clone, Copy)]
pub enum TwoOperands {
    Binary(BinaryFunction),
    Difference(DifferenceFunction),
    ExistsIn,
}

/// What goes on after an expression.
#[derive(Clone, Copy)]
pub enum SuffixForm {
    Infix(Infix),
    In(InSign),
    /// `(`
    Call,
    /// `#`
    Member,
    /// `[`
    Clause,
}

/// A word or a sign between two operands.
#[derive(Clone, Copy)]
pub enum Infix {
    Or(OrSign),
    And,
    Compare(Comparison),
    Sum(SumSign),
    Product(ProductSign),
}

/// The window of the same name.
pub fn window_of(function: AggregateFunction) -> WindowFunction
    ensures { result ≡ window_of function }
{
    match function {
        AggregateFunction::Sum => WindowFunction::Sum,
        AggregateFunction::Avg => WindowFunction::Avg,
        AggregateFunction::Count => WindowFunction::Count,
        AggregateFunction::Min => WindowFunction::Min,
        AggregateFunction::Max => WindowFunction::Max,
        AggregateFunction::Median => WindowFunction::Median,
    }
}

/// What begins with that token.
pub fn prefix_form_of(kind: &TokenKind) -> Option<PrefixForm>
    ensures { option_map prefix_form result ≡ form_at (mark_in kind.now) }
{
    match kind {
        TokenKind::Reserved(word) => prefix_form_of_word(*word),
        TokenKind::Sign(mark) => prefix_form_of_sign(*mark),
        _ => None,
    }
}

fn prefix_form_of_sign(mark: Sign) -> Option<PrefixForm>
    ensures { option_map prefix_form result ≡ form_of (sign mark) }
{
    match mark {
        Sign::LeftParen => Some(PrefixForm::Bracket),
        Sign::Plus => Some(PrefixForm::Signed(Prefix::Plus)),
        Sign::Minus => Some(PrefixForm::Signed(Prefix::Minus)),
        _ => None,
    }
}

fn prefix_form_of_word(word: Keyword) -> Option<PrefixForm>
    ensures { option_map prefix_form result ≡ form_of (key word) }
{
    match word {
        Keyword::If => Some(PrefixForm::If),
        Keyword::Not => Some(PrefixForm::Signed(Prefix::Not)),
        Keyword::Abs => Some(PrefixForm::One(OneOperand::Unary(UnaryFunction::Abs))),
        Keyword::Ceil => Some(PrefixForm::One(OneOperand::Unary(UnaryFunction::Ceil))),
        Keyword::Floor => Some(PrefixForm::One(OneOperand::Unary(UnaryFunction::Floor))),
        Keyword::Trim => Some(PrefixForm::One(OneOperand::Unary(UnaryFunction::Trim))),
        Keyword::Ltrim => Some(PrefixForm::One(OneOperand::Unary(UnaryFunction::Ltrim))),
        Keyword::Rtrim => Some(PrefixForm::One(OneOperand::Unary(UnaryFunction::Rtrim))),
        Keyword::Upper => Some(PrefixForm::One(OneOperand::Unary(UnaryFunction::Upper))),
        Keyword::Lower => Some(PrefixForm::One(OneOperand::Unary(UnaryFunction::Lower))),
        Keyword::Length => Some(PrefixForm::One(OneOperand::Unary(UnaryFunction::Length))),
        Keyword::Isnull => Some(PrefixForm::One(OneOperand::Unary(UnaryFunction::Isnull))),
        Keyword::Round => Some(PrefixForm::One(OneOperand::Round(RoundFunction::Round))),
        Keyword::Trunc => Some(PrefixForm::One(OneOperand::Round(RoundFunction::Trunc))),
        Keyword::Mod => Some(PrefixForm::Two(TwoOperands::Binary(BinaryFunction::Mod))),
        Keyword::Nvl => Some(PrefixForm::Two(TwoOperands::Binary(BinaryFunction::Nvl))),
        Keyword::Instr => Some(PrefixForm::Two(TwoOperands::Binary(BinaryFunction::Instr))),
        Keyword::Between => Some(PrefixForm::One(OneOperand::Between)),
        Keyword::MatchCharacters => Some(PrefixForm::One(OneOperand::MatchCharacters)),
        Keyword::Substr => Some(PrefixForm::Substr),
        Keyword::Replace => Some(PrefixForm::Replace),
        Keyword::ExistsIn => Some(PrefixForm::Two(TwoOperands::ExistsIn)),
        Keyword::Union => Some(PrefixForm::Sets(SetFunction::Union)),
        Keyword::Intersect => Some(PrefixForm::Sets(SetFunction::Intersect)),
        Keyword::Setdiff => Some(PrefixForm::Two(TwoOperands::Difference(
            DifferenceFunction::Setdiff,
        ))),
        Keyword::Symdiff => Some(PrefixForm::Two(TwoOperands::Difference(
            DifferenceFunction::Symdiff,
        ))),
        Keyword::InnerJoin => Some(PrefixForm::Join(JoinFunction::Inner)),
        Keyword::LeftJoin => Some(PrefixForm::Join(JoinFunction::Left)),
        Keyword::FullJoin => Some(PrefixForm::Join(JoinFunction::Full)),
        Keyword::CrossJoin => Some(PrefixForm::Join(JoinFunction::Cross)),
        Keyword::Sum => Some(PrefixForm::Aggregate(AggregateFunction::Sum)),
        Keyword::Avg => Some(PrefixForm::Aggregate(AggregateFunction::Avg)),
        Keyword::Min => Some(PrefixForm::Aggregate(AggregateFunction::Min)),
        Keyword::Max => Some(PrefixForm::Aggregate(AggregateFunction::Max)),
        Keyword::Median => Some(PrefixForm::Aggregate(AggregateFunction::Median)),
        Keyword::Count => Some(PrefixForm::Count),
        Keyword::FirstValue => Some(PrefixForm::One(OneOperand::Window(
            WindowFunction::FirstValue,
        ))),
        Keyword::LastValue => Some(PrefixForm::One(OneOperand::Window(WindowFunction::LastValue))),
        Keyword::RatioToReport => Some(PrefixForm::One(OneOperand::Window(
            WindowFunction::RatioToReport,
        ))),
        Keyword::Lag => Some(PrefixForm::One(OneOperand::Offset(OffsetFunction::Lag))),
        Keyword::Lead => Some(PrefixForm::One(OneOperand::Offset(OffsetFunction::Lead))),
        Keyword::Rank => Some(PrefixForm::Rank),
        Keyword::FlowToStock => Some(PrefixForm::One(OneOperand::Time(TimeFunction::FlowToStock))),
        Keyword::StockToFlow => Some(PrefixForm::One(OneOperand::Time(TimeFunction::StockToFlow))),
        Keyword::PeriodIndicator => Some(PrefixForm::One(OneOperand::Time(
            TimeFunction::PeriodIndicator,
        ))),
        Keyword::Timeshift => Some(PrefixForm::One(OneOperand::Timeshift)),
        Keyword::FillTimeSeries => Some(PrefixForm::One(OneOperand::FillTimeSeries)),
        Keyword::CheckDatapoint => Some(PrefixForm::One(OneOperand::CheckDatapoint)),
        Keyword::Hierarchy => Some(PrefixForm::One(OneOperand::Hierarchy)),
        Keyword::CheckHierarchy => Some(PrefixForm::One(OneOperand::CheckHierarchy)),
        Keyword::Check => Some(PrefixForm::Check),
        _ => None,
    }
}

/// What goes on with that token.
pub fn suffix_form_of(kind: &TokenKind) -> Option<SuffixForm>
    ensures { option_map suffix_tail result ≡ tail_at (mark_in kind.now) }
{
    match kind {
        TokenKind::Reserved(word) => suffix_form_of_word(*word),
        TokenKind::Sign(mark) => suffix_form_of_sign(*mark),
        _ => None,
    }
}

fn suffix_form_of_sign(mark: Sign) -> Option<SuffixForm>
    ensures { option_map suffix_tail result ≡ tail_of (sign mark) }
{
    match mark {
        Sign::Equal => Some(SuffixForm::Infix(Infix::Compare(Comparison::Equal))),
        Sign::NotEqual => Some(SuffixForm::Infix(Infix::Compare(Comparison::NotEqual))),
        Sign::LessThan => Some(SuffixForm::Infix(Infix::Compare(Comparison::Less))),
        Sign::GreaterThan => Some(SuffixForm::Infix(Infix::Compare(Comparison::Greater))),
        Sign::AtMost => Some(SuffixForm::Infix(Infix::Compare(Comparison::AtMost))),
        Sign::AtLeast => Some(SuffixForm::Infix(Infix::Compare(Comparison::AtLeast))),
        Sign::Plus => Some(SuffixForm::Infix(Infix::Sum(SumSign::Plus))),
        Sign::Minus => Some(SuffixForm::Infix(Infix::Sum(SumSign::Minus))),
        Sign::Bars => Some(SuffixForm::Infix(Infix::Sum(SumSign::Join))),
        Sign::Star => Some(SuffixForm::Infix(Infix::Product(ProductSign::Times))),
        Sign::Slash => Some(SuffixForm::Infix(Infix::Product(ProductSign::Over))),
        Sign::LeftParen => Some(SuffixForm::Call),
        Sign::Hash => Some(SuffixForm::Member),
        Sign::LeftBracket => Some(SuffixForm::Clause),
        _ => None,
    }
}

fn suffix_form_of_word(word: Keyword) -> Option<SuffixForm>
    ensures { option_map suffix_tail result ≡ tail_of (key word) }
{
    match word {
        Keyword::Or => Some(SuffixForm::Infix(Infix::Or(OrSign::Or))),
        Keyword::Xor => Some(SuffixForm::Infix(Infix::Or(OrSign::Xor))),
        Keyword::And => Some(SuffixForm::Infix(Infix::And)),
        Keyword::In => Some(SuffixForm::In(InSign::In)),
        Keyword::NotIn => Some(SuffixForm::In(InSign::NotIn)),
        _ => None,
    }
}

impl PrefixForm {
    ghost use Rattle.std.specs.Prelude.{◌≡◌, ◌≤◌};
    ghost use Rattle.vtl_parser.specs.Forms.{prefix_form};

    /// The precedence of the form.
    pub fn precedence(self) -> u8
        ensures value { result ≡ (prefix_form self).precedence }
        ensures below_names { result ≤ 7 }
    {
        match self {
            PrefixForm::If => 0,
            PrefixForm::Signed(_) => 6,
            _ => 7,
        }
    }
}

impl SuffixForm {
    ghost use Rattle.std.specs.Prelude.{◌≡◌, ◌≤◌};
    ghost use Rattle.vtl_parser.specs.Forms.{suffix_tail};

    /// The precedence of what it makes.
    pub fn precedence(self) -> u8
        ensures value { result ≡ (suffix_tail self).precedence }
        ensures below_names { result ≤ 7 }
    {
        match self {
            SuffixForm::Infix(sign) => sign.precedence(),
            SuffixForm::In(_) => 3,
            SuffixForm::Call | SuffixForm::Member | SuffixForm::Clause => 7,
        }
    }

    /// The precedence that the operand before it has at least.
    pub fn operand(self) -> u8
        ensures { result ≡ (suffix_tail self).operand }
    {
        match self {
            SuffixForm::Infix(sign) => sign.precedence(),
            SuffixForm::In(_) => 3,
            SuffixForm::Call => NAME,
            SuffixForm::Member | SuffixForm::Clause => 7,
        }
    }
}

/// The precedence of a name, which is the highest.
pub const NAME: u8 = 9;

impl Infix {
    ghost use Rattle.std.specs.Prelude.{◌≡◌, ◌≤◌};
    ghost use Rattle.vtl_parser.specs.Forms.{infix_precedence};

    /// How tightly it holds its operands: one of a higher precedence stands inside one of a lower without brackets.
    pub fn precedence(self) -> u8
        ensures value { result ≡ infix_precedence self }
        ensures below_calls { result ≤ 5 }
    {
        match self {
            Infix::Or(_) => 1,
            Infix::And => 2,
            Infix::Compare(_) => 3,
            Infix::Sum(_) => 4,
            Infix::Product(_) => 5,
        }
    }
}
