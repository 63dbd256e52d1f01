// What comes after the operands of a call.
ghost use Rattle.std.specs.Prelude.{option_map};
ghost use Rattle.vtl_tokens.specs.declared.keyword.Keyword.TheVariants as words;
ghost use Rattle.vtl_grammar.specs.Rules.{text, word, ◌▸◌};
ghost use Rattle.vtl_grammar.specs.Clauses.{signed_integer, signed_of};
ghost use Rattle.vtl_grammar.specs.Reading.{maybe, firsts, no_part};
ghost use Rattle.vtl_cursor.specs.Limits.{limits};
ghost use Rattle.vtl_cursor.specs.Plain.{read_plain};
ghost use Rattle.vtl_cursor.specs.Views.{GivesDeep, Shows};
ghost use Rattle.vtl_parser.specs.Forms.{one_rest, one_tree, two_rest, two_tree, suffix_tail, read_form, read_tail};
ghost use Rattle.vtl_grammar.specs.Calls.{rank};
ghost use Rattle.vtl_parser.specs.declared.form.SuffixForm.TheVariants as suffixes;
ghost use Rattle.vtl_parser.specs.declared.form.OneOperand.TheVariants as one;
ghost use Rattle.vtl_parser.specs.declared.form.TwoOperands.TheVariants as two;

use crate::form::{OneOperand, TwoOperands};
use sqlite_items::Boxed;
use std::alloc::Global;
use vtl_cursor::literals::{literal, signed_integer};
use vtl_cursor::outputs::{
    component, component_before_input, digits, error_code, error_level, exists_rows, fill_span,
};
use vtl_cursor::windows::over;
use vtl_cursor::{Cursor, Stop, commas, optional_choice};
use vtl_syntax::Expr;
use vtl_syntax::words::{
    BinaryFunction, DifferenceFunction, InSign, OffsetFunction, RoundFunction, TimeFunction,
    UnaryFunction, WindowFunction,
};
use vtl_tokens::Sign;
use vtl_values::{Integer, Place, Value, Word};

/// The rest of a call after its one operand.
pub fn one_operand_end(
    alloc: Global,
    cursor: &mut Cursor,
    call: OneOperand,
    operand: Boxed<Expr>,
    place: Place,
) -> Result<Boxed<Expr>, Stop>
    ensures { Shows (λ v. one_tree call operand v place) cursor.new.tokens.now result (read_plain limits no_part (one_rest call) cursor.old.tokens.now) }
{
    match call {
        OneOperand::Unary(function) => unary(alloc, cursor, function, operand, place),
        OneOperand::Round(function) => round(alloc, cursor, function, operand, place),
        OneOperand::Between => between(alloc, cursor, operand, place),
        OneOperand::MatchCharacters => match_characters(alloc, cursor, operand, place),
        OneOperand::Window(function) => window(alloc, cursor, function, operand, place),
        OneOperand::Offset(function) => offset(alloc, cursor, function, operand, place),
        OneOperand::Time(function) => time(alloc, cursor, function, operand, place),
        OneOperand::Timeshift => timeshift(alloc, cursor, operand, place),
        OneOperand::FillTimeSeries => fill_time_series(alloc, cursor, operand, place),
        OneOperand::CheckDatapoint => check_datapoint(alloc, cursor, operand, place),
        OneOperand::Hierarchy => hierarchy(alloc, cursor, operand, place),
        OneOperand::CheckHierarchy => check_hierarchy(alloc, cursor, operand, place),
    }
}

fn unary(
    alloc: Global,
    cursor: &mut Cursor,
    function: UnaryFunction,
    operand: Boxed<Expr>,
    place: Place,
) -> Result<Boxed<Expr>, Stop>
    ensures { Shows (λ v. one_tree (one.Unary function) operand v place) cursor.new.tokens.now result (read_plain limits no_part (one_rest (one.Unary function)) cursor.old.tokens.now) }
{
    cursor.sign(Sign::RightParen)?;
    let expr = Expr::Unary {
        function,
        operand,
        place,
    };
    Ok(Boxed::new(alloc, expr)?)
}

fn round(
    alloc: Global,
    cursor: &mut Cursor,
    function: RoundFunction,
    operand: Boxed<Expr>,
    place: Place,
) -> Result<Boxed<Expr>, Stop>
    ensures { Shows (λ v. one_tree (one.Round function) operand v place) cursor.new.tokens.now result (read_plain limits no_part (one_rest (one.Round function)) cursor.old.tokens.now) }
{
    let digits = digits(cursor)?;
    cursor.sign(Sign::RightParen)?;
    let expr = Expr::Round {
        function,
        operand,
        digits,
        place,
    };
    Ok(Boxed::new(alloc, expr)?)
}

fn between(
    alloc: Global,
    cursor: &mut Cursor,
    operand: Boxed<Expr>,
    place: Place,
) -> Result<Boxed<Expr>, Stop>
    ensures { Shows (λ v. one_tree one.Between operand v place) cursor.new.tokens.now result (read_plain limits no_part (one_rest one.Between) cursor.old.tokens.now) }
{
    cursor.sign(Sign::Comma)?;
    let low = literal(cursor)?;
    cursor.sign(Sign::Comma)?;
    let high = literal(cursor)?;
    cursor.sign(Sign::RightParen)?;
    let expr = Expr::Between {
        operand,
        low,
        high,
        place,
    };
    Ok(Boxed::new(alloc, expr)?)
}

fn match_characters(
    alloc: Global,
    cursor: &mut Cursor,
    operand: Boxed<Expr>,
    place: Place,
) -> Result<Boxed<Expr>, Stop>
    ensures { Shows (λ v. one_tree one.MatchCharacters operand v place) cursor.new.tokens.now result (read_plain limits no_part (one_rest one.MatchCharacters) cursor.old.tokens.now) }
{
    cursor.sign(Sign::Comma)?;
    let pattern = cursor.text()?;
    cursor.sign(Sign::RightParen)?;
    let expr = Expr::MatchCharacters {
        operand,
        pattern: pattern.value,
        place,
    };
    Ok(Boxed::new(alloc, expr)?)
}

fn window(
    alloc: Global,
    cursor: &mut Cursor,
    function: WindowFunction,
    operand: Boxed<Expr>,
    place: Place,
) -> Result<Boxed<Expr>, Stop>
    ensures { Shows (λ v. one_tree (one.Window function) operand v place) cursor.new.tokens.now result (read_plain limits no_part (one_rest (one.Window function)) cursor.old.tokens.now) }
{
    let over = over(alloc, cursor)?;
    cursor.sign(Sign::RightParen)?;
    let expr = Expr::Window {
        function,
        operand,
        over,
        place,
    };
    Ok(Boxed::new(alloc, expr)?)
}

fn offset(
    alloc: Global,
    cursor: &mut Cursor,
    function: OffsetFunction,
    operand: Boxed<Expr>,
    place: Place,
) -> Result<Boxed<Expr>, Stop>
    ensures { Shows (λ v. one_tree (one.Offset function) operand v place) cursor.new.tokens.now result (read_plain limits no_part (one_rest (one.Offset function)) cursor.old.tokens.now) }
{
    cursor.sign(Sign::Comma)?;
    let offset = cursor.integer()?;
    let over = over(alloc, cursor)?;
    cursor.sign(Sign::RightParen)?;
    let expr = Expr::Offset {
        function,
        operand,
        offset: offset.value,
        over,
        place,
    };
    Ok(Boxed::new(alloc, expr)?)
}

fn time(
    alloc: Global,
    cursor: &mut Cursor,
    function: TimeFunction,
    operand: Boxed<Expr>,
    place: Place,
) -> Result<Boxed<Expr>, Stop>
    ensures { Shows (λ v. one_tree (one.Time function) operand v place) cursor.new.tokens.now result (read_plain limits no_part (one_rest (one.Time function)) cursor.old.tokens.now) }
{
    cursor.sign(Sign::RightParen)?;
    let expr = Expr::Time {
        function,
        operand,
        place,
    };
    Ok(Boxed::new(alloc, expr)?)
}

fn timeshift(
    alloc: Global,
    cursor: &mut Cursor,
    operand: Boxed<Expr>,
    place: Place,
) -> Result<Boxed<Expr>, Stop>
    ensures { Shows (λ v. one_tree one.Timeshift operand v place) cursor.new.tokens.now result (read_plain limits no_part (one_rest one.Timeshift) cursor.old.tokens.now) }
{
    cursor.sign(Sign::Comma)?;
    let shift = signed_integer(cursor)?;
    cursor.sign(Sign::RightParen)?;
    let expr = Expr::Timeshift {
        operand,
        shift,
        place,
    };
    Ok(Boxed::new(alloc, expr)?)
}

fn fill_time_series(
    alloc: Global,
    cursor: &mut Cursor,
    operand: Boxed<Expr>,
    place: Place,
) -> Result<Boxed<Expr>, Stop>
    ensures { Shows (λ v. one_tree one.FillTimeSeries operand v place) cursor.new.tokens.now result (read_plain limits no_part (one_rest one.FillTimeSeries) cursor.old.tokens.now) }
{
    let span = fill_span(cursor)?;
    cursor.sign(Sign::RightParen)?;
    let expr = Expr::FillTimeSeries {
        operand,
        span,
        place,
    };
    Ok(Boxed::new(alloc, expr)?)
}

fn check_datapoint(
    alloc: Global,
    cursor: &mut Cursor,
    operand: Boxed<Expr>,
    place: Place,
) -> Result<Boxed<Expr>, Stop>
    ensures { Shows (λ v. one_tree one.CheckDatapoint operand v place) cursor.new.tokens.now result (read_plain limits no_part (one_rest one.CheckDatapoint) cursor.old.tokens.now) }
{
    cursor.sign(Sign::Comma)?;
    let ruleset = cursor.name()?;
    let output = optional_choice(cursor);
    cursor.sign(Sign::RightParen)?;
    let expr = Expr::CheckDatapoint {
        operand,
        ruleset: ruleset.value,
        ruleset_place: ruleset.place,
        output,
        place,
    };
    Ok(Boxed::new(alloc, expr)?)
}

fn hierarchy(
    alloc: Global,
    cursor: &mut Cursor,
    operand: Boxed<Expr>,
    place: Place,
) -> Result<Boxed<Expr>, Stop>
    ensures { Shows (λ v. one_tree one.Hierarchy operand v place) cursor.new.tokens.now result (read_plain limits no_part (one_rest one.Hierarchy) cursor.old.tokens.now) }
{
    cursor.sign(Sign::Comma)?;
    let ruleset = cursor.name()?;
    let component = component_before_input(cursor)?;
    let mode = optional_choice(cursor);
    let input = optional_choice(cursor);
    let output = optional_choice(cursor);
    cursor.sign(Sign::RightParen)?;
    let expr = Expr::Hierarchy {
        operand,
        ruleset: ruleset.value,
        ruleset_place: ruleset.place,
        component,
        mode,
        input,
        output,
        place,
    };
    Ok(Boxed::new(alloc, expr)?)
}

fn check_hierarchy(
    alloc: Global,
    cursor: &mut Cursor,
    operand: Boxed<Expr>,
    place: Place,
) -> Result<Boxed<Expr>, Stop>
    ensures { Shows (λ v. one_tree one.CheckHierarchy operand v place) cursor.new.tokens.now result (read_plain limits no_part (one_rest one.CheckHierarchy) cursor.old.tokens.now) }
{
    cursor.sign(Sign::Comma)?;
    let ruleset = cursor.name()?;
    let component = component(cursor)?;
    let mode = optional_choice(cursor);
    let input = optional_choice(cursor);
    let output = optional_choice(cursor);
    cursor.sign(Sign::RightParen)?;
    let expr = Expr::CheckHierarchy {
        operand,
        ruleset: ruleset.value,
        ruleset_place: ruleset.place,
        component,
        mode,
        input,
        output,
        place,
    };
    Ok(Boxed::new(alloc, expr)?)
}

/// The rest of a call after its two operands.
pub fn two_operands_end(
    alloc: Global,
    cursor: &mut Cursor,
    call: TwoOperands,
    left: Boxed<Expr>,
    right: Boxed<Expr>,
    place: Place,
) -> Result<Boxed<Expr>, Stop>
    ensures { Shows (λ v. two_tree call left right v place) cursor.new.tokens.now result (read_plain limits no_part (two_rest call) cursor.old.tokens.now) }
{
    match call {
        TwoOperands::Binary(function) => binary(alloc, cursor, function, left, right, place),
        TwoOperands::Difference(function) => difference(
            alloc, cursor, function, left, right, place,
        ),
        TwoOperands::ExistsIn => exists_in(alloc, cursor, left, right, place),
    }
}

fn binary(
    alloc: Global,
    cursor: &mut Cursor,
    function: BinaryFunction,
    left: Boxed<Expr>,
    right: Boxed<Expr>,
    place: Place,
) -> Result<Boxed<Expr>, Stop>
    ensures { Shows (λ v. two_tree (two.Binary function) left right v place) cursor.new.tokens.now result (read_plain limits no_part (two_rest (two.Binary function)) cursor.old.tokens.now) }
{
    cursor.sign(Sign::RightParen)?;
    let expr = Expr::Binary {
        function,
        left,
        right,
        place,
    };
    Ok(Boxed::new(alloc, expr)?)
}

fn difference(
    alloc: Global,
    cursor: &mut Cursor,
    function: DifferenceFunction,
    left: Boxed<Expr>,
    right: Boxed<Expr>,
    place: Place,
) -> Result<Boxed<Expr>, Stop>
    ensures { Shows (λ v. two_tree (two.Difference function) left right v place) cursor.new.tokens.now result (read_plain limits no_part (two_rest (two.Difference function)) cursor.old.tokens.now) }
{
    cursor.sign(Sign::RightParen)?;
    let expr = Expr::Difference {
        function,
        left,
        right,
        place,
    };
    Ok(Boxed::new(alloc, expr)?)
}

fn exists_in(
    alloc: Global,
    cursor: &mut Cursor,
    left: Boxed<Expr>,
    right: Boxed<Expr>,
    place: Place,
) -> Result<Boxed<Expr>, Stop>
    ensures { Shows (λ v. two_tree two.ExistsIn left right v place) cursor.new.tokens.now result (read_plain limits no_part (two_rest two.ExistsIn) cursor.old.tokens.now) }
{
    let rows = exists_rows(cursor)?;
    cursor.sign(Sign::RightParen)?;
    let expr = Expr::ExistsIn {
        left,
        right,
        rows,
        place,
    };
    Ok(Boxed::new(alloc, expr)?)
}

/// `errorcode "text"`, or nothing.
pub fn code(cursor: &mut Cursor) -> Result<Option<Word>, Stop>
    ensures { Shows (λ v. option_map (λ w. w.1.value) v) cursor.new.tokens.now result (maybe (firsts (word words.Errorcode)) (read_plain limits no_part (word words.Errorcode ▸ text)) cursor.old.tokens.now) }
{
    match error_code(cursor)? {
        Some(code) => Ok(Some(code.value)),
        None => Ok(None),
    }
}

/// `errorlevel n`, or nothing.
pub fn level(cursor: &mut Cursor) -> Result<Option<Integer>, Stop>
    ensures { Shows (λ v. option_map (λ w. signed_of w.1) v) cursor.new.tokens.now result (maybe (firsts (word words.Errorlevel)) (read_plain limits no_part (word words.Errorlevel ▸ signed_integer)) cursor.old.tokens.now) }
{
    match error_level(cursor)? {
        Some(level) => Ok(Some(level.value)),
        None => Ok(None),
    }
}

/// What comes after `rank`, which has no level inside it.
pub fn rank(alloc: Global, cursor: &mut Cursor, place: Place) -> Result<(Boxed<Expr>, u8), Stop>
    ensures { GivesDeep cursor.new.tokens.now result (read_form limits no_part rank place cursor.old.tokens.now) }
{
    cursor.sign(Sign::LeftParen)?;
    let over = over(alloc, cursor)?;
    cursor.sign(Sign::RightParen)?;
    Ok((Boxed::new(alloc, Expr::Rank { over, place })?, 0))
}

/// What comes after `in` or `not_in`, which has no level inside it.
pub fn member_of_set(
    alloc: Global,
    cursor: &mut Cursor,
    sign: InSign,
    left: Boxed<Expr>,
    place: Place,
) -> Result<(Boxed<Expr>, u8), Stop>
    ensures { GivesDeep cursor.new.tokens.now result (read_tail limits no_part (suffix_tail (suffixes.In sign)) left place cursor.old.tokens.now) }
{
    cursor.sign(Sign::LeftBrace)?;
    let set = commas::<Value>(alloc, cursor)?;
    cursor.sign(Sign::RightBrace)?;
    let expr = Expr::In {
        left,
        sign,
        set,
        place,
    };
    Ok((Boxed::new(alloc, expr)?, 0))
}

/// The name after `#`, which has no level inside it.
pub fn member(
    alloc: Global,
    cursor: &mut Cursor,
    operand: Boxed<Expr>,
    place: Place,
) -> Result<(Boxed<Expr>, u8), Stop>
    ensures { GivesDeep cursor.new.tokens.now result (read_tail limits no_part (suffix_tail suffixes.Member) operand place cursor.old.tokens.now) }
{
    let name = cursor.name()?;
    let expr = Expr::Member {
        operand,
        name: name.value,
        place,
    };
    Ok((Boxed::new(alloc, expr)?, 0))
}
