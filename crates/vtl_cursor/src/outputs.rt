// What a call says of its rows, its rules and its names.
ghost use Rattle.std.specs.Option.{option_map};
ghost use Rattle.vtl_tokens.specs.declared.keyword.Keyword.TheVariants as words;
ghost use Rattle.vtl_grammar.specs.Rules.{name, text, ◌▸◌, component, label, word, comma};
ghost use Rattle.vtl_grammar.specs.Reading.{no_part, firsts, maybe};
ghost use Rattle.vtl_grammar.specs.Clauses.{signed_integer, signed_of};
ghost use Rattle.vtl_grammar.specs.Words.{one_of, chosen, exists_rows, fill_spans};
ghost use Rattle.vtl_cursor.specs.Limits.{limits};
ghost use Rattle.vtl_cursor.specs.Plain.{read_plain, maybe_prefix};
ghost use Rattle.vtl_cursor.specs.Views.{Shows};
ghost use Rattle.vtl_cursor.specs.Faults.{code_of, level_of};

use crate::literals::signed_integer;
use crate::{Cursor, Named, Stop, Whole, choice};
use vtl_syntax::words::{ExistsRows, FillSpan};
use vtl_tokens::{Keyword, Sign};
use vtl_values::{Integer, Word};

/// `, n`, or nothing.
pub fn digits(cursor: &mut Cursor) -> Result<Option<Integer>, Stop>
    ensures { Shows (λ v. option_map (λ w. signed_of w.1) v) cursor.new.tokens.now result (maybe (firsts comma) (read_plain limits no_part (comma ▸ signed_integer)) cursor.old.tokens.now) }
{
    if !cursor.is_sign(Sign::Comma) {
        return Ok(None);
    }
    cursor.sign(Sign::Comma)?;
    let digits = signed_integer(cursor)?;
    Ok(Some(digits))
}

/// `as name`, or nothing.
pub fn alias(cursor: &mut Cursor) -> Result<Option<Word>, Stop>
    ensures { Shows (λ v. option_map (λ w. w.1.value) v) cursor.new.tokens.now result (maybe (firsts (word words.As)) (read_plain limits no_part (word words.As ▸ name)) cursor.old.tokens.now) }
{
    if !cursor.is_word(Keyword::As) {
        return Ok(None);
    }
    cursor.word(Keyword::As)?;
    let name = cursor.name()?;
    Ok(Some(name.value))
}

/// `name :`, or nothing.
pub fn label(cursor: &mut Cursor) -> Result<Option<Word>, Stop>
    ensures { Shows (λ v. option_map (λ w. w.value) v) cursor.new.tokens.now result (maybe_prefix label cursor.old.tokens.now) }
{
    if !cursor.is_label() {
        return Ok(None);
    }
    let name = cursor.name()?;
    cursor.sign(Sign::Colon)?;
    Ok(Some(name.value))
}

/// `rule name`, or nothing; a `rule` before anything else is left.
pub fn component_before_input(cursor: &mut Cursor) -> Result<Option<Word>, Stop>
    ensures { Shows (λ v. option_map (λ w. w.value) v) cursor.new.tokens.now result (maybe_prefix component cursor.old.tokens.now) }
{
    if !cursor.is_component() {
        return Ok(None);
    }
    cursor.word(Keyword::Rule)?;
    let name = cursor.name()?;
    Ok(Some(name.value))
}

/// `rule name`, or nothing.
pub fn component(cursor: &mut Cursor) -> Result<Option<Word>, Stop>
    ensures { Shows (λ v. option_map (λ w. w.1.value) v) cursor.new.tokens.now result (maybe (firsts (word words.Rule)) (read_plain limits no_part (word words.Rule ▸ name)) cursor.old.tokens.now) }
{
    if !cursor.is_word(Keyword::Rule) {
        return Ok(None);
    }
    cursor.word(Keyword::Rule)?;
    let name = cursor.name()?;
    Ok(Some(name.value))
}

/// `, all`, `, true`, `, false` or nothing.
pub fn exists_rows(cursor: &mut Cursor) -> Result<Option<ExistsRows>, Stop>
    ensures { Shows (λ v. option_map (λ w. chosen exists_rows w.1) v) cursor.new.tokens.now result (maybe (firsts comma) (read_plain limits no_part (comma ▸ one_of exists_rows)) cursor.old.tokens.now) }
{
    if !cursor.is_sign(Sign::Comma) {
        return Ok(None);
    }
    cursor.sign(Sign::Comma)?;
    let rows = choice(cursor)?;
    Ok(Some(rows))
}

/// `, all`, `, single` or nothing.
pub fn fill_span(cursor: &mut Cursor) -> Result<Option<FillSpan>, Stop>
    ensures { Shows (λ v. option_map (λ w. chosen fill_spans w.1) v) cursor.new.tokens.now result (maybe (firsts comma) (read_plain limits no_part (comma ▸ one_of fill_spans)) cursor.old.tokens.now) }
{
    if !cursor.is_sign(Sign::Comma) {
        return Ok(None);
    }
    cursor.sign(Sign::Comma)?;
    let span = choice(cursor)?;
    Ok(Some(span))
}

/// `errorcode "text"`, or nothing. Its place is that of its word.
pub fn error_code(cursor: &mut Cursor) -> Result<Option<Named>, Stop>
    ensures { Shows (λ v. option_map code_of v) cursor.new.tokens.now result (maybe (firsts (word words.Errorcode)) (read_plain limits no_part (word words.Errorcode ▸ text)) cursor.old.tokens.now) }
{
    if !cursor.is_word(Keyword::Errorcode) {
        return Ok(None);
    }
    let place = cursor.word(Keyword::Errorcode)?;
    let code = cursor.text()?;
    Ok(Some(Named {
        value: code.value,
        place,
    }))
}

/// `errorlevel n`, or nothing. Its place is that of its word.
pub fn error_level(cursor: &mut Cursor) -> Result<Option<Whole>, Stop>
    ensures { Shows (λ v. option_map level_of v) cursor.new.tokens.now result (maybe (firsts (word words.Errorlevel)) (read_plain limits no_part (word words.Errorlevel ▸ signed_integer)) cursor.old.tokens.now) }
{
    if !cursor.is_word(Keyword::Errorlevel) {
        return Ok(None);
    }
    let place = cursor.word(Keyword::Errorlevel)?;
    let value = signed_integer(cursor)?;
    Ok(Some(Whole { value, place }))
}
