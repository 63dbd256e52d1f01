// Choices between words or signs, read by their tables.
ghost use Rattle.std.specs.Prelude.{◌≡◌};
ghost use Rattle.std.specs.Option.{option_map};
ghost use Rattle.vtl_grammar.specs.Words.{one_of, chosen};
ghost use Rattle.vtl_grammar.specs.Reading.{no_part, firsts, maybe};
ghost use Rattle.vtl_cursor.specs.Choices.{standing};
ghost use Rattle.vtl_cursor.specs.Limits.{limits};
ghost use Rattle.vtl_cursor.specs.Plain.{read_plain};
ghost use Rattle.vtl_cursor.specs.Views.{IsShown, Shows};

use crate::{Cursor, Kind, Stop};
use vtl_grammar::Choice;

/// The choice whose word or sign stands there.
fn standing<C: Choice>(cursor: &Cursor) -> Option<C>
    ensures { result ≡ standing C.words cursor.now.tokens.now }
{
    C::all()
        .iter()
        .copied()
        .find(|choice| cursor.is_mark(choice.mark()))
}

/// One of the choices.
pub fn choice<C: Choice>(cursor: &mut Cursor) -> Result<C, Stop>
    ensures { Shows (chosen C.words) cursor.new.tokens.now result (read_plain limits no_part (one_of C.words) cursor.old.tokens.now) }
{
    match standing(cursor) {
        Some(choice) => {
            cursor.skip();
            Ok(choice)
        }
        None => Err(Stop::At(Kind::Expected)),
    }
}

/// One of the choices, or nothing.
pub fn optional_choice<C: Choice>(cursor: &mut Cursor) -> Option<C>
    ensures { IsShown (λ v. option_map (chosen C.words) v) result cursor.new.tokens.now (maybe (firsts (one_of C.words)) (read_plain limits no_part (one_of C.words)) cursor.old.tokens.now) }
{
    match standing(cursor) {
        Some(choice) => {
            cursor.skip();
            Some(choice)
        }
        None => None,
    }
}
