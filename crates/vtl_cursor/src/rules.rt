// The parts of rulesets.
ghost use Rattle.std.specs.Prelude.{◌≡◌, map};
ghost use Rattle.vtl_grammar.specs.Rules.{lists};
ghost use Rattle.vtl_grammar.specs.Reading.{no_part, starts, firsts, read_more};
ghost use Rattle.vtl_grammar.specs.Rulesets.{variable, variable_of, signed_name, signed_name_of};
ghost use Rattle.vtl_cursor.specs.Limits.{limits};
ghost use Rattle.vtl_cursor.specs.Plain.{read_plain};
ghost use Rattle.vtl_cursor.specs.Views.{Shows};
ghost use Rattle.vtl_cursor.specs.Faults.{fault_in};

use crate::outputs::alias;
use crate::parse::Parse;
use crate::{Cursor, Kind, Limit, Named, Stop, Whole};
use sqlite_items::Items;
use std::alloc::Global;
use vtl_syntax::words::Sign;
use vtl_syntax::{FaultPart, SignedName, Variable};
use vtl_tokens::Sign as SignToken;
use vtl_values::Place;

impl Parse for Variable {
    ghost rule = { variable };

    ghost of = { variable_of };

    /// `name` or `name as alias`.
    fn parse(_alloc: Global, cursor: &mut Cursor) -> Result<Self, Stop> {
        let name = cursor.name()?;
        let alias = alias(cursor)?;
        Ok(Variable {
            name: name.value,
            alias,
            place: name.place,
        })
    }
}

/// Names, each after a `+` or a `-`; there may be none.
pub fn signed_names(alloc: Global, cursor: &mut Cursor) -> Result<Items<SignedName>, Stop>
    ensures { Shows (map signed_name_of) cursor.new.tokens.now result (read_more (firsts signed_name) lists (read_plain limits no_part signed_name) (limits lists) cursor.old.tokens.now) }
{
    let mut names = Items::new(alloc);
    let mut left = Limit::Lists.most();
    while is_signed(cursor) {
        if left == 0 {
            return Err(Stop::At(Kind::TooMany(Limit::Lists)));
        }
        left -= 1;
        let name = signed_name(cursor)?;
        names.push(name)?;
    }
    Ok(names)
}

/// Whether a `+` or a `-` stands there.
fn is_signed(cursor: &Cursor) -> bool
    ensures { result ≡ starts (firsts signed_name) cursor.now.tokens.now }
{
    cursor.is_sign(SignToken::Plus) || cursor.is_sign(SignToken::Minus)
}

/// `+ name` or `- name`.
fn signed_name(cursor: &mut Cursor) -> Result<SignedName, Stop>
    ensures { Shows signed_name_of cursor.new.tokens.now result (read_plain limits no_part signed_name cursor.old.tokens.now) }
{
    if cursor.is_sign(SignToken::Plus) {
        let place = cursor.sign(SignToken::Plus)?;
        let name = cursor.name()?;
        return Ok(SignedName {
            sign: Sign::Plus,
            name: name.value,
            place,
        });
    }
    let place = cursor.sign(SignToken::Minus)?;
    let name = cursor.name()?;
    Ok(SignedName {
        sign: Sign::Minus,
        name: name.value,
        place,
    })
}

/// What a code and a level, if there are any, say of a rule that stands there.
pub fn fault_part(code: Option<Named>, level: Option<Whole>, rule: Place) -> FaultPart
    ensures { result ≡ fault_in code level rule }
{
    let place = match (&code, &level) {
        (Some(code), _) => code.place,
        (None, Some(level)) => level.place,
        (None, None) => rule,
    };
    FaultPart {
        code: code.map(|code| code.value),
        level: level.map(|level| level.value),
        place,
    }
}
