// What stands inside expressions and holds none.
ghost use Rattle.std.specs.Prelude.{◌≡◌, ◌++◌, OnOk};
ghost use Rattle.vtl_spelling.specs.Kinds.{◌&◌, key, sig, name, commas, optional};
ghost use Rattle.vtl_spelling.specs.Parts.{literal_spelled, unsigned_spelled, names_spelled, comp_spelled, rename_spelled, sub_item_spelled, grouping_spelled, order_item_spelled, current_point, window_start_spelled, window_end_spelled, points_spelled, over_spelled};

use crate::kinds::{Spell, both, chosen, integer, optional, push, separated, text, written};
use sqlite_items::Items;
use std::alloc::AllocError;
use vtl_syntax::words::{WindowEnd, WindowStart};
use vtl_syntax::{Comp, Grouping, OrderItem, Over, Points, Rename, SubItem};
use vtl_tokens::{Keyword, Sign, TokenKind};
use vtl_values::{Value, Word};

/// A literal in a set, in `sub` and in `between`.
impl Spell for Value {
    ghost spelled = { literal_spelled };

    fn spell(&self, out: &mut Vec<TokenKind>) -> Result<(), AllocError> {
        match self {
            Value::Null => Keyword::Null.spell(out),
            Value::Truth(true) => Keyword::True.spell(out),
            Value::Truth(false) => Keyword::False.spell(out),
            Value::Integer(number) => number.spell(out),
            Value::Number(number) => number.spell(out),
            Value::Text(word) => text(word, out),
        }
    }
}

/// A literal that is an expression, whose sign is an operator.
pub(crate) fn unsigned(value: &Value, out: &mut Vec<TokenKind>) -> Result<(), AllocError>
    ensures { OnOk result (out.new.items ≡ out.old.items ++ unsigned_spelled value.now) }
{
    match value {
        Value::Null => Keyword::Null.spell(out),
        Value::Truth(true) => Keyword::True.spell(out),
        Value::Truth(false) => Keyword::False.spell(out),
        Value::Integer(number) => integer(*number, out),
        Value::Number(number) => push(TokenKind::Number(*number), out),
        Value::Text(word) => text(word, out),
    }
}

pub(crate) fn names(names: &Items<Word>, out: &mut Vec<TokenKind>) -> Result<(), AllocError>
    ensures { OnOk result (out.new.items ≡ out.old.items ++ names_spelled names.now) }
{
    separated(Sign::Comma, names.as_slice(), out)
}

fn component(component: &Option<Word>, out: &mut Vec<TokenKind>) -> Result<(), AllocError>
    ensures { OnOk result (out.new.items ≡ out.old.items ++ optional (λ w. sig Sign.Hash & name w) component.now) }
{
    match component {
        Some(name) => both(&Sign::Hash, name, out),
        None => Ok(()),
    }
}

impl Spell for Comp {
    ghost spelled = { comp_spelled };

    fn spell(&self, out: &mut Vec<TokenKind>) -> Result<(), AllocError> {
        self.name.spell(out)?;
        component(&self.component, out)
    }
}

impl Spell for Rename {
    ghost spelled = { rename_spelled };

    fn spell(&self, out: &mut Vec<TokenKind>) -> Result<(), AllocError> {
        self.component.spell(out)?;
        both(&Keyword::To, &self.name, out)
    }
}

impl Spell for SubItem {
    ghost spelled = { sub_item_spelled };

    fn spell(&self, out: &mut Vec<TokenKind>) -> Result<(), AllocError> {
        self.name.spell(out)?;
        both(&Sign::Equal, &self.value, out)
    }
}

impl Spell for Grouping {
    ghost spelled = { grouping_spelled };

    fn spell(&self, out: &mut Vec<TokenKind>) -> Result<(), AllocError> {
        Keyword::Group.spell(out)?;
        push(written(self.word), out)?;
        names(&self.names, out)
    }
}

impl Spell for OrderItem {
    ghost spelled = { order_item_spelled };

    fn spell(&self, out: &mut Vec<TokenKind>) -> Result<(), AllocError> {
        self.name.spell(out)?;
        chosen(&self.direction, out)
    }
}

fn current_row(out: &mut Vec<TokenKind>) -> Result<(), AllocError>
    ensures { OnOk result (out.new.items ≡ out.old.items ++ current_point) }
{
    Keyword::Current.spell(out)?;
    both(&Keyword::Data, &Keyword::Point, out)
}

impl Spell for WindowStart {
    ghost spelled = { window_start_spelled };

    fn spell(&self, out: &mut Vec<TokenKind>) -> Result<(), AllocError> {
        match self {
            WindowStart::Preceding(count) => {
                integer(*count, out)?;
                Keyword::Preceding.spell(out)
            }
            WindowStart::UnboundedPreceding => both(&Keyword::Unbounded, &Keyword::Preceding, out),
            WindowStart::Current => current_row(out),
        }
    }
}

impl Spell for WindowEnd {
    ghost spelled = { window_end_spelled };

    fn spell(&self, out: &mut Vec<TokenKind>) -> Result<(), AllocError> {
        match self {
            WindowEnd::Following(count) => {
                integer(*count, out)?;
                Keyword::Following.spell(out)
            }
            WindowEnd::UnboundedFollowing => both(&Keyword::Unbounded, &Keyword::Following, out),
            WindowEnd::Current => current_row(out),
        }
    }
}

impl Spell for Points {
    ghost spelled = { points_spelled };

    fn spell(&self, out: &mut Vec<TokenKind>) -> Result<(), AllocError> {
        both(&Keyword::Data, &Keyword::Points, out)?;
        both(&Keyword::Between, &self.from, out)?;
        both(&Keyword::And, &self.to, out)
    }
}

fn partition(partition: &Option<Items<Word>>, out: &mut Vec<TokenKind>) -> Result<(), AllocError>
    ensures { OnOk result (out.new.items ≡ out.old.items ++ optional (λ ws. key Keyword.Partition & key Keyword.By & names_spelled ws) partition.now) }
{
    let Some(partition) = partition else {
        return Ok(());
    };
    both(&Keyword::Partition, &Keyword::By, out)?;
    names(partition, out)
}

fn order(order: &Option<Items<OrderItem>>, out: &mut Vec<TokenKind>) -> Result<(), AllocError>
    ensures { OnOk result (out.new.items ≡ out.old.items ++ optional (λ is. key Keyword.Order & key Keyword.By & commas order_item_spelled is) order.now) }
{
    let Some(order) = order else {
        return Ok(());
    };
    both(&Keyword::Order, &Keyword::By, out)?;
    separated(Sign::Comma, order.as_slice(), out)
}

impl Spell for Over {
    ghost spelled = { over_spelled };

    fn spell(&self, out: &mut Vec<TokenKind>) -> Result<(), AllocError> {
        both(&Keyword::Over, &Sign::LeftParen, out)?;
        partition(&self.partition, out)?;
        order(&self.order, out)?;
        optional(&self.points, out)?;
        Sign::RightParen.spell(out)
    }
}
