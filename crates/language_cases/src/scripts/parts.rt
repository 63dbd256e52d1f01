// Parts of forms in which no expression stands.
use crate::scripts::fields::{push_choice, push_name, push_place, push_value, push_word};
use std::alloc::AllocError;
use vtl_syntax::{Comp, Grouping, OrderItem, Over, Rename, SubItem, Variable};
use vtl_values::Word;

/// ` NAME NAME ..`
pub fn push_names(out: &mut String, names: &[Word]) -> Result<(), AllocError> {
    for name in names {
        push_word(out, name)?;
    }
    Ok(())
}

fn push_comp(out: &mut String, comp: &Comp) -> Result<(), AllocError> {
    push_place(out, comp.place)?;
    out.push_str(comp.name.as_str())?;
    push_name(out, "#", &comp.component)
}

/// Components, each with its place.
pub fn push_comps(out: &mut String, comps: &[Comp]) -> Result<(), AllocError> {
    for comp in comps {
        out.push_str(" (")?;
        push_comp(out, comp)?;
        out.push_str(")")?;
    }
    Ok(())
}

/// New names, each with its place and that of its component.
pub fn push_renames(out: &mut String, renames: &[Rename]) -> Result<(), AllocError> {
    for rename in renames {
        out.push_str(" (")?;
        push_place(out, rename.place)?;
        push_comp(out, &rename.component)?;
        write!(out, " to {})", rename.name.as_str())?;
    }
    Ok(())
}

/// Items of `sub`, each with its place.
pub fn push_sub_items(out: &mut String, items: &[SubItem]) -> Result<(), AllocError> {
    for item in items {
        out.push_str(" (")?;
        push_place(out, item.place)?;
        out.push_str(item.name.as_str())?;
        push_value(out, &item.value)?;
        out.push_str(")")?;
    }
    Ok(())
}

/// Variables of a ruleset, each with its place.
pub fn push_variables(out: &mut String, variables: &[Variable]) -> Result<(), AllocError> {
    for variable in variables {
        out.push_str(" (")?;
        push_place(out, variable.place)?;
        out.push_str(variable.name.as_str())?;
        push_name(out, "as", &variable.alias)?;
        out.push_str(")")?;
    }
    Ok(())
}

/// ` [LINE:COLUMN By NAME ..]`
pub fn push_grouping(out: &mut String, grouping: &Grouping) -> Result<(), AllocError> {
    out.push_str(" [")?;
    push_place(out, grouping.place)?;
    write!(out, "{:?}", grouping.word)?;
    push_names(out, grouping.names.as_slice())?;
    out.push_str("]")
}

fn push_order(out: &mut String, items: &[OrderItem]) -> Result<(), AllocError> {
    out.push_str(" order")?;
    for item in items {
        out.push_str(" (")?;
        push_place(out, item.place)?;
        out.push_str(item.name.as_str())?;
        if let Some(direction) = &item.direction {
            push_choice(out, direction)?;
        }
        out.push_str(")")?;
    }
    Ok(())
}

/// ` [LINE:COLUMN over ..]`
pub fn push_over(out: &mut String, over: &Over) -> Result<(), AllocError> {
    out.push_str(" [")?;
    push_place(out, over.place)?;
    out.push_str("over")?;
    if let Some(names) = &over.partition {
        out.push_str(" partition")?;
        push_names(out, names.as_slice())?;
    }
    if let Some(items) = &over.order {
        push_order(out, items.as_slice())?;
    }
    if let Some(points) = &over.points {
        out.push_str(" points ")?;
        push_place(out, points.place)?;
        write!(out, "{:?} {:?}", points.from, points.to)?;
    }
    out.push_str("]")
}
