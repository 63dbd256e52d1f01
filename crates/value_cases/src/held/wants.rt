// Structures, and what is wanted of an operand, from what a case gives.
use anyhow::{Result, bail};
use case_files::lines::{items, list_at, text_at};
use held_index::{OrderItem, Want};
use serde_json::Value as Json;
use sqlite_items::Items;
use std::alloc::Global;
use structure_files::read_structures;
use vtl_values::Structure;

// A structure file of one data set with these components.
fn file_text(alloc: Global, components: &[Json]) -> Result<String> {
    let mut text = String::from_str(alloc, "{\"datasets\":[{\"name\":\"A\",\"components\":[")?;
    for component in components {
        let words = items(component)?;
        let (name, role, kind) = (text_at(words, 0)?, text_at(words, 1)?, text_at(words, 2)?);
        if !text.ends_with('[') {
            text.push_str(",")?;
        }
        write!(
            text,
            "{{\"name\":\"{name}\",\"role\":\"{role}\",\"type\":\"{kind}\"}}"
        )?;
    }
    text.push_str("]}]}")?;
    Ok(text)
}

/// The structure of these components.
pub fn structure_of(alloc: Global, components: &[Json]) -> Result<Structure> {
    let text = file_text(alloc, components)?;
    let Ok(structures) = read_structures(alloc, text.as_bytes()) else {
        bail!("no structure");
    };
    match structures.nth(0) {
        Some((_, structure)) => Ok(structure.copy()?),
        None => bail!("no structure"),
    }
}

// The number of a component.
fn number(word: Option<&Json>) -> Result<u64> {
    match word.and_then(Json::as_u64) {
        Some(number) => Ok(number),
        None => bail!("no number of a component"),
    }
}

fn numbers(alloc: Global, listed: &[Json]) -> Result<Items<u64>> {
    let mut numbers = Vec::new(alloc);
    for word in listed {
        numbers.push(number(Some(word))?)?;
    }
    Ok(Items::from_vec(numbers))
}

fn order_item(words: &[Json]) -> Result<OrderItem> {
    let component = number(words.get(0))?;
    let descending = match text_at(words, 1)? {
        "ascending" => false,
        "descending" => true,
        word => bail!("no order {word}"),
    };
    Ok(OrderItem {
        component,
        descending,
    })
}

fn order(alloc: Global, listed: &[Json]) -> Result<Items<OrderItem>> {
    let mut order = Vec::new(alloc);
    for item in listed {
        order.push(order_item(items(item)?)?)?;
    }
    Ok(Items::from_vec(order))
}

/// What a case wants of its operand.
pub fn want_of(alloc: Global, words: &[Json]) -> Result<Want> {
    Ok(Want {
        operand: 0,
        part: numbers(alloc, list_at(words, 2)?)?,
        order: order(alloc, list_at(words, 3)?)?,
        sums: numbers(alloc, list_at(words, 4)?)?,
    })
}
