// From the text of an expression to its tree.
use anyhow::{Result, bail};
use std::alloc::Global;
use vtl_lexer::tokens;
use vtl_parser::parse;
use vtl_syntax::Script;

/// The script of one statement, whose expression stands alone on the second line, so its columns are those of the case,
/// and of rulesets on the next one.
pub fn script_of(alloc: Global, expression: &str, rulesets: &str) -> Result<Script> {
    let text = format!(in alloc; "R <-\n{expression};\n{rulesets}")?;
    let bytes = text.as_bytes();
    if bytes.len() > 100_000 {
        bail!("a long expression");
    }
    let Ok(list) = tokens(alloc, bytes) else {
        bail!("no tokens");
    };
    match parse(alloc, list.as_slice()) {
        Ok(script) => Ok(script.into_script()),
        Err(_) => bail!("no expression"),
    }
}
