// Copies of what stands in rulesets and in the heads of operators.
ghost use Rattle.std.specs.Prelude.{◌≡◌, IfOk};

use sqlite_items::Items;
use std::alloc::{AllocError, Global};
use tree_copies::copy_optional_word;
use vtl_syntax::{FaultPart, Param, SignedName, Variable};

pub(crate) fn copy_fault(fault: &FaultPart) -> Result<FaultPart, AllocError>
    ensures { IfOk result (λ copy. copy ≡ fault.now) }
{
    Ok(FaultPart {
        code: copy_optional_word(&fault.code)?,
        level: fault.level,
        place: fault.place,
    })
}

fn copy_variable(variable: &Variable) -> Result<Variable, AllocError>
    ensures { IfOk result (λ copy. copy ≡ variable.now) }
{
    Ok(Variable {
        name: variable.name.copy()?,
        alias: copy_optional_word(&variable.alias)?,
        place: variable.place,
    })
}

pub(crate) fn copy_variables(
    alloc: Global,
    variables: &[Variable],
) -> Result<Items<Variable>, AllocError>
    ensures { IfOk result (λ copy. copy ≡ variables.now) }
{
    let mut copy = Items::new(alloc);
    for variable in variables {
        copy.push(copy_variable(variable)?)?;
    }
    Ok(copy)
}

pub(crate) fn copy_optional_variables(
    alloc: Global,
    variables: &Option<Items<Variable>>,
) -> Result<Option<Items<Variable>>, AllocError>
    ensures { IfOk result (λ copy. copy ≡ variables.now) }
{
    match variables {
        Some(variables) => Ok(Some(copy_variables(alloc, variables.as_slice())?)),
        None => Ok(None),
    }
}

fn copy_signed_name(name: &SignedName) -> Result<SignedName, AllocError>
    ensures { IfOk result (λ copy. copy ≡ name.now) }
{
    Ok(SignedName {
        sign: name.sign,
        name: name.name.copy()?,
        place: name.place,
    })
}

pub(crate) fn copy_signed_names(
    alloc: Global,
    names: &[SignedName],
) -> Result<Items<SignedName>, AllocError>
    ensures { IfOk result (λ copy. copy ≡ names.now) }
{
    let mut copy = Items::new(alloc);
    for name in names {
        copy.push(copy_signed_name(name)?)?;
    }
    Ok(copy)
}

fn copy_param(param: &Param) -> Result<Param, AllocError>
    ensures { IfOk result (λ copy. copy ≡ param.now) }
{
    Ok(Param {
        name: param.name.copy()?,
        sort: param.sort,
        place: param.place,
    })
}

pub(crate) fn copy_params(alloc: Global, params: &[Param]) -> Result<Items<Param>, AllocError>
    ensures { IfOk result (λ copy. copy ≡ params.now) }
{
    let mut copy = Items::new(alloc);
    for param in params {
        copy.push(copy_param(param)?)?;
    }
    Ok(copy)
}
