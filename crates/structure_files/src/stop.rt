// Why a structure file is refused, and where.
ghost use Rattle.std.specs.Prelude.{◌≡◌, ◌++◌, IfOk, codes, string_bytes};
ghost use Rattle.structure_files.specs.Paths.{path_text, field_text, set_text, component_text};
ghost use Rattle.structure_files.specs.declared.stop.StructureStop.TheVariants.{Memory};

use std::alloc::{AllocError, AllocFailed, Global};
use thiserror::Error;

/// A fault of a structure file.
#[derive(Clone, Copy, Debug, Drop, PartialEq, Eq, Error)]
pub enum Fault {
    #[error("the file is no JSON")]
    NotJson,
    #[error("a field is missing")]
    MissingField,
    #[error("there is no such role")]
    BadRole,
    #[error("there is no such type")]
    BadType,
    #[error("the name is used twice")]
    NameTwice,
    #[error("the data set has no identifier")]
    NoIdentifier,
    #[error("there are too many of them")]
    TooMany,
    #[error("this is no name")]
    BadName,
    #[error("this is no code list")]
    BadCodes,
}

/// A field of a data set or of a component.
#[derive(Clone, Copy, Debug, PartialEq, Eq)]
pub enum Field {
    Name,
    Role,
    Kind,
    Codes,
    Components,
}

impl Field {
    /// The field's name in the file.
    pub fn text(self) -> &'static str
        ensures { result.now ≡ field_text self }
    {
        match self {
            Field::Name => "name",
            Field::Role => "role",
            Field::Kind => "type",
            Field::Codes => "codes",
            Field::Components => "components",
        }
    }
}

/// A place in a structure file: the number of a data set, and the number of a component in it, both from 0.
#[derive(Clone, Copy, Debug, PartialEq, Eq)]
pub enum Path {
    Whole,
    Datasets,
    Set(u64),
    SetField(u64, Field),
    Component(u64, u64),
    ComponentField(u64, u64, Field),
}

impl Path {
    /// The path as text, as `datasets[0].components[1].role`.
    pub fn text(&self, alloc: Global) -> Result<String, AllocError>
        ensures { IfOk result (λ text. string_bytes text ≡ path_text self.now) }
    {
        match *self {
            Path::Whole => String::from_str(alloc, "-"),
            Path::Datasets => String::from_str(alloc, "datasets"),
            Path::Set(set) => set_text(alloc, set),
            Path::SetField(set, field) => with_field(set_text(alloc, set)?, field),
            Path::Component(set, component) => component_text(alloc, set, component),
            Path::ComponentField(set, component, field) => with_field(
                component_text(alloc, set, component)?,
                field,
            ),
        }
    }
}

fn set_text(alloc: Global, set: u64) -> Result<String, AllocError>
    ensures { IfOk result (λ text. string_bytes text ≡ set_text set) }
{
    format!(in alloc; "datasets[{set}]")
}

fn component_text(alloc: Global, set: u64, component: u64) -> Result<String, AllocError>
    ensures { IfOk result (λ text. string_bytes text ≡ component_text set component) }
{
    let mut text = set_text(alloc, set)?;
    let rest = format!(in alloc; ".components[{component}]")?;
    text.push_str(rest.as_str())?;
    Ok(text)
}

fn with_field(text: String, field: Field) -> Result<String, AllocError>
    ensures { IfOk result (λ more. string_bytes more ≡ string_bytes text ++ codes "." ++ field_text field) }
{
    let mut text = text;
    text.push_str(".")?;
    text.push_str(field.text())?;
    Ok(text)
}

/// A fault and where it stands.
#[derive(Clone, Copy, Debug, PartialEq, Eq)]
pub struct Refusal {
    pub fault: Fault,
    pub path: Path,
}

/// Why a structure file gives no structures.
#[derive(Clone, Copy, Debug, Drop, PartialEq, Eq, Error)]
pub enum StructureStop {
    #[error("the structure file is refused")]
    Refused(Refusal),
    #[error("out of memory")]
    Memory,
}

impl StructureStop {
    ghost use Rattle.std.specs.Prelude.{Ok};
    ghost use Rattle.structure_files.specs.declared.stop.StructureStop.TheVariants.{Refused};

    pub(crate) fn at(fault: Fault, path: Path) -> StructureStop
        ensures { result ≡ Refused (record { fault = fault; path = path }) }
    {
        StructureStop::Refused(Refusal { fault, path })
    }
}

impl From<AllocError> for StructureStop {
    ghost from_gives = { λ _ stop. stop ≡ Memory };

    fn from(_error: AllocError) -> Self {
        StructureStop::Memory
    }
}

impl<T: Drop> From<AllocFailed<T>> for StructureStop {
    ghost from_gives = { λ _ stop. stop ≡ Memory };

    fn from(_error: AllocFailed<T>) -> Self {
        StructureStop::Memory
    }
}
