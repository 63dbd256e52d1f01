// The structures of data sets.
ghost use Rattle.std.specs.Prelude.{◌≡◌, IfOk, IfErr, OnOk, OnErr, MatchResult, slice_get, ◌∷◌, [], ◌++◌};
ghost use Rattle.std.specs.Option.{option_copied};

use crate::codes::CodeList;
use crate::kind::{Kind, Role};
use crate::word::Word;
use sqlite_items::Items;
use std::alloc::{AllocError, Global};
use std::marker::Model;
use std::sync::Arc;

/// The code list of a component: any text, or the texts listed.
#[derive(Debug, Drop)]
pub enum Codes {
    Any,
    Listed(CodeList),
}

impl Codes {
    /// The same code list, whose codes are shared, or want of memory.
    pub fn copy(&self) -> Result<Codes, AllocError>
        ensures { IfOk result (λ codes. codes ≡ self.now) }
    {
        Ok(match self {
            Codes::Any => Codes::Any,
            Codes::Listed(codes) => Codes::Listed(codes.copy()?),
        })
    }
}

/// A column of a data set.
#[derive(Debug)]
pub struct Component {
    pub name: Word,
    pub role: Role,
    pub kind: Kind,
    pub codes: Codes,
}

// Written out, so that who drops one calls this and doesn't go through what is in it.
impl Drop for Component {
    fn drop(self) {
        let Component {
            name: _,
            role: _,
            kind: _,
            codes: _,
        } = self;
    }
}

impl Component {
    /// An equal component, which shares the codes, or want of memory.
    pub fn copy(&self) -> Result<Component, AllocError>
        ensures { IfOk result (λ component. component ≡ self.now) }
    {
        Ok(Component {
            name: self.name.copy()?,
            role: self.role,
            kind: self.kind,
            codes: self.codes.copy()?,
        })
    }

    /// The component under another name.
    pub fn renamed(self, name: Word) -> Component
        ensures { result ≡ record self { name = name } }
    {
        let Component {
            name: _,
            role,
            kind,
            codes,
        } = self;
        Component {
            name,
            role,
            kind,
            codes,
        }
    }
}

/// The components of a data set in their order: identifiers, measures, attributes, viral attributes. Contracts see it
/// as the list of them. Copies share the components.
#[derive(Debug)]
pub struct Structure {
    components: Arc<Items<Component>>,
}

// Written out, so that who drops one calls this and doesn't go through what is in it.
impl Drop for Structure {
    fn drop(self) {
        let Structure { components: _ } = self;
    }
}

impl Model for Structure {
    ghost use Rattle.std.specs.Prelude.{List};
    ghost use Rattle.std.specs.Arc.{arc_value};
    ghost use Rattle.vtl_values.specs.declared.structure.Component.{Component};

    ghost Value = { List Component };

    ghost use Rattle.vtl_values.specs.Structures.{IsStructure};

    ghost view = { λ s. arc_value s.components };

    ghost invariant = { λ s. IsStructure (arc_value s.components) };
}

impl Structure {
    ghost use Rattle.vtl_values.specs.Structures.{IsStructure};

    /// A structure of components that stand by role and fit together, or want of memory.
    pub fn of(alloc: Global, components: Vec<Component>) -> Result<Structure, AllocError>
        requires { IsStructure components.items }
        ensures { IfOk result (λ structure. structure ≡ components.items) }
    {
        Ok(Structure {
            components: Arc::new(alloc, Items::from_vec(components))?,
        })
    }

    /// The components, in structure order.
    pub fn components(&self) -> &[Component]
        ensures value { result.now ≡ self.now }
        ensures structure { IsStructure self.now }
    {
        self.components.as_slice()
    }

    /// An equal structure, which shares the components, or want of memory.
    pub fn copy(&self) -> Result<Structure, AllocError>
        ensures { IfOk result (λ structure. structure ≡ self.now) }
    {
        Ok(Structure {
            components: self.components.clone()?,
        })
    }
}
