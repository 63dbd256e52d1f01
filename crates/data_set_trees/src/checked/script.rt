// Typed scripts.
ghost use Rattle.std.specs.Prelude.{◌≡◌};

use crate::DataSetTree;
use sqlite_items::Items;
use std::marker::Model;
use vtl_values::{Structure, Structures, Word};

/// A result, whether it is published (`<-`) or only used (`:=`), how it is worked out, and its structure.
pub struct CheckedStatement {
    pub name: Word,
    pub persistent: bool,
    pub tree: DataSetTree,
    pub structure: Structure,
}

// Written out, so that who drops one calls this and doesn't go through what is in it.
impl Drop for CheckedStatement {
    fn drop(self) {
        let CheckedStatement {
            name: _,
            persistent: _,
            tree: _,
            structure: _,
        } = self;
    }
}

/// A script whose structures are worked out: the structures of its inputs, its statements in the order of the script, and
/// an order of them in which operands come first. Contracts see it as these three.
pub struct TypedScript {
    inputs: Structures,
    statements: Items<CheckedStatement>,
    order: Items<u64>,
}

// Written out, so that who drops one calls this and doesn't go through what is in it.
impl Drop for TypedScript {
    fn drop(self) {
        let TypedScript {
            inputs: _,
            statements: _,
            order: _,
        } = self;
    }
}

impl Model for TypedScript {
    ghost use Rattle.data_set_trees.specs.checked.Scripts.{Script, script_coded, IsTypedScript};

    ghost Value = { Script };

    ghost coded = { script_coded };

    ghost view = { λ s. record { inputs = s.inputs; statements = s.statements; order = s.order } };

    ghost invariant = { λ s. IsTypedScript (record { inputs = s.inputs; statements = s.statements; order = s.order }) };
}

impl TypedScript {
    ghost use Rattle.data_set_trees.specs.checked.Scripts.{IsTypedScript};

    /// A script whose structures are worked out.
    pub fn of(
        inputs: Structures,
        statements: Items<CheckedStatement>,
        order: Items<u64>,
    ) -> TypedScript
        requires { IsTypedScript (record { inputs = inputs; statements = statements; order = order }) }
        ensures { result ≡ record { inputs = inputs; statements = statements; order = order } }
    {
        TypedScript {
            inputs,
            statements,
            order,
        }
    }

    /// The structures of the inputs, by name and by number.
    pub fn inputs(&self) -> &Structures
        ensures { result.now ≡ self.now.inputs }
    {
        &self.inputs
    }

    /// The statements, in the order of the text. The script is a typed one.
    pub fn statements(&self) -> &[CheckedStatement]
        ensures value { result.now ≡ self.now.statements }
        ensures typed { IsTypedScript self.now }
    {
        self.statements.as_slice()
    }

    /// The numbers of the statements, each after those that it uses.
    pub fn order(&self) -> &[u64]
        ensures { result.now ≡ self.now.order }
    {
        self.order.as_slice()
    }
}
