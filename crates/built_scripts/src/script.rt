// Scripts that may be run.
ghost use Rattle.std.specs.Prelude.{◌≡◌, true};
ghost use Rattle.std.specs.List.{list_all};

use data_set_trees::checked::{CheckedStatement, TypedScript};
use std::marker::Model;
use vtl_values::Structures;

/// A script that may be run: its operators are well typed and built. Contracts see it as the typed script.
pub struct CheckedScript {
    typed: TypedScript,
}

// Written out, so that who drops one calls this and doesn't go through what is in it.
impl Drop for CheckedScript {
    fn drop(self) {
        let CheckedScript { typed: _ } = self;
    }
}

impl Model for CheckedScript {
    ghost use Rattle.data_set_trees.specs.checked.Scripts.{Script, script_coded};
    ghost use Rattle.built_scripts.specs.Built.{IsRunnable};

    ghost Value = { Script };

    ghost coded = { script_coded };

    ghost view = { λ s. s.typed };

    ghost invariant = { λ s. IsRunnable s.typed };
}

impl CheckedScript {
    ghost use Rattle.data_set_trees.specs.checked.Scripts.{IsChecked};
    ghost use Rattle.built_scripts.specs.Built.{is_statement_built, IsRunnable};

    /// The typed script, as one that may be run.
    pub(crate) fn of(typed: TypedScript) -> CheckedScript
        requires { IsRunnable typed }
        ensures { result ≡ typed }
    {
        CheckedScript { typed }
    }

    /// The structures of the inputs, by name and by number.
    pub fn inputs(&self) -> &Structures
        ensures { result.now ≡ self.now.inputs }
    {
        self.typed.inputs()
    }

    /// The statements, in the order of the text. They are well typed, and their operators are built.
    pub fn statements(&self) -> &[CheckedStatement]
        ensures value { result.now ≡ self.now.statements }
        ensures checked { IsChecked self.now }
        ensures built { list_all is_statement_built self.now.statements ≡ true }
    {
        self.typed.statements()
    }

    /// The numbers of the statements, each after those that it uses.
    pub fn order(&self) -> &[u64]
        ensures { result.now ≡ self.now.order }
    {
        self.typed.order()
    }
}
