// Checked expressions with their kinds.
ghost use Rattle.std.specs.Prelude.{◌≡◌};

use crate::CheckedExpr;
use vtl_values::Kind;

/// A checked expression and its kind. The literal null has none of its own.
pub struct Typed {
    pub tree: CheckedExpr,
    pub kind: Option<Kind>,
}

// Written out, so that who drops one calls this and doesn't go through what is in it.
impl Drop for Typed {
    fn drop(self) {
        let Typed { tree: _, kind: _ } = self;
    }
}

impl Typed {
    /// The expression alone.
    pub fn into_tree(self) -> CheckedExpr
        ensures { result ≡ self.tree }
    {
        let Typed { tree, kind: _ } = self;
        tree
    }
}
