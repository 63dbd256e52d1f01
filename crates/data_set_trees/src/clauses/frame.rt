// What a clause works on.
ghost use Rattle.std.specs.Prelude.{◌≡◌};

use scalar_trees::typing::ScopeName;
use sqlite_items::Items;
use vtl_values::Component;

/// Components, and the names that they have. In a data set each component has its bare name; in a join one may have
/// several, as `alias#name`, so each name stands apart, with the number of its component.
#[derive(Debug)]
pub struct Frame {
    pub names: Items<ScopeName>,
    pub components: Items<Component>,
}

// Written out, so that who drops one calls this and doesn't go through what is in it.
impl Drop for Frame {
    fn drop(self) {
        let Frame {
            names: _,
            components: _,
        } = self;
    }
}

impl Frame {
    /// The components alone.
    pub fn into_components(self) -> Items<Component>
        ensures { result ≡ self.components }
    {
        let Frame {
            names: _,
            components,
        } = self;
        components
    }
}
