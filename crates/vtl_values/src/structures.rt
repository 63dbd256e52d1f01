// Structures by name.
ghost use Rattle.std.specs.Prelude.{◌≡◌, ◌++◌, ◌∷◌, [], None, length, slice_get, IfOk, OnOk, OnErr};
ghost use Rattle.std.specs.Option.{option_copied, option_map};

use crate::structure::Structure;
use crate::word::Word;
use indexmap::IndexMap;
use std::alloc::{AllocError, Global};
use std::marker::Model;

/// The structures of a project by their names. Contracts see it as the list of names and structures in the order of
/// insertion, in which each name stands once.
pub struct Structures {
    entries: IndexMap<Word, Structure>,
}

// Written out, so that who drops one calls this and doesn't go through what is in it.
impl Drop for Structures {
    fn drop(self) {
        let Structures { entries: _ } = self;
    }
}

impl Model for Structures {
    ghost use Rattle.vtl_values.specs.Structures.{NamedStructures};

    ghost Value = { NamedStructures };

    ghost view = { λ s. s.entries.entries };
}

impl Structures {
    ghost use Rattle.vtl_values.specs.Structures.{structure_of, number_of, HasNamesOnce};

    /// No structures yet.
    pub fn new(alloc: Global) -> Structures
        ensures { result ≡ [] }
    {
        Structures {
            entries: IndexMap::new(alloc),
        }
    }

    /// How many structures there are. Their names differ.
    pub fn len(&self) -> usize
        ensures len { result ≡ length self.now }
        ensures names_once { HasNamesOnce self.now }
    {
        self.entries.len()
    }

    /// The structure of this name.
    pub fn get(&self, name: &Word) -> Option<&Structure>
        ensures { option_copied result ≡ structure_of self.now name.now }
    {
        self.entries.get(name)
    }

    /// How many structures stand before that of this name.
    pub fn number_of(&self, name: &Word) -> Option<usize>
        ensures { result ≡ number_of self.now name.now }
    {
        self.entries.get_index_of(name)
    }

    /// The name and the structure with this number.
    pub fn nth(&self, n: usize) -> Option<(&Word, &Structure)>
        ensures value { option_map (λ p. (p.0.now, p.1.now)) result ≡ slice_get self.now n }
        ensures names_once { HasNamesOnce self.now }
    {
        // Its clause tells that the names differ.
        let _ = self.len();
        self.entries.get_index(n)
    }

    /// Puts a new name last. At want of memory nothing has changed.
    pub fn insert(&mut self, name: Word, structure: Structure) -> Result<(), AllocError>
        requires { structure_of self.old name ≡ None }
        ensures ok { OnOk result (self.new ≡ self.old ++ (name, structure) ∷ []) }
        ensures err { OnErr result (self.new ≡ self.old) }
    {
        self.entries.insert(name, structure)?;
        Ok(())
    }

    /// Equal structures, or want of memory.
    pub fn copy(&self, alloc: Global) -> Result<Structures, AllocError>
        ensures { IfOk result (λ structures. structures ≡ self.now) }
    {
        let mut copies = Structures::new(alloc);
        while let Some((name, structure)) = self.nth(copies.len()) {
            copies.insert(name.copy()?, structure.copy()?)?;
        }
        Ok(copies)
    }
}
