// The published data set of a statement, with its text.
ghost use Rattle.std.specs.Prelude.{◌≡◌, IfOk};
ghost use Rattle.std.specs.FinMap as finmap;
ghost use Rattle.data_model.specs.Deltas.{apply, BeginsAt, Leads};
ghost use Rattle.outside.specs.Sinks.{Extends};
ghost use Rattle.release_text.specs.Releases.{page_of, page_text};

use crate::table::with_table;
use outside::{Sink, SinkStop, put};
use point_sets::{Delta, PointSet};
use std::alloc::{AllocError, Global};
use std::marker::Model;
use std::sync::Arc;
use vtl_values::{Structure, Word};

// The line of the name, and the table.
fn text_of(
    alloc: Global,
    name: &Word,
    structure: &Structure,
    set: &PointSet,
) -> Result<Vec<u8>, AllocError>
    ensures { IfOk result (λ text. text.items ≡ page_text (page_of name.now structure.now set.now)) }
{
    let mut text = Vec::new(alloc);
    text.push(b'[')?;
    text.extend_from_slice(name.as_str().as_bytes())?;
    text.extend_from_slice(b"]\n")?;
    with_table(alloc, text, structure, set)
}

// A data set with its name, its structure and the text that is made of them.
#[derive(Drop)]
struct Held {
    name: Arc<Word>,
    structure: Structure,
    set: PointSet,
    text: Vec<u8>,
}

/// The published data set of a statement, with its text held whole. Contracts see the name, the components and the set
/// of points. Copies share what is held, so they are cheap, and the text is written without memory.
pub struct Pages {
    held: Arc<Held>,
}

// Written out, so that who drops one calls this and doesn't go through what is in it.
impl Drop for Pages {
    fn drop(self) {
        let Pages { held: _ } = self;
    }
}

impl Model for Pages {
    ghost use Rattle.std.specs.Prelude.{◌≡◌};
    ghost use Rattle.std.specs.Arc.{arc_value};
    ghost use Rattle.release_text.specs.Releases.{Page, page_coded, page_text};
    ghost use Rattle.release_text.specs.Shown.{held_page};

    ghost Value = { Page };

    ghost coded = { page_coded };

    ghost view = { λ pages. held_page (arc_value pages.held) };

    ghost invariant = { λ pages. (arc_value pages.held).text.items ≡ page_text (held_page (arc_value pages.held)) };
}

impl Pages {
    ghost use Rattle.std.specs.Arc.{arc_value};

    /// Pages without points, of this name and structure, or want of memory.
    pub fn empty(alloc: Global, name: &Word, structure: &Structure) -> Result<Pages, AllocError>
        ensures { IfOk result (λ pages. pages ≡ page_of name.now structure.now finmap.empty) }
    {
        Pages::of(
            alloc,
            Arc::new(alloc, name.copy()?)?,
            structure.copy()?,
            PointSet::new(alloc),
        )
    }

    fn of(
        alloc: Global,
        name: Arc<Word>,
        structure: Structure,
        set: PointSet,
    ) -> Result<Pages, AllocError>
        ensures { IfOk result (λ pages. pages ≡ page_of (arc_value name) structure set) }
    {
        let text = text_of(alloc, &name, &structure, &set)?;
        let held = Held {
            name,
            structure,
            set,
            text,
        };
        Ok(Pages {
            held: Arc::new(alloc, held)?,
        })
    }

    /// The name of the statement's result.
    pub fn name(&self) -> &Word
        ensures { result.now ≡ self.now.name }
    {
        &self.held.name
    }

    /// The number of points of the set.
    pub fn count(&self) -> u64
        ensures { result ≡ finmap.len self.now.set }
    {
        self.held.set.count()
    }

    /// The pages after a delta that begins at their set, or want of memory. These pages stay as they are, and the name and
    /// the structure are shared. The text is written anew, in a time that grows with it.
    pub fn after(&self, delta: &Delta) -> Result<Pages, AllocError>
        requires { BeginsAt delta.now self.now.set }
        ensures pages { IfOk result (λ pages. pages ≡ page_of self.now.name self.now.components (apply delta.now self.now.set)) }
        ensures leads { IfOk result (λ pages. Leads delta.now self.now.set pages.set) }
    {
        let held: &Held = &self.held;
        let alloc = *held.text.allocator();
        let mut set = held.set.copy()?;
        set.apply(delta)?;
        Pages::of(alloc, held.name.clone()?, held.structure.copy()?, set)
    }

    /// Equal pages, which share what is held, or want of memory.
    pub fn copy(&self) -> Result<Pages, AllocError>
        ensures { IfOk result (λ pages. pages ≡ self.now) }
    {
        Ok(Pages {
            held: self.held.clone()?,
        })
    }

    /// Writes the line `[NAME]` and the table after what was written so far, unless that has stopped already. It wants
    /// memory only where the sink does. At a stop a prefix of the text is written.
    pub fn write_to<K: Sink>(
        &self,
        out: &mut K,
        so_far: Result<(), SinkStop>,
    ) -> Result<(), SinkStop>
        ensures { Extends (K.view out.old) (K.view out.new) so_far result (page_text self.now) }
    {
        put(out, so_far, self.held.text.as_slice())
    }
}
