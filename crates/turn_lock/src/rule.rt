// What passes know, the rule over it, and the kinds of step, each with what it does to the stepping pass. All of this is for the proofs.
//
// make          the table is made with twice the journal's length in its word and the value in its slot
// take          `Look`: `fetch_or` of 1 on the word
// slot out, in  a plain exchange of the slot, which the holder of the turn has; it changes no view
// give          `Give`: a store of twice the new journal's length
// split         `Cut`: a load
// join          `Merge` and `Compare`: a load each
use crate::growing::Growing;
use atomic_table::{Join, Play, Split, TableRule};
use std::collections::LinkedList;
use std::marker::{Brand, PhantomData};
use std::snapshot::Snapshot;

/// A number that was joined into a pass, with the list of its own entries.
pub struct Joined<E> {
    pub number: u64,
    pub own: LinkedList<E>,
}

/// What a pass knows, for contracts alone: no value of it is made.
pub struct View<E, G> {
    /// False only in the spent view that a join leaves, which has no number and no list.
    pub live: bool,
    /// The ground of the lock's value.
    pub ground: Option<G>,
    /// The number that the pass's entries carry.
    pub number: u64,
    /// The first unused number that the pass owns.
    pub unused: u64,
    /// How many unused numbers it owns, from that one on.
    pub left: u64,
    /// The journal as far as the pass has seen it.
    pub seen: LinkedList<E>,
    /// The shorter seen list of the last join.
    pub other: LinkedList<E>,
    /// The entries that carry the pass's number.
    pub own: LinkedList<E>,
    /// The numbers of the passes that were joined into it, each with its list.
    pub kept: LinkedList<Joined<E>>,
    /// How many looks the pass has made.
    pub looks: u64,
    /// The word that its last look found.
    pub word: u64,
    /// Whether it holds the turn.
    pub holds: bool,
    /// While it holds the turn, the journal that it found.
    pub found: LinkedList<E>,
}

/// The rule of six points.
pub struct Turn;

impl<S: Growing> TableRule<Option<S>, View<S::Entry, S::Ground>, Snapshot<S>> for Turn {
    ghost use Rattle.turn_lock.specs.Rule.{KeepsRule};
    ghost use Rattle.turn_lock.specs.Steps.{newcomer};

    ghost holds = { λ key s. KeepsRule S.journal S.caller S.ground (S.ground key.value) s };

    ghost first = { λ key. newcomer (S.ground key.value) (S.journal key.value) };
}

/// A look: the turn is taken where it is free.
pub struct Look;

impl<S: Growing> Play<Option<S>, View<S::Entry, S::Ground>> for Look {
    ghost use Rattle.turn_lock.specs.Steps.{Looked};

    ghost then = { λ _. Looked S.journal S.caller S.ground };
}

/// The turn is given back.
pub struct Give;

impl<S: Growing> Play<Option<S>, View<S::Entry, S::Ground>> for Give {
    ghost use Rattle.turn_lock.specs.Steps.{Gave};

    ghost then = { λ _ m _ w. Gave S.journal m w };
}

/// The second load of a join, which tells that the shorter seen list begins the longer one.
pub struct Compare;

impl<S, E, G> Play<Option<S>, View<E, G>> for Compare {
    ghost use Rattle.turn_lock.specs.Steps.{Compared};

    ghost then = { λ _ m _ w. Compared m w };
}

/// How many numbers a split gives away, for the proof alone. A call at `Brand` picks it.
pub trait Share {
    ghost use Rattle.std.specs.Prelude.{ℕ};

    ghost share: { ℕ };
}

impl Share for Brand {
    ghost share = { 0 };
}

/// A pass is split in two.
pub struct Cut<N> {
    marker: PhantomData<N>,
}

impl<E, G, N: Share> Split<View<E, G>> for Cut<N> {
    ghost use Rattle.turn_lock.specs.Steps.{split_left, split_right};

    ghost left = { split_left N.share };

    ghost right = { split_right N.share };
}

/// Two passes are joined.
pub struct Merge;

impl<E, G> Join<View<E, G>> for Merge {
    ghost use Rattle.turn_lock.specs.Steps.{joined, nobody};

    ghost both = { joined };

    ghost spent = { nobody };
}
