//! Pairs that are inserted one at a time at their places in the order of their keys.
ghost use Rattle.std.specs.Prelude.{◌≡◌, ◌≤◌, [], IfOk, IsOk, OnErr, length};
ghost use Rattle.std.specs.Map.{keys_of, values_of};
ghost use Rattle.commonware_ordered.specs.Put.{IsPrefix, IsPut};
ghost use Rattle.commonware_ordered.specs.Strict.{IsStrict};

mod run;
mod tree;

use commonware_ordered::MOST_ROOM;
use run::Run;
use std::alloc::{AllocError, Allocator};
use std::cmp::Ordering;
use std::collections::BTreeMap;
use std::marker::Model;
use tree::put;

/// A builder: pairs in the order of their keys, each key once. They are in a run while each key is
/// greater than the last, which takes constant time a pair; the first lesser key moves them all
/// into a tree.
///
/// After the keys 1 to 5,000 in order and then 0, `into_columns` returns the keys from 0 to 5,000,
/// and the value of each at its position.
#[derive(Drop)]
pub struct SortedEntries<K: Ord, V, A: Allocator> {
    run: Run<K, V, A>,
    tree: BTreeMap<K, V, A>,
}

impl<K: Ord, V, A: Allocator> Model for SortedEntries<K, V, A> {
    ghost use Rattle.std.specs.Prelude.{◌≡◌, ◌⊎◌, ◌++◌, [], List};

    ghost Value = { List (K × V) };

    ghost view = { λ g. g.run ++ g.tree.entries };

    ghost invariant = { λ g. (g.run ≡ []) ⊎ (g.tree.entries ≡ []) };
}

impl<K: Ord + Drop, V: Drop, A: Allocator + Copy> SortedEntries<K, V, A> {
    /// Returns an empty builder with room for some of the pairs that are to come. Where none are to
    /// come it allocates nothing.
    pub fn with_room(alloc: A, coming: usize) -> Result<Self, AllocError>
        ensures blank { IfOk result (λ entries. entries ≡ []) }
        ensures none { coming ≡ 0 → IsOk result }
    {
        Ok(SortedEntries {
            run: Run::with_room(alloc, coming.min(MOST_ROOM))?,
            tree: BTreeMap::new(alloc),
        })
    }

    /// Returns an empty builder. It allocates nothing.
    pub(crate) fn empty(alloc: A) -> Self
        ensures { result ≡ [] }
    {
        SortedEntries {
            run: Run::new(alloc),
            tree: BTreeMap::new(alloc),
        }
    }

    /// Inserts a pair at its place unless an equal key is there, and returns whether it did. After
    /// an allocation failure a prefix of the pairs is left, and the pair itself and the others are
    /// dropped.
    #[inline(always)]
    pub fn insert(&mut self, key: K, value: V) -> Result<bool, AllocError>
        ensures put { IfOk result (λ new.
            IsPut (λ p q. K.cmp p.0 q.0) self.old (key, value) new self.new) }
        ensures prefix { OnErr result (IsPrefix self.new self.old) }
    {
        self.insert_among(key, value, 0)
    }

    /// Inserts a pair as `insert` does, and the first pair with room for some of the `coming` ones.
    #[inline(always)]
    pub(crate) fn insert_among(
        &mut self,
        key: K,
        value: V,
        coming: usize,
    ) -> Result<bool, AllocError>
        ensures put { IfOk result (λ new.
            IsPut (λ p q. K.cmp p.0 q.0) self.old (key, value) new self.new) }
        ensures prefix { OnErr result (IsPrefix self.new self.old) }
    {
        if self.tree.is_empty() {
            match self.run.last_to(&key) {
                Ordering::Less => {
                    self.run.reserve_first(coming.min(MOST_ROOM))?;
                    self.run.push(key, value)?;
                    return Ok(true);
                }
                Ordering::Equal => return Ok(false),
                Ordering::Greater => self.run.move_into(&mut self.tree)?,
            }
        }
        put(&mut self.tree, key, value)
    }

    /// Returns the keys in order, and the values at their positions.
    pub fn into_columns(self) -> Result<(Vec<K, A>, Vec<V, A>), AllocError>
        ensures keys { IfOk result (λ columns. columns.0.items ≡ keys_of self) }
        ensures values { IfOk result (λ columns. columns.1.items ≡ values_of self) }
        ensures strict { IfOk result (λ columns. IsStrict K.cmp columns.0.items) }
        ensures nothing { OnErr result (1 ≤ length self) }
    {
        let SortedEntries { mut run, tree } = self;
        run.reserve(tree.len())?;
        for (key, value) in tree {
            run.push(key, value)?;
        }
        Ok(run.into_columns())
    }
}
