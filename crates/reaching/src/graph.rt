//! Graphs, and what is reached in them.

ghost use Rattle.std.specs.Prelude.{◌≡◌, ℕ, length, Some, slice_get, slice_index};
ghost use Rattle.reaching.specs.declared.graph.Edge.{Edge};
ghost use Rattle.reaching.specs.Chains.{IsLastFrom};

use crate::search::Search;
use std::alloc::{AllocError, Global};

/// An edge from an item to another.
#[derive(Clone, Copy)]
struct Edge {
    from: u32,
    to: u32,
    /// One more than the number of the last edge from the same item of those before this one, or 0 if there is none.
    before: usize,
}

/// Items, numbered from 0, with edges between them.
#[derive(Drop)]
pub struct Graph {
    /// For each item, one more than the number of the last edge from it, or 0 if there is none.
    last: Vec<usize>,
    /// The edges, in the order in which they were added.
    edges: Vec<Edge>,
    pub ghost last_of_item: { (a : ℕ) → IsLastFrom edges.items a (length edges.items) (slice_index last.items a) },
    pub ghost before_edge: { (k : ℕ) (e : Edge) → slice_get edges.items k ≡ Some e → IsLastFrom edges.items e.from k e.before },
}

impl Graph {
    ghost use Rattle.std.specs.Prelude.{◌<◌, ◌++◌, ◌∷◌, [], ◌↔◌, true, OnOk, IfOk, IsTrue, if◌then◌else◌};
    ghost use Rattle.std.specs.List.{Contains};
    ghost use Rattle.reaching.specs.Reaching.{IsReachedFrom, edges_of};
    ghost use Rattle.reaching.specs.Searching.{is_set, is_added, IsGrown};

    /// This many items, without edges.
    pub fn new(alloc: Global, items: usize) -> Result<Graph, AllocError>
        ensures items { IfOk result (λ g. length g.last.items ≡ items) }
        ensures edges { IfOk result (λ g. edges_of g ≡ []) }
    {
        let mut last = Vec::new(alloc);
        last.resize(items, 0)?;
        Ok(Graph {
            last,
            edges: Vec::new(alloc),
        })
    }

    // One more than the number of the last edge from an item, or 0 if there is none.
    fn last_of(&self, item: u32) -> usize
        ensures { result ≡ slice_index self.now.last.items item }
    {
        self.last.get(item as usize).copied().unwrap_or(0)
    }

    /// Adds an edge, and returns whether it did: not if one of the two isn't an item. After an error the graph is as it was.
    pub fn add(&mut self, from: u32, to: u32) -> Result<bool, AllocError>
        ensures items { length self.new.last.items ≡ length self.old.last.items }
        ensures are_items { IfOk result (λ added. IsTrue added ↔ (from < length self.old.last.items) × (to < length self.old.last.items)) }
        ensures edges { edges_of self.new
            ≡ (if is_added result then edges_of self.old ++ (from, to) ∷ [] else edges_of self.old) }
    {
        let items = self.last.len();
        if from as usize >= items || to as usize >= items {
            return Ok(false);
        }
        let before = self.last_of(from);
        self.edges.push(Edge { from, to, before })?;
        self.last[from as usize] = self.edges.len();
        Ok(true)
    }

    // Marks each item to which an edge goes from this one.
    fn mark_targets(&self, item: u32, search: &mut Search) -> Result<(), AllocError>
        ensures grown { OnOk result (IsGrown (λ x. Contains (edges_of self.now) (item, x)) search.old search.new) }
        ensures closed { OnOk result ((x : ℕ) → Contains (edges_of self.now) (item, x) → x < length search.new.marks.items → is_set search.new.marks.items x ≡ true) }
    {
        let mut at = self.last_of(item);
        'targets: while at > 0 {
            let edge = self.edges[at - 1];
            search.mark(edge.to)?;
            at = edge.before;
        }
        Ok(())
    }

    /// Which items are reached from these roots, each once: a mark for each item. Takes time linear in the numbers of items,
    /// edges and roots.
    pub fn reachable(&self, alloc: Global, roots: &[u32]) -> Result<Vec<bool>, AllocError>
        ensures items { IfOk result (λ marks. length marks.items ≡ length self.now.last.items) }
        ensures reached { IfOk result (λ marks. (x : ℕ) → is_set marks.items x ≡ true
            ↔ IsReachedFrom (length self.now.last.items) (edges_of self.now) roots.now x) }
    {
        let mut search = Search::new(alloc, self.last.len())?;
        for root in roots {
            search.mark(*root)?;
        }
        'items: while let Some(item) = search.pending.pop() {
            self.mark_targets(item, &mut search)?;
        }
        Ok(search.marks)
    }
}
