//! The search, breadth first (own).
ghost use Rattle.std.specs.Prelude.{true, ◌≡◌, ◌+◌, ◌≤◌, ◌<◌, ◌^◌, ◌++◌, ◌∷◌, ◌↔◌, ◌⊎◌, [], List, Some, IsTrue, IfOk, OnOk, length};
ghost use Rattle.mcs_explore_search.specs.Paths.{Path, Steps};
ghost use Rattle.mcs_explore_search.specs.Closure.{IsLikeness};
ghost use Rattle.mcs_explore_search.specs.Search.{AreAllFound, AreApart, AreFoundLast, AreLeast, AreNear, AreNexts, AreReached, AreSorted, HaveOneKey, IsClosedBelow, IsGraph, IsSpent, IsWhole, depth_at, label_at, listed, parent_at, path_of, paths_below};
ghost use Rattle.mcs_explore_search.specs.Keeping.{Adds, AreFrom, Goes, HasPlace, IsLonger, IsSearching};

use indexmap::IndexMap;
use std::alloc::{AllocError, Global};
use std::hash::Hash;

/// A system to search: its states, labelled steps between them, and keys of states. It may collect
/// what it needs for keys, and report what it sees.
pub trait System {
    // the start has the default one, which is in no path
    type Label: Copy + Default + Drop;

    type Key: Eq + Hash + Drop;

    type Fault: From<AllocError>;

    ghost State: { Type 0 };

    ghost start: { Self → State };

    // a label leads from a state to another
    ghost Leads: { Self → Self.Label → State → State → Type 0 };

    // no later step can tell two states apart
    ghost Like: { Self → State → State → Type 0 };

    // the key of a state, by the notes so far
    ghost IsKey: { Self → State → Self.Key → Type 0 };

    // it was asked for the steps from the states that these paths reach, in this order
    ghost HasSeen: { Self → List (List Self.Label) → Type 0 };

    // the same system with more notes
    ghost Later: { Self → Self → Type 0 };

    /// Returns the key of the start. A fault ends the search.
    fn first(&mut self, alloc: Global) -> Result<Self::Key, Self::Fault>
        ensures later { Later self.old self.new }
        ensures key { IfOk result (λ k. IsKey self.new (start self.new) k) }
        ensures seen { OnOk result (HasSeen self.old [] → HasSeen self.new []) };

    /// Returns the steps from the state that a path of labels reaches from the start: for each its
    /// label and the key of the state after it. `place` is the state's index in the order of
    /// discovery. A fault ends the search. The path of the next state is a hint: the system may
    /// cache what both paths share.
    fn nexts(
        &mut self,
        alloc: Global,
        place: usize,
        path: &[Self::Label],
        next: &[Self::Label],
    ) -> Result<Vec<(Self::Label, Self::Key)>, Self::Fault>
        requires { (s : State) × Path (Leads self.old) (start self.old) path.now s }
        ensures later { Later self.old self.new }
        ensures nexts { IfOk result (λ v.
            (s : State) → Path (Leads self.old) (start self.old) path.now s
            → AreNexts (Leads self.new) (IsKey self.new) s v.items) }
        ensures seen { OnOk result ((paths : List (List Self.Label)) → HasSeen self.old paths
            → length paths ≡ place → HasSeen self.new (paths ++ path.now ∷ [])) };

    /// Returns whether the search continues after a state was expanded.
    fn goes_on(&self) -> bool {
        true
    }

    ghost same: { (m : Self) → Later m m };

    ghost further: { (m n o : Self) → Later m n → Later n o → Later m o };

    ghost keeps_start: { (m n : Self) → Later m n → start n ≡ start m };

    ghost keeps_steps: { (m n : Self) → Later m n
        → (l : Self.Label) (s t : State) → Leads m l s t ↔ Leads n l s t };

    ghost keeps_likeness: { (m n : Self) → Later m n
        → (s t : State) → Like m s t ↔ Like n s t };

    ghost keeps_keys: { (m n : Self) → Later m n
        → (s : State) (k : Self.Key) → IsKey m s k → IsKey n s k };

    // states that paths reach are alike if they have one key
    ghost alike: { (m : Self) (p q : List Self.Label) (s t : State) (k : Self.Key)
        → Path (Leads m) (start m) p s → Path (Leads m) (start m) q t
        → IsKey m s k → IsKey m t k → Like m s t };

    // a key that compares equal to a key of a state is one too
    ghost as_good: { (m : Self) (s : State) (k c : Self.Key)
        → IsTrue (Self.Key.eq k c) → IsKey m s k → IsKey m s c };
}

/// How a state was found first: from which state, by which label, and after how many steps. For the
/// start, the parent and the label mean nothing.
#[derive(Clone, Copy, Drop)]
pub struct Found<L> {
    pub parent: u32,
    pub depth: u32,
    pub label: L,
}

/// A step from the state at one index to that at another, by its label.
// one for each step found: 32-bit indices halve their size
#[derive(Clone, Copy, Drop)]
pub struct Edge<L> {
    pub from: u32,
    pub to: u32,
    pub label: L,
}

/// The limits of a search.
#[derive(Clone, Copy, Drop)]
pub struct Budget {
    /// After how many discovered states it expands no more.
    pub states: usize,
    /// At which number of steps from the start it expands no state.
    pub depth: usize,
}

/// The discovered states by their keys, nearest first; how many were expanded; the steps from
/// these; and whether the system stopped the search.
#[derive(Drop)]
pub struct Search<K: Eq + Hash + Drop, L: Copy + Drop> {
    pub map: IndexMap<K, Found<L>>,
    pub done: usize,
    pub edges: Vec<Edge<L>>,
    pub is_stopped: bool,
}

/// Adds a key, if it is new, and returns its index. Fails if an allocation fails.
fn add<K: Eq + Hash + Drop, L: Copy + Drop>(
    map: &mut IndexMap<K, Found<L>>,
    key: K,
    found: Found<L>,
) -> Result<usize, AllocError>
    ensures adds { OnOk result (Adds K.eq map.old.entries key found map.new.entries) }
    ensures place { IfOk result (λ place. HasPlace K.eq map.new.entries key place) }
{
    if let Some(place) = map.get_index_of(&key) {
        return Ok(place);
    }
    let place = map.len();
    match map.insert(key, found) {
        Ok(_) => Ok(place),
        Err(_) => Err(AllocError),
    }
}

/// Adds the edge between two states. Fails if an allocation fails, or an index has more than 32
/// bits.
fn push_edge<L: Copy + Drop>(
    edges: &mut Vec<Edge<L>>,
    from: usize,
    to: usize,
    label: L,
) -> Result<(), AllocError>
    ensures { OnOk result (edges.new.items
        ≡ edges.old.items ++ (record { from = from; to = to; label = label }) ∷ []) }
{
    let from = narrow(from)?;
    let to = narrow(to)?;
    edges.push(Edge { from, to, label })?;
    Ok(())
}

/// Adds a label, if there is one.
fn push_label<L: Copy + Drop>(labels: &mut Vec<L>, label: Option<L>) -> Result<(), AllocError>
    ensures { OnOk result (labels.new.items ≡ labels.old.items ++ listed label) }
{
    if let Some(label) = label {
        labels.push(label)?;
    }
    Ok(())
}

impl<K: Eq + Hash + Drop, L: Copy + Drop> Search<K, L> {
    /// Returns how many states were found.
    pub fn states(&self) -> usize
        ensures { result ≡ length self.now.map.entries }
    {
        self.map.len()
    }

    /// Returns whether all were expanded.
    pub fn is_whole(&self) -> bool
        ensures { IsTrue result ↔ (length self.now.map.entries ≤ self.now.done) }
    {
        self.map.len() <= self.done
    }

    /// Returns by how many steps the state at an index was found.
    pub fn depth(&self, place: usize) -> usize
        ensures { result ≡ depth_at self.now.map.entries place }
    {
        match self.map.get_index(place) {
            Some((_, found)) => found.depth as usize,
            None => 0,
        }
    }

    /// Returns the label by which the state at an index was found; None if there is no such state.
    pub fn label(&self, place: usize) -> Option<L>
        ensures { result ≡ label_at self.now.map.entries place }
    {
        self.back(place).0
    }

    /// The label by which the state at an index was found, and the place of its parent.
    fn back(&self, place: usize) -> (Option<L>, usize)
        ensures label { result.0 ≡ label_at self.now.map.entries place }
        ensures parent { result.1 ≡ parent_at self.now.map.entries place }
    {
        match self.map.get_index(place) {
            Some((_, found)) => (Some(found.label), found.parent as usize),
            None => (None, place),
        }
    }

    /// The labels from the start to the state at an index. An `AllocError` if an allocation fails.
    pub fn path(&self, alloc: Global, place: usize) -> Result<Vec<L>, AllocError>
        ensures { IfOk result (λ labels. labels.items ≡ path_of self.now.map.entries place) }
    {
        let mut labels = Vec::with_capacity(alloc, self.depth(place))?;
        let mut at = place;
        for _ in 0..self.depth(place) {
            let (label, parent) = self.back(at);
            push_label(&mut labels, label)?;
            at = parent;
        }
        labels.reverse();
        Ok(labels)
    }

    /// Returns whether there is a state to expand, no limit was reached, and the system did not
    /// stop the search.
    fn goes_on(&self, budget: Budget) -> bool
        ensures more { IsTrue result → self.now.done < length self.now.map.entries }
        ensures room { IsTrue result → self.now.done + 1 < 2 ^ 64 }
        ensures states { IsTrue result → length self.now.map.entries < budget.states }
        ensures depth { IsTrue result → depth_at self.now.map.entries self.now.done < budget.depth }
        ensures spent { IsTrue result ⊎ (length self.now.map.entries ≤ self.now.done)
            ⊎ IsSpent budget.states budget.depth self.now.done self.now.map.entries
            ⊎ (self.now.is_stopped ≡ true) }
    {
        !self.is_stopped
            && self.done < self.states()
            && self.states() < budget.states
            && self.depth(self.done) < budget.depth
    }
}

/// A number of 32 bits. Fails if it has more.
fn narrow(number: usize) -> Result<u32, AllocError>
    ensures { IfOk result (λ n. n ≡ number) }
{
    match u32::try_from(number) {
        Ok(number) => Ok(number),
        Err(_) => Err(AllocError),
    }
}

/// Returns how a state is found by a label from the state at an index with this depth. Fails if a
/// number has more than 32 bits.
fn found_after<L: Copy + Drop>(place: usize, depth: usize, label: L) -> Result<Found<L>, AllocError>
    requires room { depth + 1 < 2 ^ 64 }
    ensures parent { IfOk result (λ f. f.parent ≡ place) }
    ensures depth { IfOk result (λ f. f.depth ≡ depth + 1) }
    ensures label { IfOk result (λ f. f.label ≡ label) }
{
    let parent = narrow(place)?;
    let depth = narrow(depth + 1)?;
    Ok(Found {
        parent,
        depth,
        label,
    })
}

/// Adds all steps from the state at an index with this depth, and the states that they lead to.
fn add_all<M: System>(
    map: &mut IndexMap<M::Key, Found<M::Label>>,
    edges: &mut Vec<Edge<M::Label>>,
    place: usize,
    depth: usize,
    nexts: Vec<(M::Label, M::Key)>,
) -> Result<(), AllocError>
    requires room { depth + 1 < 2 ^ 64 }
    ensures goes { OnOk result ((m : M)
        → Goes M.Key.eq (M.Leads m) (M.Like m) (M.IsKey m) (M.start m)
        map.old.entries edges.old.items place depth nexts.items
        map.new.entries edges.new.items) }
    ensures longer { OnOk result (IsLonger map.old.entries map.new.entries) }
    ensures from { OnOk result (AreFrom place map.old.entries map.new.entries) }
{
    for (label, key) in nexts {
        let found = found_after(place, depth, label)?;
        let to = add(map, key, found)?;
        push_edge(edges, place, to, label)?;
    }
    Ok(())
}

/// Begins a search that has found only its start.
fn begin<M: System>(alloc: Global, system: &mut M) -> Result<Search<M::Key, M::Label>, M::Fault>
    ensures later { M.Later system.old system.new }
    ensures begun { IfOk result (λ f. f.done ≡ 0) }
    ensures one { IfOk result (λ f. length f.map.entries ≡ 1) }
    ensures searching { IfOk result (λ f. IsSearching M.Key.eq
        (M.Leads system.new) (M.Like system.new)
        (M.IsKey system.new) (M.start system.new) f.done f.map.entries f.edges.items) }
    ensures seen { OnOk result (M.HasSeen system.old [] → M.HasSeen system.new []) }
{
    let mut map = IndexMap::new(alloc);
    let start = Found {
        parent: 0,
        depth: 0,
        label: M::Label::default(),
    };
    let key = system.first(alloc)?;
    add(&mut map, key, start)?;
    Ok(Search {
        map,
        done: 0,
        edges: Vec::new(alloc),
        is_stopped: false,
    })
}

/// Returns the steps from the state at an index.
fn nexts_of<M: System>(
    alloc: Global,
    system: &mut M,
    search: &Search<M::Key, M::Label>,
    place: usize,
) -> Result<Vec<(M::Label, M::Key)>, M::Fault>
    requires { (s : M.State) × Path (M.Leads system.old) (M.start system.old)
        (path_of search.now.map.entries place) s }
    ensures later { M.Later system.old system.new }
    ensures nexts { IfOk result (λ v. (s : M.State)
        → Path (M.Leads system.old) (M.start system.old) (path_of search.now.map.entries place) s
        → AreNexts (M.Leads system.new) (M.IsKey system.new) s v.items) }
    ensures seen { OnOk result ((paths : List (List M.Label)) → M.HasSeen system.old paths
        → length paths ≡ place
        → M.HasSeen system.new (paths ++ path_of search.now.map.entries place ∷ [])) }
{
    let path = search.path(alloc, place)?;
    let next = search.path(alloc, place.saturating_add(1))?;
    let nexts = system.nexts(alloc, place, &path, &next)?;
    Ok(nexts)
}

/// Expands the earliest state that was not expanded yet.
fn expand<M: System>(
    alloc: Global,
    system: &mut M,
    search: &mut Search<M::Key, M::Label>,
) -> Result<(), M::Fault>
    requires more { search.old.done < length search.old.map.entries }
    requires room { search.old.done + 1 < 2 ^ 64 }
    requires searching { IsSearching M.Key.eq (M.Leads system.old) (M.Like system.old)
        (M.IsKey system.old) (M.start system.old)
        search.old.done search.old.map.entries search.old.edges.items }
    ensures later { M.Later system.old system.new }
    ensures done { OnOk result (search.new.done ≡ search.old.done + 1) }
    ensures longer { OnOk result (IsLonger search.old.map.entries search.new.map.entries) }
    ensures from { OnOk result
        (AreFrom search.old.done search.old.map.entries search.new.map.entries) }
    ensures searching { OnOk result (IsSearching M.Key.eq (M.Leads system.new) (M.Like system.new)
        (M.IsKey system.new) (M.start system.new)
        search.new.done search.new.map.entries search.new.edges.items) }
    ensures seen { OnOk result (
        M.HasSeen system.old (paths_below search.old.map.entries search.old.done)
        → M.HasSeen system.new (paths_below search.new.map.entries search.new.done)) }
{
    let place = search.done;
    let nexts = nexts_of(alloc, system, search, place)?;
    let depth = search.depth(place);
    add_all::<M>(&mut search.map, &mut search.edges, place, depth, nexts)?;
    search.done = place + 1;
    Ok(())
}

/// Expands one state after another, nearest first, until none is left, a limit is reached, or the
/// system stops it. The errors are the faults of the system; a failed allocation, or a state at
/// index 2^32, becomes the system's fault for an AllocError.
pub fn explore<M: System>(
    alloc: Global,
    system: &mut M,
    budget: Budget,
) -> Result<Search<M::Key, M::Label>, M::Fault>
    ensures later { M.Later system.old system.new }
    // the path of each entry leads to a state with its key, by as many steps as its depth says
    ensures reached { IfOk result (λ f. AreReached (M.Leads system.old) (M.IsKey system.new)
        (M.start system.old) f.map.entries) }
    // the nearest first, and no key twice
    ensures sorted { IfOk result (λ f. AreSorted f.map.entries) }
    ensures apart { IfOk result (λ f. AreApart M.Key.eq f.map.entries) }
    // it expands no state beyond a budget: each that it expanded is nearer than the depth, and
    // before the last there were fewer than the states
    ensures near { IfOk result (λ f. AreNear budget.depth f.done f.map.entries) }
    ensures few { IfOk result (λ f. AreFoundLast budget.states f.done f.map.entries) }
    // a step from an expanded state leads to one that is like a visited one
    ensures closed { IfOk result (λ f. IsClosedBelow (M.Leads system.old) (M.Like system.old)
        (M.IsKey system.new) (M.start system.old) f.done f.map.entries) }
    // once all were expanded, each step does
    ensures whole { IfOk result (λ f. length f.map.entries ≤ f.done
        → IsWhole (M.Leads system.old) (M.Like system.old)
        (M.IsKey system.new) (M.start system.old) f.map.entries) }
    // each edge is a step between two of them, up to likeness, and each step from an expanded one
    // has its edge
    ensures graph { IfOk result (λ f. IsGraph (M.Leads system.old) (M.Like system.old)
        (M.IsKey system.new) (M.start system.old) f.done f.map.entries f.edges.items) }
    // if alike states have one key, no run to a state with the key of an entry is shorter
    ensures least { IfOk result (λ f. IsLikeness (Steps (M.Leads system.old)) (M.Like system.old)
        → HaveOneKey M.Key.eq (M.Like system.old) (M.IsKey system.new)
        → AreLeast (M.Leads system.old) (M.IsKey system.new) (M.start system.old) f.map.entries) }
    // and once all were expanded, the key of each state that a run reaches was found
    ensures all { IfOk result (λ f. length f.map.entries ≤ f.done
        → IsLikeness (Steps (M.Leads system.old)) (M.Like system.old)
        → HaveOneKey M.Key.eq (M.Like system.old) (M.IsKey system.new)
        → AreAllFound M.Key.eq (M.Leads system.old) (M.IsKey system.new)
        (M.start system.old) f.map.entries) }
    // it ends there, by the budget, or because the system stops it
    ensures budget { IfOk result (λ f. (length f.map.entries ≤ f.done)
        ⊎ IsSpent budget.states budget.depth f.done f.map.entries ⊎ (f.is_stopped ≡ true)) }
    // the system was asked for the steps from each expanded state, in order
    ensures seen { IfOk result (λ f. M.HasSeen system.old []
        → M.HasSeen system.new (paths_below f.map.entries f.done)) }
{
    let mut search = begin(alloc, system)?;
    while search.goes_on(budget) {
        expand(alloc, system, &mut search)?;
        search.is_stopped = !system.goes_on();
    }
    Ok(search)
}
