//! Reachability: from which places paths lead to marked ones (own).
ghost use Rattle.std.specs.Prelude.{◌≡◌, ◌<◌, length};
ghost use Rattle.std.specs.Int.{from_bool};
ghost use Rattle.mcs_explore_search.specs.Reaching.{AreAllLed, AreWithin, IsSweeping, is_marked, joins, marked};

use crate::search::Edge;

/// Returns whether a place is marked.
fn is_marked(marks: &[bool], place: u32) -> bool
    ensures { result ≡ is_marked marks.now place }
{
    match marks.get(place as usize) {
        Some(mark) => *mark,
        None => false,
    }
}

/// Marks the source of an edge, if the edge leads to a marked place and the source is not marked.
/// Returns how many marks that adds.
fn mark<L: Copy + Drop>(edge: Edge<L>, marks: &mut Vec<bool>) -> usize
    requires { edge.from < length marks.old.items }
    ensures marks { marks.new.items ≡ marked edge marks.old.items }
    ensures added { result ≡ from_bool (joins edge marks.old.items) }
{
    let is_new = is_marked(marks, edge.to) && !is_marked(marks, edge.from);
    if is_new {
        marks[edge.from as usize] = true;
    }
    usize::from(is_new)
}

/// Marks the source of each edge to a marked place, the last edge first, and returns how many marks
/// that adds.
fn sweep<L: Copy + Drop>(edges: &[Edge<L>], marks: &mut Vec<bool>) -> usize
    requires { AreWithin edges.now (length marks.old.items) }
    ensures { IsSweeping edges.now marks.old.items marks.new.items result (length edges.now) }
{
    let mut added = 0;
    for number in 0..edges.len() {
        let Some(edge) = edges.get(edges.len() - 1 - number) else {
            unreachable!();
        };
        added += mark(*edge, marks);
    }
    added
}

/// Marks all places from which paths lead to marked ones.
#[tactic(auto, using(crate::proofs::Marks::all_led))]
pub fn mark_all_led<L: Copy + Drop>(edges: &[Edge<L>], marks: &mut Vec<bool>)
    requires { AreWithin edges.now (length marks.old.items) }
    ensures { AreAllLed edges.now marks.old.items marks.new.items }
{
    loop {
        if sweep(edges, marks) == 0 {
            return;
        }
    }
}
