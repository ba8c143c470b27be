//! The text of a graph.
ghost use Rattle.std.specs.Prelude.{◌≡◌, ◌++◌, ◌∷◌, [], IfOk, OnOk, length};
ghost use Rattle.mcs_explore_search.specs.Search.{path_of};
ghost use Rattle.mcs_explore_graph.specs.Graphs.{AreLines, HasReadGraph, IsGraphOf, IsGraphText, IsLabel, IsLine, Wrote};

use crate::labels::label_of;
use crate::lines::{Between, Form, end_of, head_of, line_of};
use mcs_explore_orders::{Budget, Edge, Nobody, Orders, PackedTurn, Turn, explore, retrace};
use mcs_explore_questions::ExploreFault;
use mcs_explore_report::{Wanted, are_in_range, mode_of};
use mcs_explore_script::{UserScript, fault_of, read_script};
use mcs_explore_walk::newest;
use mcs_lab_check::LabFault;
use mcs_queues::PlainLines;
use mcs_sim::Source;
use mcs_trace::Line as Buffer;
use std::alloc::Global;
use std::io::{Read, Write};

/// Returns the turns to the state of an edge, and its own.
fn turns_of(orders: &Orders<'_, Nobody>, edge: Edge<PackedTurn>) -> Result<Vec<Turn>, LabFault>
    ensures { IfOk result (λ turns. turns.items
        ≡ path_of orders.now.search.map.entries edge.from ++ edge.label ∷ []) }
{
    let mut turns = match orders.path(edge.from as usize) {
        Ok(turns) => turns,
        Err(fault) => return Err(fault_of(fault)),
    };
    turns.push(edge.label.turn())?;
    Ok(turns)
}

/// Returns the label of an edge: the text of the line that its turn adds to the book.
fn edge_label(
    alloc: Global,
    script: &UserScript,
    orders: &Orders<'_, Nobody>,
    buffer: &mut Buffer,
    edge: Edge<PackedTurn>,
) -> Result<Vec<u8>, LabFault>
    ensures { IfOk result (λ label. IsLabel script.now.users script.now.boot
        orders.now.search.map.entries edge label.items) }
{
    let turns = turns_of(orders, edge)?;
    let walk = match retrace::<PlainLines>(alloc, &script.boot, &script.users, &turns) {
        Ok(walk) => walk,
        Err(fault) => return Err(fault_of(fault)),
    };
    match newest(walk.kernel()) {
        Some(line) => label_of(alloc, buffer, &line),
        None => Ok(Vec::new(alloc)),
    }
}

/// Returns the line of an edge.
fn edge_line(
    alloc: Global,
    script: &UserScript,
    orders: &Orders<'_, Nobody>,
    buffer: &mut Buffer,
    form: Form,
    edge: Edge<PackedTurn>,
) -> Result<Vec<u8>, LabFault>
    ensures { IfOk result (λ text. IsLine form script.now.users script.now.boot
        orders.now.search.map.entries edge text.items) }
{
    let Edge { from, to, .. } = edge;
    let label = edge_label(alloc, script, orders, buffer, edge)?;
    line_of(alloc, buffer, form, Between { from, to }, &label)
}

/// Writes the lines of all edges.
fn write_lines<W: Write>(
    alloc: Global,
    script: &UserScript,
    orders: &Orders<'_, Nobody>,
    form: Form,
    to: &mut W,
) -> Result<(), LabFault>
    ensures { OnOk result (Wrote W.contents to.old to.new (AreLines form script.now.users
        script.now.boot orders.now.search.map.entries orders.now.search.edges.items
        (length orders.now.search.edges.items))) }
{
    let mut buffer = Box::new(alloc, Buffer::new())?;
    let edges = orders.edges();
    for number in 0..edges.len() {
        let line = edge_line(alloc, script, orders, &mut buffer, form, edges[number])?;
        to.write_all(&line)?;
    }
    Ok(())
}

/// Writes the graph of a search: its first line, and its edges by the states from which they lead.
fn write_orders<W: Write>(
    alloc: Global,
    script: &UserScript,
    orders: &Orders<'_, Nobody>,
    form: Form,
    to: &mut W,
) -> Result<(), LabFault>
    ensures { OnOk result (Wrote W.contents to.old to.new (IsGraphText form script.now.users
        script.now.boot orders.now.search.map.entries orders.now.search.edges.items)) }
{
    let mut buffer = Box::new(alloc, Buffer::new())?;
    let (states, turns) = (orders.states(), orders.edges().len());
    let head = head_of(alloc, &mut buffer, form, states, turns)?;
    to.write_all(&head)?;
    write_lines(alloc, script, orders, form, to)?;
    to.write_all(end_of(form))?;
    Ok(())
}

/// Searches all orders of the users of a script up to the wanted limits.
fn all_orders(
    alloc: Global,
    script: &UserScript,
    wanted: Wanted,
) -> Result<Orders<'_, Nobody>, LabFault>
    ensures { IfOk result (λ o. IsGraphOf wanted.is_exact script.entry.now
        o.search.map.entries o.search.done o.search.edges.items) }
{
    let UserScript {
        boot,
        users,
        asked,
        ..
    } = script;
    boot.is_faultless();
    are_in_range(users);
    let mode = mode_of(boot, users, asked, wanted.is_exact);
    let (is_proved, numbered) = (mode.is_proved(), mode.are_numbered());
    let budget = Budget {
        states: wanted.states,
        depth: wanted.depth,
    };
    match explore(alloc, boot, users, is_proved, numbered, budget, Nobody) {
        Ok(orders) => Ok(orders),
        Err(fault) => Err(fault_of(fault)),
    }
}

/// Searches all orders of the users of a script, and writes the graph of their states and turns.
/// Returns whether all states were expanded. Faults of the script come first; then `BookFull` if a
/// book has 1,000,000 lines, `OutOfMemory` if an allocation fails, `Write` if a write failed.
pub fn write_graph<R: Read, W: Write>(
    alloc: Global,
    from: &mut Source<R>,
    wanted: Wanted,
    form: Form,
    to: &mut W,
) -> Result<bool, ExploreFault>
    // a script was read, and the text is that of a graph of its users' turns, whole if it says so
    ensures { IfOk result (λ is_whole. HasReadGraph form wanted.is_exact is_whole
        (R.remaining from.old.reader) (R.remaining from.new.reader)
        (W.contents to.old) (W.contents to.new)) }
{
    let script = read_script(alloc, from)?;
    let orders = all_orders(alloc, &script, wanted)?;
    write_orders(alloc, &script, &orders, form, to)?;
    Ok(orders.is_whole())
}
