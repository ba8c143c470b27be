//! The names of a plan with their addresses, as a table.
use crate::script::Script;
use crate::steps::object_text;
use mcs_plan_layout::Named;
use mcs_types::{Kind, ObjId};
use std::alloc::{AllocError, Global};

/// Appends a cell of a table, padded with spaces to `columns` columns, and two spaces after it.
fn add_cell(to: &mut String, text: &str, columns: usize) -> Result<(), AllocError> {
    to.push_str(text)?;
    let missing = columns.saturating_add(2).saturating_sub(text.len());
    for _ in 0..missing {
        to.push_str(" ")?;
    }
    Ok(())
}

/// Returns the name of the thread at this index.
fn thread_name(script: &Script, place: usize) -> &str {
    let thread = ObjId {
        kind: Kind::Thread,
        serial: place.min(1_000_000) as u32 + 1,
    };
    script.laid.plan.names.name_of(thread)
}

/// Returns the width of the widest name of a thread, at least `least`.
fn widest(table: &[Named], least: usize) -> usize {
    let mut most = least;
    for named in table {
        most = named.name.len().max(most);
    }
    most
}

/// Returns the widths of the columns of threads and of their names.
fn widths(script: &Script) -> (usize, usize) {
    let mut threads = "thread".len();
    let mut names = "name".len();
    for (place, table) in script.laid.tables.iter().enumerate() {
        if !table.is_empty() {
            threads = thread_name(script, place).len().max(threads);
        }
        names = widest(table, names);
    }
    (threads, names)
}

/// The address of a name; a dash where it has none.
fn address_text(alloc: Global, named: &Named) -> Result<String, AllocError> {
    match named.address {
        Some(address) => format!(in alloc; "{address}"),
        None => String::from_str(alloc, "-"),
    }
}

/// Appends a line of the table.
fn add_named(
    alloc: Global,
    to: &mut String,
    (threads, names): (usize, usize),
    thread: &str,
    named: &Named,
) -> Result<(), AllocError> {
    let address = address_text(alloc, named)?;
    add_cell(to, thread, threads)?;
    add_cell(to, named.name.as_str(), names)?;
    add_cell(to, address.as_str(), 8)?;
    to.push_str(named.written.as_str())?;
    to.push_str("\n")
}

/// Adds the names of all objects.
fn add_objects(alloc: Global, to: &mut String, script: &Script) -> Result<(), AllocError> {
    to.push_str("\nobject  name\n")?;
    let names = &script.laid.plan.names;
    for i in 0..names.len() {
        if let Some((name, object)) = names.at(i) {
            let text = object_text(alloc, object)?;
            add_cell(to, text.as_str(), 6)?;
            to.push_str(name)?;
            to.push_str("\n")?;
        }
    }
    Ok(())
}

/// Returns a line for each name of each thread: the thread, the name, the address (a dash for a
/// CNode), and the capability as the plan has it; then the objects and their names.
pub fn write_map(alloc: Global, script: &Script) -> Result<String, AllocError> {
    let (threads, names) = widths(script);
    let mut to = String::new(alloc);
    add_cell(&mut to, "thread", threads)?;
    add_cell(&mut to, "name", names)?;
    add_cell(&mut to, "address", 8)?;
    to.push_str("capability\n")?;
    for (place, table) in script.laid.tables.iter().enumerate() {
        let thread = thread_name(script, place);
        for named in table {
            add_named(alloc, &mut to, (threads, names), thread, named)?;
        }
    }
    add_objects(alloc, &mut to, script)?;
    Ok(to)
}
