//! The pictures of the gallery.
use crate::draw_file;
use crate::looks::look_at_lanes;
use mcs_lab_check::LabFault;
use mcs_lab_render::Format;
use mcs_types::{Kind, ObjId};
use std::alloc::{AllocError, Global};
use std::fs;
use std::io::Write;

/// The scripts, with the file and the format of the picture of each.
const PICTURES: &[(&str, &str, Format)] = &[
    (
        "gallery/passive-server.mcs",
        "gallery/passive-server.svg",
        Format::Svg,
    ),
    (
        "gallery/nested-calls.mcs",
        "gallery/nested-calls.svg",
        Format::Svg,
    ),
    (
        "gallery/two-badges.mcs",
        "gallery/two-badges.svg",
        Format::Svg,
    ),
    (
        "gallery/server-dies.mcs",
        "gallery/server-dies.svg",
        Format::Svg,
    ),
    (
        "gallery/own-spaces.mcs",
        "gallery/own-spaces.svg",
        Format::Svg,
    ),
    ("gallery/revoked.mcs", "gallery/revoked.svg", Format::Svg),
    (
        "gallery/inversion.mcs",
        "gallery/inversion.svg",
        Format::Svg,
    ),
    (
        "gallery/two-cores.mcs",
        "gallery/two-cores.svg",
        Format::Svg,
    ),
    ("gallery/deadlock.mcs", "gallery/deadlock.svg", Format::Svg),
    ("gallery/started.mcs", "gallery/started.svg", Format::Svg),
    (
        "explore/disk-log-end.mcs",
        "explore/disk-log.svg",
        Format::Svg,
    ),
    (
        "gallery/nested-calls.mcs",
        "gallery/nested-calls.mmd",
        Format::Mermaid,
    ),
    (
        "gallery/passive-server.mcs",
        "gallery/passive-server.html",
        Format::Html,
    ),
    (
        "gallery/server-dies.mcs",
        "gallery/server-dies.mmd",
        Format::Mermaid,
    ),
];

/// Draws each script of the gallery, and writes how the picture compares with its file.
pub fn draw_gallery<W: Write>(rt: &HostRuntime, to: &mut W) -> Result<(), LabFault> {
    for &(script, picture, format) in PICTURES {
        draw_file(rt, to, script, picture, format)?;
    }
    Ok(())
}

/// Scripts, with the serials of the threads whose lanes are drawn, in order.
const LANES: &[(&str, &[u32])] = &[
    ("gallery/passive-server.mcs", &[3, 1]),
    ("gallery/nested-calls.mcs", &[2]),
    ("gallery/server-dies.mcs", &[2, 1]),
    ("signals.mcs", &[3]),
];

/// Returns the threads of these serials.
fn threads_of(alloc: Global, serials: &[u32]) -> Result<Vec<ObjId>, AllocError> {
    let mut threads = Vec::new(alloc);
    for serial in serials {
        threads.push(ObjId {
            kind: Kind::Thread,
            serial: *serial,
        })?;
    }
    Ok(threads)
}

/// Draws each of these scripts with only some lanes, and writes what is wrong with the picture.
pub fn draw_lanes<W: Write>(rt: &HostRuntime, to: &mut W) -> Result<(), LabFault> {
    for &(script, serials) in LANES {
        let Ok(file) = fs::open(rt, script) else {
            return Err(LabFault::Read);
        };
        let threads = threads_of(rt.alloc(), serials)?;
        let verdict = look_at_lanes(rt.alloc(), file, &threads);
        writeln!(to, "# some lanes of {script}: {verdict}")?;
    }
    Ok(())
}
