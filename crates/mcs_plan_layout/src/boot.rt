//! The lines of the boot.
ghost use Rattle.std.specs.Prelude.{◌≡◌, ◌≤◌, ◌<◌, ◌+◌, ◌/◌, ◌++◌, ℕ, true, List, [], ◌∷◌, Ok, IfOk, IfErr, OnOk, length, map, slice_get};
ghost use Rattle.std.proofs.Math.ListN.{replicate};
ghost use Rattle.mcs_types.specs.declared.id.Kind.TheVariants as kind;
ghost use Rattle.mcs_types.specs.declared.boot.BootLine.TheVariants as line;
ghost use Rattle.mcs_types.specs.Limits.{cnode_limit};
ghost use Rattle.mcs_plan_source.specs.Naming.{count_of, limit_of};
ghost use Rattle.mcs_plan_source.specs.Making.{all_leaves};
ghost use Rattle.mcs_plan_source.specs.Refusals.{Refuses};
ghost use Rattle.mcs_plan_source.specs.Saying.{said};
ghost use Rattle.mcs_plan_source.specs.Slots.{slot_count, cap_at, leaves_of};
ghost use Rattle.mcs_plan_layout.specs.Fitting.{are_housed, boot_fits, HasFewCNodes, Fits, IsWithin};
ghost use Rattle.mcs_plan_layout.specs.Boot.{cnode_at, cnode_of, guarded, root_line, context_line, thread_line, tie_line, each};
ghost use Rattle.mcs_plan_layout.specs.Boot.{slot_lines, link_lines, space_lines, before_of, filling, boot_of};

use crate::LEAF;
use crate::laid::PlanLayout;
use crate::limits::fits;
use crate::starter::bare;
use mcs_plan_source::{PlanError, Space, Thread};
use mcs_types::{BootLine, Cap, Guard, Kind, ObjId};
use std::alloc::{AllocError, Global};

/// Where the slots of a space are: in its root, the CNode at index `root`, or in further CNodes.
#[derive(Clone, Copy)]
pub struct Site {
    pub place: usize,
    pub before: usize,
    pub leaves: u32,
}

/// Returns the id of the CNode at this index.
fn cnode(place: usize) -> ObjId
    requires { place < cnode_limit }
    ensures { result ≡ cnode_at place }
{
    ObjId {
        kind: Kind::CNode,
        serial: place as u32 + 1,
    }
}

impl Site {
    /// Returns the CNode that contains a slot.
    fn cnode(self, index: u32) -> ObjId
        requires within { IsWithin self }
        requires index { 0 < self.leaves → index / 256 < self.leaves }
        ensures { result ≡ cnode_of self index }
    {
        if self.leaves == 0 {
            return cnode(self.place);
        }
        cnode(self.before + (index / 256) as usize)
    }
}

/// Adds a line.
fn push(to: &mut Vec<BootLine>, line: BootLine) -> Result<(), AllocError>
    ensures { OnOk result (to.new.items ≡ to.old.items ++ line ∷ []) }
{
    to.push(line)?;
    Ok(())
}

/// Appends a line `times` times.
fn add_times(to: &mut Vec<BootLine>, line: &BootLine, times: u32) -> Result<(), AllocError>
    ensures { OnOk result (to.new.items ≡ to.old.items ++ replicate times line.now) }
{
    for _ in 0..times {
        push(to, *line)?;
    }
    Ok(())
}

/// Appends the line that puts a capability to a further CNode of a space into its root.
fn add_link(to: &mut Vec<BootLine>, site: Site, leaf: u32) -> Result<(), AllocError>
    requires within { IsWithin site }
    requires leaf { leaf < site.leaves }
    ensures { OnOk result (to.new.items ≡ to.old.items ++ link_lines site leaf) }
{
    let next = cnode(site.before + leaf as usize);
    if let Some(cap) = bare(next, Guard { bits: 0, value: 0 }) {
        let line = BootLine::Slot {
            cnode: cnode(site.place),
            index: leaf as u8,
            cap,
        };
        push(to, line)?;
    }
    Ok(())
}

/// Appends the slots of a root that hold capabilities to the further CNodes of its space.
fn add_links(to: &mut Vec<BootLine>, site: Site) -> Result<(), AllocError>
    requires { IsWithin site }
    ensures { OnOk result (to.new.items ≡ to.old.items ++ each site.leaves (link_lines site)) }
{
    for leaf in 0..site.leaves {
        add_link(to, site, leaf)?;
    }
    Ok(())
}

impl PlanLayout {
    /// Returns the capability of a slot; one to a CNode gets the guard that takes the bits which
    /// its slots do not use.
    pub fn guarded(&self, space: usize, cap: &Cap) -> Cap
        ensures { result ≡ guarded self.now.layouts.items space cap.now }
    {
        let Some(place) = cap.obj.place(Kind::CNode) else {
            return *cap;
        };
        let other = self.layout(place);
        let taken = other.root.saturating_add(other.leaf);
        Cap {
            obj: cap.obj,
            rights: cap.rights,
            badge: cap.badge,
            guard: Guard {
                bits: self.layout(space).within.saturating_sub(taken),
                value: 0,
            },
        }
    }

    /// Adds the lines that make the roots of spaces.
    fn make_roots(&self, to: &mut Vec<BootLine>) -> Result<(), AllocError>
        ensures { OnOk result
            (to.new.items ≡ to.old.items ++ map root_line self.now.layouts.items) }
    {
        for layout in &self.layouts {
            push(to, BootLine::CNode { radix: layout.root })?;
        }
        Ok(())
    }

    /// Appends the lines that make the objects of a kind.
    fn make_objects(
        &self,
        to: &mut Vec<BootLine>,
        kind: Kind,
        line: &BootLine,
    ) -> Result<(), AllocError>
        requires { count_of kind self.now.plan.names ≤ limit_of kind }
        ensures { OnOk result (to.new.items
            ≡ to.old.items ++ replicate (count_of kind self.now.plan.names) line.now) }
    {
        add_times(to, line, self.plan.names.count(kind))
    }

    /// Adds the lines that make the contexts.
    fn make_contexts(&self, to: &mut Vec<BootLine>) -> Result<(), AllocError>
        ensures { OnOk result
            (to.new.items ≡ to.old.items ++ map context_line self.now.plan.contexts.items) }
    {
        for core in &self.plan.contexts {
            push(to, BootLine::Context { core: *core })?;
        }
        Ok(())
    }

    /// The line that makes a thread.
    fn thread_line(&self, thread: &Thread) -> BootLine
        requires { thread.now.space < cnode_limit }
        ensures { result ≡ thread_line self.now.layouts.items thread.now }
    {
        let layout = self.layout(thread.space);
        let after = layout
            .root
            .saturating_add(layout.leaf)
            .saturating_add(layout.within);
        BootLine::Thread {
            priority: thread.priority,
            maximum: thread.maximum,
            root: cnode(thread.space),
            guard: Guard {
                bits: 64u8.saturating_sub(after),
                value: 0,
            },
            runs: thread.runs,
            context: thread.context,
        }
    }

    /// Adds the lines that make the threads.
    #[tactic(auto, using(crate::proofs::LimitLaws::housed_at))]
    fn make_threads(&self, to: &mut Vec<BootLine>) -> Result<(), AllocError>
        requires { are_housed self.now.plan.threads.items ≡ true }
        ensures { OnOk result (to.new.items ≡
            to.old.items ++ map (thread_line self.now.layouts.items) self.now.plan.threads.items) }
    {
        for thread in &self.plan.threads {
            push(to, self.thread_line(thread))?;
        }
        Ok(())
    }

    /// Adds the line that fills a slot, if it holds something.
    fn add_slot(
        &self,
        to: &mut Vec<BootLine>,
        site: Site,
        index: u32,
        cap: Option<Cap>,
    ) -> Result<(), AllocError>
        requires within { IsWithin site }
        requires index { 0 < site.leaves → index / 256 < site.leaves }
        ensures { OnOk result
            (to.new.items ≡ to.old.items ++ slot_lines self.now.layouts.items site index cap) }
    {
        let Some(cap) = cap else {
            return Ok(());
        };
        let line = BootLine::Slot {
            cnode: site.cnode(index),
            index: (index % 256) as u8,
            cap: self.guarded(site.place, &cap),
        };
        push(to, line)
    }

    /// Adds the lines that fill the slots of a space.
    #[tactic(auto, using(crate::proofs::LimitLaws::leaf_within))]
    fn add_slots(&self, to: &mut Vec<BootLine>, site: Site, space: &Space) -> Result<(), AllocError>
        requires within { IsWithin site }
        requires leaves { site.leaves ≡ leaves_of space.now }
        ensures { OnOk result (to.new.items ≡ to.old.items ++ each (slot_count space.now)
            (λ i. slot_lines self.now.layouts.items site i (cap_at space.now i))) }
    {
        for index in 0..space.slots() {
            self.add_slot(to, site, index, space.cap_at(index))?;
        }
        Ok(())
    }

    /// Adds the lines that fill a space.
    fn fill(&self, to: &mut Vec<BootLine>, site: Site, space: &Space) -> Result<(), AllocError>
        requires within { IsWithin site }
        requires leaves { site.leaves ≡ leaves_of space.now }
        ensures { OnOk result
            (to.new.items ≡ to.old.items ++ space_lines self.now.layouts.items site space.now) }
    {
        add_links(to, site)?;
        self.add_slots(to, site, space)
    }

    /// Adds the lines that fill all spaces.
    fn fill_all(&self, to: &mut Vec<BootLine>) -> Result<(), AllocError>
        requires { HasFewCNodes self.now.plan }
        ensures { OnOk result (to.new.items ≡ to.old.items
            ++ each (length self.now.plan.spaces.items)
            (λ p. filling self.now.layouts.items self.now.plan.spaces.items p
            (slice_get self.now.plan.spaces.items p))) }
    {
        let mut before = self.plan.spaces.len();
        for (place, space) in self.plan.spaces.iter().enumerate() {
            let leaves = space.leaves();
            let site = Site {
                place,
                before,
                leaves,
            };
            self.fill(to, site, space)?;
            before += leaves as usize;
        }
        Ok(())
    }

    /// Adds the lines that bind notifications to threads.
    fn bind_all(&self, to: &mut Vec<BootLine>) -> Result<(), AllocError>
        ensures { OnOk result
            (to.new.items ≡ to.old.items ++ map tie_line self.now.plan.ties.items) }
    {
        for tie in &self.plan.ties {
            let line = BootLine::Tie {
                thread: tie.thread,
                notification: tie.notification,
            };
            push(to, line)?;
        }
        Ok(())
    }

    /// Appends the lines of the boot after that of its cores; the plan must fit the machine's
    /// limits.
    fn add_lines(&self, to: &mut Vec<BootLine>) -> Result<(), AllocError>
        requires { Fits self.now.plan }
        ensures { OnOk result
            (to.new.items ≡ to.old.items ++ boot_of self.now.plan self.now.layouts.items) }
    {
        self.make_roots(to)?;
        add_times(to, &BootLine::CNode { radix: LEAF }, self.plan.leaves())?;
        self.make_objects(to, Kind::Endpoint, &BootLine::Endpoint)?;
        self.make_objects(to, Kind::Notification, &BootLine::Notification)?;
        self.make_objects(to, Kind::Reply, &BootLine::Reply)?;
        self.make_contexts(to)?;
        self.make_threads(to)?;
        self.fill_all(to)?;
        self.bind_all(to)
    }

    /// Returns the lines of the boot after that of its cores; the plan must fit the machine's
    /// limits.
    fn lines(&self, alloc: Global) -> Result<Vec<BootLine>, AllocError>
        requires { Fits self.now.plan }
        ensures { IfOk result (λ ls. ls.items ≡ boot_of self.now.plan self.now.layouts.items) }
    {
        let mut lines = Vec::new(alloc);
        self.add_lines(&mut lines)?;
        Ok(lines)
    }

    /// Returns the lines of the boot after that of its cores. `Limit` if it makes more of a kind
    /// than a machine may have.
    pub fn boot_lines(&self, alloc: Global) -> Result<Vec<BootLine>, PlanError>
        ensures made { IfOk result (λ ls. ls.items ≡ boot_of self.now.plan self.now.layouts.items) }
        ensures fits { OnOk result (boot_fits (said self.now.plan) ≡ Ok tt) }
        ensures error { IfErr result (Refuses (boot_fits (said self.now.plan))) }
    {
        fits(&self.plan)?;
        Ok(self.lines(alloc)?)
    }
}
