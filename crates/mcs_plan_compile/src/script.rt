//! The script of a plan, in parts.
use mcs_plan_layout::PlanLayout;
use mcs_types::BootLine;

/// A script, in parts.
#[derive(Drop)]
pub struct Script {
    /// The lines before the boot: comments and names.
    pub front: Vec<String>,
    pub cores: u8,
    /// The lines of the boot, after that of its cores.
    pub boot: Vec<BootLine>,
    /// The lines after the boot: steps or entries of users, comments, and expectations.
    pub lines: Vec<String>,
    /// Whether the lines after the boot are those of users.
    pub is_users: bool,
    /// The plan's layout, which resolves names.
    pub laid: PlanLayout,
}
