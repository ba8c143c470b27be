//! The lines of the boot: each form once. The room that they ask for is that of any line.
ghost use Rattle.std.specs.Prelude.{◌≡◌, ◌≤◌, ◌+◌, ◌∷◌, ◌++◌, [], length};
ghost use Rattle.std.specs.List.{flat_map};
ghost use Rattle.mcs_trace.specs.Room.{Adds, HasRoom};
ghost use Rattle.mcs_text.specs.Spelling.{then_text, token_text};
ghost use Rattle.mcs_text.specs.Table.{runs_key, boot_text};

use crate::line::Line;
use crate::rooms::{LINE, ROOTED, WORD};
use mcs_text::{Key, Token};
use mcs_types::{BootLine, Cap, Guard, ObjId, Prio};

impl Line {
    /// Appends a space, and whether a thread runs at boot.
    fn runs(&mut self, runs: bool)
        requires { HasRoom self.old (1 + WORD) }
        ensures { Adds self.old self.new (1 + WORD) (then_text (token_text (runs_key runs))) }
    {
        if runs {
            self.spaced_word(&Token::Key(Key::Run));
        } else {
            self.spaced_word(&Token::Key(Key::Stop));
        }
    }

    /// Appends the words of the line of a thread of the boot, up to the guard of the root.
    fn rooted(&mut self, priorities: (Prio, Prio), root: ObjId, guard: Guard)
        requires { HasRoom self.old ROOTED }
        ensures { Adds self.old self.new ROOTED
            (token_text (Token.Key Key.Thread) ++ flat_map (λ t. then_text (token_text t))
            (Token.Number priorities.0.0 ∷ Token.Number priorities.1.0 ∷ Token.Name root
            ∷ Token.Number guard.bits ∷ Token.Number guard.value ∷ [])) }
    {
        self.key(Key::Thread);
        self.spaced(priorities.0.0 as u64);
        self.spaced(priorities.1.0 as u64);
        self.spaced_name(root);
        self.spaced(guard.bits as u64);
        self.spaced(guard.value);
    }

    /// Appends the line of a thread of the boot.
    #[tactic(auto, unfolding(mcs_text::specs::Spelling::line_text))]
    fn thread(
        &mut self,
        priorities: (Prio, Prio),
        root: ObjId,
        guard: Guard,
        runs: bool,
        context: Option<ObjId>,
    )
        requires { HasRoom self.old LINE }
        ensures { self.new ≡ self.old ++ boot_text
            (BootLine.Thread priorities.0 priorities.1 root guard runs context) }
    {
        self.rooted(priorities, root, guard);
        self.runs(runs);
        self.spaced_word(&Token::Maybe(context));
        self.byte(b'\n');
    }

    /// Appends the line of a slot of the boot.
    #[tactic(auto, unfolding(mcs_text::specs::Spelling::line_text))]
    fn boot_slot(&mut self, cnode: ObjId, index: u8, cap: &Cap)
        requires { HasRoom self.old LINE }
        ensures { self.new ≡ self.old ++ boot_text (BootLine.Slot cnode index cap.now) }
    {
        self.key(Key::Slot);
        self.spaced_name(cnode);
        self.spaced(index as u64);
        self.spaced_word(&Token::Cap(*cap));
        self.byte(b'\n');
    }

    /// Appends the line of a notification that is bound to a thread.
    #[tactic(auto, unfolding(mcs_text::specs::Spelling::line_text))]
    fn tie(&mut self, thread: ObjId, notification: ObjId)
        requires { HasRoom self.old LINE }
        ensures { self.new ≡ self.old ++ boot_text (BootLine.Tie thread notification) }
    {
        self.key(Key::Tie);
        self.spaced_name(thread);
        self.spaced_name(notification);
        self.byte(b'\n');
    }

    /// Appends a line of the boot other than the first.
    pub fn boot_line(&mut self, line: &BootLine)
        requires { HasRoom self.old LINE }
        ensures { self.new ≡ self.old ++ boot_text line.now }
    {
        match line {
            BootLine::CNode { radix } => self.numbered(Key::CNode, *radix as u64),
            BootLine::Endpoint => self.bare(Key::Endpoint),
            BootLine::Notification => self.bare(Key::Notification),
            BootLine::Reply => self.bare(Key::Reply),
            BootLine::Context { core } => self.numbered(Key::Context, core.0 as u64),
            BootLine::Thread {
                priority,
                maximum,
                root,
                guard,
                runs,
                context,
            } => self.thread((*priority, *maximum), *root, *guard, *runs, *context),
            BootLine::Slot { cnode, index, cap } => self.boot_slot(*cnode, *index, cap),
            BootLine::Tie {
                thread,
                notification,
            } => self.tie(*thread, *notification),
        }
    }
}
