//! One run of a script, with trouble at one of its nodes.
ghost use Rattle.std.specs.Prelude.{◌≡◌};
ghost use Rattle.vc_events.specs.World.{clones_of};

use crate::disk::{Disk, OnDisk, mend, stop_after};
use crate::laws::Seen;
use crate::script::told_by;
use anyhow::{Result, bail};
use std::alloc::Global;
use vc_files::FailOnce;
use vc_script::{add_lines, read_script};
use vc_simulation::FileWorld;

/// A world whose disks can be looked at.
pub type DiskWorld<'a> = FileWorld<FailOnce<OnDisk<'a>>>;

/// What comes of a fault.
#[derive(Clone, Copy, PartialEq, Eq)]
pub enum After {
    /// The node is restarted, every message that was sent comes once more, and the script goes on.
    Back,
    /// The run ends.
    End,
    /// The script goes on, and the node is restarted after it.
    Down,
}

/// What befalls a node.
#[derive(Clone, Copy)]
pub struct Trouble {
    /// The node's place among the disks.
    pub place: usize,
    /// A stop comes after so many writes, if any does.
    pub writes: Option<u64>,
    /// From the first fault on, the disk stops after so many writes, if it does.
    pub again: Option<u64>,
    /// So many calls of the disk pass, and the next one fails.
    pub calls: u64,
    pub after: After,
}

/// A run as far as it was played.
#[derive(Drop)]
pub struct Run<'a> {
    pub alloc: Global,
    pub disks: &'a [Disk],
    /// How many clones there are.
    pub clones: usize,
    pub world: DiskWorld<'a>,
    pub seen: Seen,
    pub trouble: Trouble,
    /// What the node is called.
    pub node: String,
    /// How many faults came.
    pub faults: u64,
}

/// Whether an answer is that a device failed.
pub fn is_fault(answer: &[u8]) -> bool {
    answer == b"fault device\n".as_slice()
}

// What a node that is down answers.
fn is_down(answer: &[u8]) -> bool {
    answer == b"refused 112\n".as_slice()
}

// What a world of so many clones answers to a line, with a line feed.
fn answered<'a>(
    alloc: Global,
    world: &mut DiskWorld<'a>,
    clones: usize,
    line: &str,
) -> Result<Vec<u8>>
    requires { clones_of world.old ≡ clones }
    ensures { clones_of world.new ≡ clones }
{
    let text = format!(in alloc; "world {clones}\n{line}\n")?;
    let script = read_script(alloc, text.as_bytes())?;
    if script.clones != clones {
        bail!("so many clones no world has");
    }
    let Ok(answers) = world.run(alloc, &script.events) else {
        bail!("no memory for a line");
    };
    let mut answer = Vec::new(alloc);
    add_lines(alloc, &answers, world.letters(), &mut answer)?;
    Ok(answer)
}

impl<'a> Run<'a> {
    // Plays a line, and looks at all disks then.
    fn tell(&mut self, line: &str) -> Result<Vec<u8>>
        requires { clones_of self.old.world ≡ self.old.clones }
        ensures { clones_of self.new.world ≡ self.new.clones }
    {
        let answer = answered(self.alloc, &mut self.world, self.clones, line)?;
        if is_fault(&answer) {
            self.faults = self.faults.saturating_add(1);
            self.mend()?;
        }
        self.seen.look(self.disks)?;
        Ok(answer)
    }

    // The node's disk works again. The node is down all the same, until it is restarted.
    fn mend(&self) -> Result<()> {
        match self.disks.get(self.trouble.place) {
            Some(disk) => mend(disk),
            None => bail!("there is no such node"),
        }
    }

    // From here on the node's disk may stop a second time.
    fn stop_again(&self) -> Result<()> {
        match (self.trouble.again, self.disks.get(self.trouble.place)) {
            (Some(writes), Some(disk)) => stop_after(disk, writes),
            _ => Ok(()),
        }
    }

    // A line that is to be done.
    fn must(&mut self, line: &str) -> Result<()>
        requires { clones_of self.old.world ≡ self.old.clones }
        ensures { clones_of self.new.world ≡ self.new.clones }
    {
        let answer = self.tell(line)?;
        if answer.as_slice() != b"done\n".as_slice() {
            bail!("{line}: not done");
        }
        Ok(())
    }

    // The node, which is down, refuses what it is asked.
    fn ask_down(&mut self) -> Result<()>
        requires { clones_of self.old.world ≡ self.old.clones }
        ensures { clones_of self.new.world ≡ self.new.clones }
    {
        let line = format!(in self.alloc; "{} same HEAD HEAD", self.node)?;
        let answer = self.tell(line.as_str())?;
        if !is_down(&answer) {
            bail!("the node answers after a fault");
        }
        Ok(())
    }

    // Brings every message that was sent once more. Whether no fault came.
    fn bring_all(&mut self) -> Result<bool>
        requires { clones_of self.old.world ≡ self.old.clones }
        ensures { clones_of self.new.world ≡ self.new.clones }
    {
        for number in 0..self.world.letters().len() {
            let line = format!(in self.alloc; "deliver {number}")?;
            if is_fault(&self.tell(line.as_str())?) {
                return Ok(false);
            }
        }
        Ok(true)
    }

    // Restarts the node, and brings every message once more. Whether no fault came.
    fn come_back(&mut self) -> Result<bool>
        requires { clones_of self.old.world ≡ self.old.clones }
        ensures { clones_of self.new.world ≡ self.new.clones }
    {
        let line = format!(in self.alloc; "restart {}", self.node)?;
        let answer = self.tell(line.as_str())?;
        if is_fault(&answer) {
            return Ok(false);
        }
        if answer.as_slice() != b"done\n".as_slice() {
            bail!("the node can't be opened again");
        }
        self.bring_all()
    }

    /// After a fault, the node comes back, at the second time if the disk stops again meanwhile.
    pub fn recover(&mut self) -> Result<()>
        requires { clones_of self.old.world ≡ self.old.clones }
        ensures { clones_of self.new.world ≡ self.new.clones }
    {
        self.ask_down()?;
        if self.faults == 1 {
            self.stop_again()?;
        }
        if self.come_back()? {
            return Ok(());
        }
        self.ask_down()?;
        if self.come_back()? {
            return Ok(());
        }
        bail!("a third fault came")
    }

    // Whether a line is for the node.
    fn is_for_node(&self, line: &str) -> bool {
        told_by(line, self.world.letters()) == Some(self.trouble.place)
    }

    // What comes of a line: whether the script goes on.
    fn follow(&mut self, line: &str, answer: &[u8]) -> Result<bool>
        requires { clones_of self.old.world ≡ self.old.clones }
        ensures { clones_of self.new.world ≡ self.new.clones }
    {
        if is_fault(answer) {
            if !self.is_for_node(line) {
                bail!("a fault at another node");
            }
            if self.trouble.after == After::Back {
                self.recover()?;
            }
            return Ok(self.trouble.after != After::End);
        }
        if self.trouble.after == After::Down && self.faults > 0 {
            self.refuse_up(line, answer)?;
        }
        Ok(true)
    }

    // The node, which is down, refuses each line that is for it.
    fn refuse_up(&self, line: &str, answer: &[u8]) -> Result<()> {
        if self.is_for_node(line) && !is_down(answer) {
            bail!("the node answers after a fault");
        }
        Ok(())
    }

    // The stop is set.
    fn set_stop(&mut self) -> Result<()>
        requires { clones_of self.old.world ≡ self.old.clones }
        ensures { clones_of self.new.world ≡ self.new.clones }
    {
        let Some(writes) = self.trouble.writes else {
            return Ok(());
        };
        let line = format!(in self.alloc; "stop {} {writes}", self.node)?;
        self.must(line.as_str())
    }

    /// Plays the lines: the answers.
    pub fn play(&mut self, lines: &[String]) -> Result<Vec<Vec<u8>>>
        requires { clones_of self.old.world ≡ self.old.clones }
        ensures { clones_of self.new.world ≡ self.new.clones }
    {
        let mut answers = Vec::new(self.alloc);
        self.set_stop()?;
        for line in lines {
            let answer = self.tell(line.as_str())?;
            let goes_on = self.follow(line.as_str(), &answer)?;
            answers.push(answer)?;
            if !goes_on {
                break;
            }
        }
        Ok(answers)
    }
}
