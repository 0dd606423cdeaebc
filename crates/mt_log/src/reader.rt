use crate::faults::Why;
use crate::lines::{Item, Line};
use crate::trees::Trees;
use std::alloc::{AllocError, Global};
use std::marker::Model;

/// The most steps that all scans of a log have, by their counts.
const MOST_SCAN_STEPS: u64 = 1_000_000;

/// The most trees that a log declares.
const MOST_TREES: usize = 16;

/// What was read so far.
#[derive(Drop)]
pub struct Reader {
    trees: Trees,
    stepped: bool,
    scanned: u64,
    lines: Vec<Line>,
    next: u64,
}

impl Model for Reader {
    ghost use Rattle.mt_log.specs.Reading.{ReadSoFar};

    ghost Value = { ReadSoFar };

    ghost view = { λ r. record { trees = r.trees; stepped = r.stepped; scanned = r.scanned; lines = r.lines.items; next = r.next } };
}

impl Reader {
    ghost use Rattle.std.specs.Prelude.{◌≡◌, ◌<◌, ◌≤◌, ◌+◌, ◌-◌, ◌^◌, OnOk, IfOk, false, length};
    ghost use Rattle.mt_log.specs.Reading.{nothing_read, after_item, after_skipped, before_steps, room_for_tree, room_for_scan, most_scan_steps};
    ghost use Rattle.mt_log.specs.Reader.{MayFollow};
    ghost use Rattle.mt_log.specs.Trees.{most_trees};

    /// A reader after the first line, with room for `room` lines that say something.
    pub fn new(alloc: Global, room: usize) -> Result<Self, AllocError>
        ensures { IfOk result (λ reader. reader ≡ nothing_read) }
    {
        Ok(Reader {
            trees: Trees::new(alloc),
            stepped: false,
            scanned: 0,
            lines: Vec::with_capacity(alloc, room)?,
            next: 2,
        })
    }

    /// The declared trees.
    pub fn trees(&self) -> &Trees
        ensures { result.now ≡ self.now.trees }
    {
        &self.trees
    }

    /// The number of the next line.
    pub fn next_line(&self) -> u64
        ensures { result ≡ self.now.next }
    {
        self.next
    }

    pub fn into_lines(self) -> Vec<Line>
        ensures { result.items ≡ self.lines }
    {
        self.lines
    }

    /// Whether a line that has to come before the first step of its phase may come here.
    #[tactic(auto, unfolding(crate::specs::Reading::before_steps))]
    pub fn before_steps(&self) -> Result<(), Why>
        ensures place { result ≡ before_steps self.now }
        ensures before { OnOk result (self.now.stepped ≡ false) }
    {
        if self.stepped {
            return Err(Why::Order);
        }
        Ok(())
    }

    /// Whether one more tree may be declared.
    #[tactic(auto, unfolding(crate::specs::Reading::room_for_tree))]
    pub fn room_for_tree(&self) -> Result<(), Why>
        ensures room { result ≡ room_for_tree self.now }
        ensures within { OnOk result (length self.now.trees < most_trees) }
    {
        if self.trees.len() >= MOST_TREES {
            return Err(Why::Trees);
        }
        Ok(())
    }

    /// Whether a scan of `count` steps may be asked for.
    #[tactic(auto, unfolding(crate::specs::Reading::room_for_scan))]
    pub fn room_for_scan(&self, count: u32) -> Result<(), Why>
        ensures room { result ≡ room_for_scan self.now count }
        ensures within { OnOk result (self.now.scanned + count ≤ most_scan_steps) }
    {
        if self.scanned.saturating_add(u64::from(count)) > MOST_SCAN_STEPS {
            return Err(Why::Scans);
        }
        Ok(())
    }

    /// Goes past a line that says this.
    pub fn add(&mut self, item: Item) -> Result<(), AllocError>
        requires next { self.old.next < 2 ^ 64 - 1 }
        requires follows { MayFollow self.old item }
        ensures { OnOk result (self.new ≡ after_item self.old item) }
    {
        if let Some(tree) = item.declares(&self.trees) {
            self.trees.push(tree)?;
        }
        self.lines.push(Line {
            number: self.next,
            item,
        })?;
        self.stepped = item.stepped_after(self.stepped);
        self.scanned += u64::from(item.scan_steps());
        self.next += 1;
        Ok(())
    }

    /// Goes past a line that says nothing.
    pub fn skip(&mut self)
        requires next { self.old.next < 2 ^ 64 - 1 }
        ensures { self.new ≡ after_skipped self.old }
    {
        self.next += 1;
    }
}
