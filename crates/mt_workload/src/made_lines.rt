use mt_log::{Item, Line, ListOf};
use std::alloc::{AllocError, Global};
use std::marker::Model;

/// The lines of a log after its first, each with the next number.
#[derive(Drop)]
pub struct MadeLines {
    lines: Vec<Line>,
}

impl Model for MadeLines {
    ghost use Rattle.std.specs.Prelude.{◌≡◌, List, map};
    ghost use Rattle.mt_log.specs.declared.lines.Item.{Item};
    ghost use Rattle.mt_workload.specs.Made.{numbered};

    ghost Value = { List Item };

    ghost view = { λ l. map (λ line. line.item) l.lines.items };

    ghost invariant = { λ l. l.lines.items ≡ numbered 2 (map (λ line. line.item) l.lines.items) };
}

impl MadeLines {
    ghost use Rattle.std.specs.Prelude.{◌≡◌, ◌++◌, ◌∷◌, [], IfOk, OnOk};
    ghost use Rattle.mt_workload.specs.Made.{numbered};

    /// No lines, with room for `room` of them.
    pub fn new(alloc: Global, room: usize) -> Result<Self, AllocError>
        ensures { IfOk result (λ lines. lines ≡ []) }
    {
        Ok(MadeLines {
            lines: Vec::with_capacity(alloc, room)?,
        })
    }

    /// Adds a line that says this.
    #[tactic(auto, using(crate::proofs::Numbered::one_more))]
    pub fn push(&mut self, item: Item) -> Result<(), AllocError>
        ensures { OnOk result (self.new ≡ self.old ++ item ∷ []) }
    {
        let number = self.lines.len() as u64 + 2;
        self.lines.push(Line { number, item })?;
        Ok(())
    }

    /// The lines.
    pub fn into_lines(self) -> ListOf<Line>
        ensures { result ≡ numbered 2 self }
    {
        ListOf::new(self.lines)
    }
}
