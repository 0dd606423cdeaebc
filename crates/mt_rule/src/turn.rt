//! The turn of a tree's writers: a lock whose value is of the tree's table.

ghost use Rattle.std.specs.Prelude.{◌≡◌, IfOk, IfErr, All, map, None, true, false, [], ◌∷◌};
ghost use Rattle.mt_rule.specs.Tokens.{Identity, identity_of, identity_of_pass, identity_of_pen, tree_seat, IsPassOf, pass_in};
ghost use Rattle.mt_rule.specs.Turns.{HasGrabbed, IsBusyAt, IsSeatedAt, IsTakenOf, counting, given_back, refused, seated, tried, waiting, served};

use crate::busy::Busy;
use crate::passes::Pass;
use crate::pens::Pen;
use crate::table::MtTable;
use crate::views::TurnView;
use atomic_table::{Badge, Play, Seat, Split, Table, TableRule};
use mt_base::NoMemory;
use std::alloc::Global;
use std::snapshot::Snapshot;
use std::sync::Wait;
use std::thread;

/// What is of a tree's table.
pub trait OfTable {
    /// Which table it is, and what it got when it was made.
    ghost table: { Self → Identity };
}

impl OfTable for Pass {
    ghost table = { identity_of_pass };
}

impl OfTable for Pen {
    ghost table = { identity_of_pen };
}

/// The value is with one seat, or in the slot.
pub struct Served;

impl<C: OfTable> TableRule<Option<C>, TurnView, Snapshot<MtTable>> for Served {
    ghost use Rattle.mt_rule.specs.Turns.{IsTurnKept, waiting};

    ghost holds = { IsTurnKept C.table };

    ghost first = { waiting };
}

/// Takes the value, where it is in the slot.
struct Grabs;

impl<C: OfTable> Play<Option<C>, TurnView> for Grabs {
    ghost use Rattle.mt_rule.specs.Turns.{grabs};

    ghost then = { grabs C.table };
}

/// Gives the value back.
struct Releases;

impl<C: OfTable> Play<Option<C>, TurnView> for Releases {
    ghost use Rattle.mt_rule.specs.Turns.{releases};

    ghost then = { releases };
}

/// A seat beside another, which counts it. There is no other way from a seat to one that may take the value.
struct Sits;

impl Split<TurnView> for Sits {
    ghost use Rattle.mt_rule.specs.Turns.{seat_beside, counting};

    ghost left = { counting };

    ghost right = { seat_beside };
}

/// The lock of one tree's table, over a value of that table. Whoever takes the value has it until he gives it back.
#[derive(Drop)]
pub struct Turn<C: OfTable> {
    pub(crate) table: Table<Option<C>, TurnView, Snapshot<MtTable>, Served, Global>,
    ghost one: { (table.shared.table_id.words ≡ 1) × (table.shared.table_id.slots ≡ 1) },
}

/// The value of a turn while it is taken. It cannot be dropped: whoever takes it gives it back, by [`Turn::give`].
pub struct Taken<C: OfTable> {
    pub value: C,
    pub(crate) seat: Seat<Option<C>, TurnView>,
    ghost held: { seat.me.1 ≡ (0, None) ∷ [] },
}

impl<C: OfTable + Drop> Turn<C> {
    /// A turn (writer lock) for this table over this value, at which each of these handles has a seat. If there is no memory,
    /// the value is dropped.
    ///
    /// # Errors
    ///
    /// `NoMemory` where memory ran out.
    pub fn make(
        alloc: Global,
        table: &MtTable,
        value: C,
        passes: &mut [Pass],
    ) -> Result<Turn<C>, NoMemory>
        requires value { C.table value ≡ identity_of table.now }
        requires passes { All (IsPassOf (identity_of table.now)) passes.old }
        ensures serves { IfOk result (λ t. served t.table.shared.key ≡ identity_of table.now) }
        ensures seated { IfOk result (λ t. All (IsSeatedAt t.table.shared.table_id t.table.shared.key) passes.new) }
        ensures of { All (IsPassOf (identity_of table.now)) passes.new }
        ensures passes { map pass_in passes.new ≡ map pass_in passes.old }
        ensures none { IfErr result (λ _. passes.new ≡ passes.old) }
    {
        let key = Snapshot::of(table);
        let mut slots = Vec::with_capacity(alloc, 1)?;
        slots.push_reserved(Some(value));
        match Table::new(alloc, &[0], slots, &key) {
            Ok((table, mut seat)) => {
                let turn = Turn { table };
                turn.seat_all(&mut seat, passes);
                Ok(turn)
            }
            Err(_) => Err(NoMemory),
        }
    }
}

impl<C: OfTable> Turn<C> {
    /// Gives each handle a seat.
    fn seat_all(&self, first: &mut Seat<Option<C>, TurnView>, passes: &mut [Pass])
        requires seat { (first.old.table_id ≡ self.now.table.shared.table_id) × (first.old.me ≡ (waiting self.now.table.shared.key, [])) }
        requires passes { All (IsPassOf (served self.now.table.shared.key)) passes.old }
        ensures seated { All (IsSeatedAt self.now.table.shared.table_id self.now.table.shared.key) passes.new }
        ensures of { All (IsPassOf (served self.now.table.shared.key)) passes.new }
        ensures passes { map pass_in passes.new ≡ map pass_in passes.old }
    {
        for i in 0..passes.len() {
            self.seat_one(first, &mut passes[i]);
        }
    }

    /// Gives one handle a seat.
    fn seat_one(&self, first: &mut Seat<Option<C>, TurnView>, pass: &mut Pass)
        requires table { first.old.table_id ≡ self.now.table.shared.table_id }
        requires view { first.old.me.0 ≡ seated self.now.table.shared.key first.old.me.0.tries }
        requires bare { first.old.me.1 ≡ [] }
        ensures table { first.new.table_id ≡ first.old.table_id }
        ensures view { first.new.me.0 ≡ counting first.old.me.0 }
        ensures bare { first.new.me.1 ≡ [] }
        ensures seated { IsSeatedAt self.now.table.shared.table_id self.now.table.shared.key pass.new }
        ensures seat { tree_seat pass.new ≡ tree_seat pass.old }
    {
        pass.turn = self.table.shared.split_seat::<Sits>(first).into_badge();
    }

    /// Another seat beside the handle's own, which counts it.
    fn seat(&self, pass: &mut Pass) -> Seat<Option<C>, TurnView>
        requires seated { IsSeatedAt self.now.table.shared.table_id self.now.table.shared.key pass.old }
        ensures pass { pass.new ≡ tried pass.old }
        ensures seated { IsSeatedAt self.now.table.shared.table_id self.now.table.shared.key pass.new }
        ensures table { result.table_id ≡ self.now.table.shared.table_id }
        ensures seat { result.me ≡ (waiting self.now.table.shared.key, []) }
    {
        let badge = std::mem::replace(&mut pass.turn, Badge::blank());
        let mut seat = badge.into_seat::<Option<C>>();
        let other = self.table.shared.split_seat::<Sits>(&mut seat);
        pass.turn = seat.into_badge();
        other
    }

    /// Waits for the value. No other has it until it is given back. The handle counts that it went for it.
    pub fn take(&self, rt: &impl Wait, pass: &mut Pass) -> Taken<C>
        requires seated { IsSeatedAt self.now.table.shared.table_id self.now.table.shared.key pass.old }
        ensures pass { pass.new ≡ tried pass.old }
        ensures seated { IsSeatedAt self.now.table.shared.table_id self.now.table.shared.key pass.new }
        ensures value { C.table result.value ≡ served self.now.table.shared.key }
        ensures taken { IsTakenOf self.now.table.shared.table_id self.now.table.shared.key result.seat }
    {
        let mut seat = self.seat(pass);
        for _ in rt.forever() {
            if self.grab(&mut seat) {
                return self.grabbed(seat);
            }
            thread::yield_now();
        }
        unreachable!()
    }

    /// Takes the value, if it is in the slot: by one swap, and without a wait.
    ///
    /// # Errors
    ///
    /// `Busy` if the swap found it away. Only a seat that has found it away says so, and none has before the value was ever
    /// taken. So only a step at the turn returns `Busy`. The handle counts the try.
    pub fn try_take(&self, pass: &mut Pass) -> Result<Taken<C>, Busy>
        requires seated { IsSeatedAt self.now.table.shared.table_id self.now.table.shared.key pass.old }
        ensures pass { pass.new ≡ tried pass.old }
        ensures seated { IsSeatedAt self.now.table.shared.table_id self.now.table.shared.key pass.new }
        ensures value { IfOk result (λ taken. C.table taken.value ≡ served self.now.table.shared.key) }
        ensures taken { IfOk result (λ taken. IsTakenOf self.now.table.shared.table_id self.now.table.shared.key taken.seat) }
        ensures busy { IfErr result (IsBusyAt self.now.table.shared.table_id self.now.table.shared.key) }
    {
        let mut seat = self.seat(pass);
        if !self.grab(&mut seat) {
            return Err(Busy {
                seat: seat.into_badge(),
            });
        }
        Ok(self.grabbed(seat))
    }

    /// Swaps 1 into the word. If the value was in its slot, the slot is then away with the seat. Otherwise the seat has found
    /// it away.
    fn grab(&self, seat: &mut Seat<Option<C>, TurnView>) -> bool
        requires table { seat.old.table_id ≡ self.now.table.shared.table_id }
        requires of { seat.old.me.0.of ≡ self.now.table.shared.key }
        requires idle { seat.old.me.0.holds ≡ false }
        requires bare { seat.old.me.1 ≡ [] }
        ensures table { seat.new.table_id ≡ seat.old.table_id }
        ensures away { result ≡ true → HasGrabbed C.table self.now.table.shared.key seat.new.me }
        ensures refused { result ≡ false → seat.new.me ≡ (refused self.now.table.shared.key, []) }
    {
        self.table.shared.swap::<Grabs>(seat, 0, 1) == 0
    }

    /// Takes the value out of the slot, which is away with the seat. This happens after the swap that grabs it, and is not
    /// moved across that.
    fn grabbed(&self, mut seat: Seat<Option<C>, TurnView>) -> Taken<C>
        requires table { seat.table_id ≡ self.now.table.shared.table_id }
        requires away { HasGrabbed C.table self.now.table.shared.key seat.me }
        ensures value { C.table result.value ≡ served self.now.table.shared.key }
        ensures taken { IsTakenOf self.now.table.shared.table_id self.now.table.shared.key result.seat }
    {
        let value = self.table.shared.exchange(&mut seat, 0, None).unwrap();
        Taken { value, seat }
    }

    /// Gives the value back.
    pub fn give(&self, taken: Taken<C>)
        requires taken { IsTakenOf self.now.table.shared.table_id self.now.table.shared.key taken.seat }
        requires value { C.table taken.value ≡ served self.now.table.shared.key }
    {
        let _ = self.given(taken);
    }

    /// Gives the value back. Returns the seat that had it: the slot has the value, and the word is 0.
    fn given(&self, taken: Taken<C>) -> Seat<Option<C>, TurnView>
        requires taken { IsTakenOf self.now.table.shared.table_id self.now.table.shared.key taken.seat }
        requires value { C.table taken.value ≡ served self.now.table.shared.key }
        ensures same { (result.table_id ≡ taken.seat.table_id) × (result.id ≡ taken.seat.id) }
        ensures given { result.me ≡ (given_back self.now.table.shared.key, []) }
    {
        let Taken { value, mut seat } = taken;
        let empty = self.table.shared.exchange(&mut seat, 0, Some(value));
        let None = empty else { unreachable!() };
        self.table.shared.store::<Releases>(&mut seat, 0, 0);
        seat
    }
}
