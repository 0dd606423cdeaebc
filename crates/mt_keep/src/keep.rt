//! A lock whose value is of a place, for those who do not wait.

ghost use Rattle.std.specs.Prelude.{◌≡◌, ◌+◌, ℕ, IfOk, IfErr, None, true, false, [], ◌∷◌};
ghost use Rattle.mt_keep.specs.Keeping.{HasGrabbed, IsBusyAt, IsGivenAt, IsSeatedAt, IsTakenOf, cuts_of, refused, waiting};

use atomic_table::{Badge, Play, Seat, Split, Table, TableRule};
use mt_base::NoMemory;
use std::alloc::Global;
use std::snapshot::Snapshot;

/// What is of a place.
pub trait Placed<K> {
    /// It is of this place.
    ghost fits: { K → Self → Type 0 };
}

/// How a keep began, which never changes: its place, and its first value.
#[derive(Drop)]
pub struct Start<C, K> {
    pub place: Snapshot<K>,
    pub first: Snapshot<C>,
}

/// What a seat knows. It is ghost: none is made at run time.
pub struct Sight<C, K> {
    /// Whether it has the value, and whether it has had it.
    pub holds: bool,
    pub held: bool,
    /// Whether it has found the value away.
    pub refused: bool,
    /// The value as it took it, and as it gave it back.
    pub took: Option<Snapshot<C>>,
    pub gave: Option<Snapshot<C>>,
    /// The place that the value is of, and the value that the keep began with.
    pub of: Start<C, K>,
    /// How many cuts it is away from the first chair. Who takes the value, or makes a chair, cuts a seat off its own, and both
    /// are then one further.
    pub cuts: u64,
}

/// Whoever has one may take the value. It has no bytes.
pub type Chair<C, K> = Badge<Sight<C, K>>;

/// The receipt of finding a keep's value away. Only a step at the keep makes one, and it has no bytes.
#[derive(Drop)]
pub struct Busy<C, K> {
    seat: Badge<Sight<C, K>>,
}

/// The receipt of giving a keep's value back: what it was when it was taken, and what it is now. Only a step at the keep makes
/// one, and it has no bytes.
#[derive(Drop)]
pub struct Given<C, K> {
    took: Snapshot<C>,
    gave: Snapshot<C>,
    seat: Badge<Sight<C, K>>,
}

/// The value is with one seat, or in the slot.
pub struct KeepRule;

impl<C: Placed<K>, K> TableRule<Option<C>, Sight<C, K>, Start<C, K>> for KeepRule {
    ghost use Rattle.mt_keep.specs.Keeping.{HasOneHolder, first_chair};

    ghost holds = { HasOneHolder C.fits };

    ghost first = { first_chair };
}

/// Takes the value, where it is in the slot.
struct Grabs;

impl<C: Placed<K>, K> Play<Option<C>, Sight<C, K>> for Grabs {
    ghost use Rattle.mt_keep.specs.Keeping.{grabs};

    ghost then = { grabs C.fits };
}

/// Gives the value back.
struct Releases;

impl<C: Placed<K>, K> Play<Option<C>, Sight<C, K>> for Releases {
    ghost use Rattle.mt_keep.specs.Keeping.{releases};

    ghost then = { releases };
}

/// A seat beside another.
struct Sits;

impl<C, K> Split<Sight<C, K>> for Sits {
    ghost use Rattle.mt_keep.specs.Keeping.{one_further};

    ghost left = { one_further };

    ghost right = { one_further };
}

/// A value of one place. Whoever takes it has it until he gives it back; nobody waits for it.
#[derive(Drop)]
pub struct Keep<C: Placed<K>, K> {
    table: Table<Option<C>, Sight<C, K>, Start<C, K>, KeepRule, Global>,
    ghost one: { (table.shared.table_id.words ≡ 1) × (table.shared.table_id.slots ≡ 1) },
}

/// The value while it is taken. It cannot be dropped: whoever takes it gives it back, by [`Keep::give`].
pub struct Taken<C: Placed<K>, K> {
    pub value: C,
    /// The value as it was taken.
    took: Snapshot<C>,
    seat: Seat<Option<C>, Sight<C, K>>,
    ghost held: { seat.me.1 ≡ (0, None) ∷ [] },
}

impl<C: Placed<K> + Drop, K> Keep<C, K> {
    /// A keep of this value, and the first chair (token) at it. If there is no memory, the value is dropped.
    ///
    /// # Errors
    ///
    /// `NoMemory` where memory ran out.
    pub fn make(alloc: Global, place: &K, value: C) -> Result<(Keep<C, K>, Chair<C, K>), NoMemory>
        requires { C.fits place.now value }
        ensures place { IfOk result (λ r. r.0.table.shared.key.place.value ≡ place.now) }
        ensures first { IfOk result (λ r. r.0.table.shared.key.first.value ≡ value) }
        ensures chair { IfOk result (λ r. IsSeatedAt r.0.table.shared.table_id r.0.table.shared.key r.1) }
        ensures cuts { IfOk result (λ r. cuts_of r.1 ≡ 0) }
    {
        let key = Start {
            place: Snapshot::of(place),
            first: Snapshot::of(&value),
        };
        let mut slots = Vec::with_capacity(alloc, 1)?;
        slots.push_reserved(Some(value));
        match Table::new(alloc, &[0], slots, &key) {
            Ok((table, seat)) => Ok((Keep { table }, seat.into_badge())),
            Err(_) => Err(NoMemory),
        }
    }
}

impl<C: Placed<K>, K> Keep<C, K> {
    /// A seat beside a chair.
    fn seat(&self, chair: &mut Chair<C, K>) -> Seat<Option<C>, Sight<C, K>>
        requires { IsSeatedAt self.now.table.shared.table_id self.now.table.shared.key chair.old }
        ensures chair { IsSeatedAt self.now.table.shared.table_id self.now.table.shared.key chair.new }
        ensures cuts { cuts_of chair.new ≡ cuts_of chair.old + 1 }
        ensures table { result.table_id ≡ self.now.table.shared.table_id }
        ensures seat { result.me ≡ (waiting self.now.table.shared.key (cuts_of chair.new), []) }
    {
        let badge = std::mem::replace(chair, Badge::blank());
        let mut seat = badge.into_seat::<Option<C>>();
        let other = self.table.shared.split_seat::<Sits>(&mut seat);
        *chair = seat.into_badge();
        other
    }

    /// Another chair. Both are one cut further from the first one.
    pub fn chair(&self, chair: &mut Chair<C, K>) -> Chair<C, K>
        requires { IsSeatedAt self.now.table.shared.table_id self.now.table.shared.key chair.old }
        ensures chair { IsSeatedAt self.now.table.shared.table_id self.now.table.shared.key chair.new }
        ensures cuts { cuts_of chair.new ≡ cuts_of chair.old + 1 }
        ensures other { IsSeatedAt self.now.table.shared.table_id self.now.table.shared.key result }
        ensures other_cuts { cuts_of result ≡ cuts_of chair.new }
    {
        self.seat(chair).into_badge()
    }

    /// Takes the value, if it is in the slot: by one swap of a seat that is cut off the chair. That seat's receipt has the
    /// number of cuts that the chair then has.
    ///
    /// # Errors
    ///
    /// `Busy` if the swap found it away. Only a seat that has found it away says so, and none has before the value was ever
    /// taken. So only a step at the keep returns `Busy`.
    #[tactic(auto, using(crate::proofs::Taking::busy_views, crate::proofs::Taking::idle_seat))]
    pub fn try_take(&self, chair: &mut Chair<C, K>) -> Result<Taken<C, K>, Busy<C, K>>
        requires { IsSeatedAt self.now.table.shared.table_id self.now.table.shared.key chair.old }
        ensures chair { IsSeatedAt self.now.table.shared.table_id self.now.table.shared.key chair.new }
        ensures cuts { cuts_of chair.new ≡ cuts_of chair.old + 1 }
        ensures value { IfOk result (λ taken. C.fits self.now.table.shared.key.place.value taken.value) }
        ensures taken { IfOk result (λ taken. IsTakenOf self.now.table.shared.table_id self.now.table.shared.key taken.took taken.seat) }
        ensures taken_cuts { IfOk result (λ taken. taken.seat.me.0.cuts ≡ cuts_of chair.new) }
        ensures took { IfOk result (λ taken. taken.took.value ≡ taken.value) }
        ensures busy { IfErr result (IsBusyAt self.now.table.shared.table_id self.now.table.shared.key) }
        ensures busy_cuts { IfErr result (λ busy. cuts_of busy.seat ≡ cuts_of chair.new) }
    {
        let mut seat = self.seat(chair);
        if !self.grab(&mut seat) {
            return Err(Busy {
                seat: seat.into_badge(),
            });
        }
        Ok(self.grabbed(seat))
    }

    /// Swaps 1 into the word. If the value was in its slot, the slot is then away with the seat. Otherwise the seat has found
    /// it away.
    fn grab(&self, seat: &mut Seat<Option<C>, Sight<C, K>>) -> bool
        requires table { seat.old.table_id ≡ self.now.table.shared.table_id }
        requires idle { seat.old.me ≡ (waiting self.now.table.shared.key seat.old.me.0.cuts, []) }
        ensures table { seat.new.table_id ≡ seat.old.table_id }
        ensures cuts { seat.new.me.0.cuts ≡ seat.old.me.0.cuts }
        ensures away { result ≡ true → HasGrabbed C.fits self.now.table.shared.key seat.new.me }
        ensures refused { result ≡ false → seat.new.me ≡ (refused self.now.table.shared.key seat.old.me.0.cuts, []) }
    {
        self.table.shared.swap::<Grabs>(seat, 0, 1) == 0
    }

    /// Takes the value out of the slot, which is away with the seat.
    fn grabbed(&self, mut seat: Seat<Option<C>, Sight<C, K>>) -> Taken<C, K>
        requires table { seat.table_id ≡ self.now.table.shared.table_id }
        requires away { HasGrabbed C.fits self.now.table.shared.key seat.me }
        ensures value { C.fits self.now.table.shared.key.place.value result.value }
        ensures taken { IsTakenOf self.now.table.shared.table_id self.now.table.shared.key result.took result.seat }
        ensures cuts { result.seat.me.0.cuts ≡ seat.me.0.cuts }
        ensures took { result.took.value ≡ result.value }
    {
        let value = self.table.shared.exchange(&mut seat, 0, None).unwrap();
        let took = Snapshot::of(&value);
        Taken { value, took, seat }
    }

    /// Gives the value back. The receipt has what it was and what it is now: who takes it next finds that.
    pub fn give(&self, taken: Taken<C, K>) -> Given<C, K>
        requires taken { IsTakenOf self.now.table.shared.table_id self.now.table.shared.key taken.took taken.seat }
        requires value { C.fits self.now.table.shared.key.place.value taken.value }
        ensures given { IsGivenAt self.now.table.shared.table_id self.now.table.shared.key result }
        ensures cuts { cuts_of result.seat ≡ taken.seat.me.0.cuts }
        ensures took { result.took ≡ taken.took }
        ensures gave { result.gave.value ≡ taken.value }
    {
        let Taken {
            value,
            took,
            mut seat,
        } = taken;
        let gave = Snapshot::of(&value);
        let empty = self.table.shared.exchange(&mut seat, 0, Some(value));
        let None = empty else { unreachable!() };
        self.table.shared.store::<Releases>(&mut seat, 0, 0);
        Given {
            took,
            gave,
            seat: seat.into_badge(),
        }
    }
}
