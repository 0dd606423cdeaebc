//! Users that are made, that make others, and that leave.

ghost use Rattle.std.specs.Prelude.{◌≡◌, ◌+◌, ◌<◌, ◌≤◌, ◌∷◌, ◌++◌, All, Err, IfErr, IfOk, List, None, Some, []};
ghost use Rattle.std.specs.Vec.{vec_capacity, vec_len};
ghost use Rattle.mt_tree.specs.Shapes.{first_bad};
ghost use Rattle.mt_tree.specs.Trees.{IsPassOf, Pass, pass_in};
ghost use Rattle.mt_tree.specs.declared.shapes.Field.{Field};
ghost use Rattle.mt_tree.specs.declared.shapes.MakeError.TheVariants as make_error;
ghost use Rattle.mt_keep.specs.Keeping.{cuts_of};
ghost use Rattle.std.specs.Arc.{arc_value};
ghost use Rattle.mt_c.specs.Purses.{IsChairAtPurse, HasPurse, first_in, known_in};
ghost use Rattle.mt_c.specs.Receipts.{no_receipts};
ghost use Rattle.mt_c.specs.Spares.{IsSparePass};
ghost use Rattle.mt_c.specs.Users.{HasLeft, IsFirstUser, IsOfPurse, IsWhy, WantsNoPlace, common_of, cuts, known_to, paused, rested, user_tree};
ghost use Rattle.mt_c.specs.Walkers.{IsOnNoWalk, Took};

use crate::purse::{Common, Purse};
use crate::receipts::Receipts;
use crate::user::User;
use crate::walker::Walker;
use atomic_table::Badge;
use mt_keep::{Busy, Chair, Given, Keep, Taken};
use mt_tree::{MakeError, NoMemory, Pass, Shape, Tree, Walk};
use std::alloc::{AllocFailed, Global};
use std::sync::Arc;

/// Why no user was opened, or none has left.
#[derive(Drop)]
pub enum Unchanged {
    /// Another user has the purse.
    Busy { busy: Busy<Purse, Tree> },
    /// The purse was found empty, and given back so.
    NoPlace { given: Given<Purse, Tree> },
    /// Memory ran out, and the purse was given back as it was.
    NoMemory { given: Given<Purse, Tree> },
}

/// What a user leaves: what it gave back, and its chair, which nobody then has.
#[derive(Drop)]
pub struct Left {
    given: Given<Purse, Tree>,
    chair: Chair<Purse, Tree>,
}

/// A new tree with the purse of these handles, and a chair at that.
fn shared(
    alloc: Global,
    tree: Tree,
    passes: Vec<Pass>,
) -> Result<(Arc<Common>, Chair<Purse, Tree>), NoMemory>
    requires { All (IsSparePass tree) passes.items }
    ensures tree { IfOk result (λ r. (arc_value r.0).tree ≡ tree) }
    ensures first { IfOk result (λ r. (first_in (arc_value r.0)).passes.items ≡ passes.items) }
    ensures seated { IfOk result (λ r. IsChairAtPurse (arc_value r.0) r.1) }
    ensures chair { IfOk result (λ r. cuts_of r.1 ≡ 0) }
{
    let (purse, chair) = Keep::make(alloc, &tree, Purse { passes })?;
    let common = Common { tree, purse };
    match Arc::new(alloc, common) {
        Ok(common) => Ok((common, chair)),
        Err(_) => Err(NoMemory),
    }
}

impl Purse {
    /// A user with the last handle, which is taken out, and with this chair. If there is no memory both are put back, so that a
    /// chair is cut off only for a user that is there.
    fn open_user(
        &mut self,
        alloc: Global,
        common: Arc<Common>,
        chair: Chair<Purse, Tree>,
    ) -> Result<Box<User>, Chair<Purse, Tree>>
        requires some { 0 < vec_len self.old.passes }
        requires seated { IsChairAtPurse (arc_value common) chair }
        requires passes { All (IsSparePass (arc_value common).tree) self.old.passes.items }
        ensures passes { All (IsSparePass (arc_value common).tree) self.new.passes.items }
        ensures other { IfOk result (λ other. common_of other.value ≡ arc_value common) }
        ensures chair { IfOk result (λ other. other.value.chair ≡ chair) }
        ensures rests { IfOk result (λ other. IsOnNoWalk other.value.walker) }
        ensures none { IfOk result (λ other. other.value.receipts ≡ no_receipts) }
        ensures out { IfOk result
            (λ other. known_in self.old ≡ known_in self.new ++ known_to other.value ∷ []) }
        ensures back { IfErr result (λ _. known_in self.new ≡ known_in self.old) }
        ensures chair_back { IfErr result (λ back. back ≡ chair) }
    {
        let Some(pass) = self.passes.pop() else {
            unreachable!()
        };
        let user = User {
            common,
            walker: Walker::new(pass),
            chair,
            receipts: Receipts::none(),
        };
        match Box::new(alloc, user) {
            Ok(other) => Ok(other),
            Err(AllocFailed { value }) => {
                let User { walker, chair, .. } = value;
                let Walker { pass, .. } = walker;
                self.passes.push_reserved(pass);
                Err(chair)
            }
        }
    }
}

impl User {
    /// Another chair at the purse. Both are then one cut further from the first one.
    fn another_chair(&mut self) -> Chair<Purse, Tree>
        ensures common { common_of self.new ≡ common_of self.old }
        ensures walker { self.new.walker ≡ self.old.walker }
        ensures receipts { self.new.receipts ≡ self.old.receipts }
        ensures cuts { cuts self.new ≡ cuts self.old + 1 }
        ensures seated { IsChairAtPurse (common_of self.old) result }
        ensures other_cuts { cuts_of result ≡ cuts self.new }
    {
        self.common.purse.chair(&mut self.chair)
    }
}

impl Common {
    /// A user beside another, with a handle of the purse.
    #[tactic(auto, using(crate::proofs::Using::of_purse, crate::proofs::Using::why_busy, crate::proofs::Using::why_short))]
    fn open_user(
        &self,
        alloc: Global,
        common: &Arc<Common>,
        chair: &mut Chair<Purse, Tree>,
    ) -> Result<(Box<User>, Given<Purse, Tree>), Unchanged>
        requires same { arc_value common.now ≡ self.now }
        requires seated { IsChairAtPurse self.now chair.old }
        ensures seated { IsChairAtPurse self.now chair.new }
        ensures other { IfOk result (λ r. common_of r.0.value ≡ self.now) }
        ensures pass { IfOk result (λ r. IsOfPurse self.now (cuts_of chair.old) r.0.value r.1) }
        ensures shared { IfOk result (λ _. cuts_of chair.new ≡ cuts_of chair.old + 2) }
        ensures why { IfErr result (IsWhy self.now (cuts_of chair.old)) }
        ensures unchanged { IfErr result (λ _. cuts_of chair.new ≡ cuts_of chair.old + 1) }
    {
        let mut taken = match self.take(chair) {
            Ok(taken) => taken,
            Err(busy) => return Err(Unchanged::Busy { busy }),
        };
        if taken.value.passes.is_empty() {
            return Err(Unchanged::NoPlace {
                given: self.give(taken),
            });
        }
        let Ok(common) = Arc::try_clone(common) else {
            return Err(Unchanged::NoMemory {
                given: self.give(taken),
            });
        };
        let own = std::mem::replace(chair, Badge::blank());
        let opened = taken.value.open_user(alloc, common, own);
        let given = self.give(taken);
        match opened {
            Ok(mut other) => {
                *chair = other.another_chair();
                Ok((other, given))
            }
            Err(own) => {
                *chair = own;
                Err(Unchanged::NoMemory { given })
            }
        }
    }

    /// Takes the purse, with room for one more handle.
    #[tactic(auto, using(crate::proofs::Using::why_busy, crate::proofs::Using::why_short))]
    fn take_room(&self, chair: &mut Chair<Purse, Tree>) -> Result<Taken<Purse, Tree>, Unchanged>
        requires { IsChairAtPurse self.now chair.old }
        ensures seated { IsChairAtPurse self.now chair.new }
        ensures cuts { cuts_of chair.new ≡ cuts_of chair.old + 1 }
        ensures taken { IfOk result (λ taken. HasPurse self.now taken.took taken.seat) }
        ensures taken_cuts { IfOk result (λ taken. taken.seat.me.0.cuts ≡ cuts_of chair.new) }
        ensures took { IfOk result (λ taken. known_in taken.took.value ≡ known_in taken.value) }
        ensures passes { IfOk result
            (λ taken. All (IsSparePass self.now.tree) taken.value.passes.items) }
        ensures room { IfOk result
            (λ taken. vec_len taken.value.passes + 1 ≤ vec_capacity taken.value.passes) }
        ensures why { IfErr result (IsWhy self.now (cuts_of chair.old)) }
        ensures place { IfErr result WantsNoPlace }
    {
        let mut taken = match self.take(chair) {
            Ok(taken) => taken,
            Err(busy) => return Err(Unchanged::Busy { busy }),
        };
        if taken.value.passes.reserve(1).is_err() {
            return Err(Unchanged::NoMemory {
                given: self.give(taken),
            });
        }
        Ok(taken)
    }

    /// Puts a handle into the purse, with no section open, and gives the purse back. The chair is then at its end.
    #[tactic(auto, using(crate::proofs::Using::has_left))]
    fn leave(
        &self,
        mut taken: Taken<Purse, Tree>,
        mut pass: Pass,
        chair: Chair<Purse, Tree>,
    ) -> Left
        requires cuts { taken.seat.me.0.cuts ≡ cuts_of chair }
        requires seated { IsChairAtPurse self.now chair }
        requires taken { HasPurse self.now taken.took taken.seat }
        requires took { known_in taken.took.value ≡ known_in taken.value }
        requires passes { All (IsSparePass self.now.tree) taken.value.passes.items }
        requires room { vec_len taken.value.passes + 1 ≤ vec_capacity taken.value.passes }
        requires pass { IsPassOf self.now.tree pass }
        ensures { HasLeft self.now
            (cuts_of chair) (record (pass_in pass) { standing = None }) result }
    {
        self.tree.halt(&mut pass, &mut Walk::new(0, 0));
        taken.value.passes.push_reserved(pass);
        let given = self.give(taken);
        Left { given, chair }
    }
}

/// A user with the last of these handles of a new tree. The others are in the purse.
pub fn first(alloc: Global, tree: Tree, passes: Vec<Pass>) -> Result<User, NoMemory>
    requires passes { All (IsSparePass tree) passes.items }
    requires some { 0 < vec_len passes }
    ensures tree { IfOk result (λ user. user_tree user ≡ tree) }
    ensures passes { IfOk result
        (λ user. passes.items ≡ (first_in (common_of user)).passes.items ++ user.walker.pass ∷ []) }
    ensures chair { IfOk result (λ user. cuts user ≡ 0) }
    ensures walk { IfOk result (λ user. user.walker.walk ≡ None) }
    ensures none { IfOk result (λ user. user.receipts ≡ no_receipts) }
{
    let mut passes = passes;
    let Some(pass) = passes.pop() else {
        unreachable!()
    };
    let (common, chair) = shared(alloc, tree, passes)?;
    Ok(User {
        common,
        walker: Walker::new(pass),
        chair,
        receipts: Receipts::none(),
    })
}

impl User {
    /// The first user of a new tree of this shape. The other handles are in the purse.
    ///
    /// # Errors
    ///
    /// `BadShape` with the first field that is out of range; `NoMemory` where memory ran out.
    pub fn open(alloc: Global, shape: Shape) -> Result<User, MakeError>
        ensures bad { (field : Field)
            → result ≡ Err (make_error.BadShape field) → first_bad shape ≡ Some field }
        ensures good { IfOk result (λ _. first_bad shape ≡ None) }
        ensures short { result ≡ Err make_error.NoMemory → first_bad shape ≡ None }
        ensures first { IfOk result (IsFirstUser shape []) }
    {
        let (tree, passes) = match Tree::make(alloc, shape) {
            Ok(made) => made,
            Err(why) => return Err(why),
        };
        match first(alloc, tree, passes) {
            Ok(user) => Ok(user),
            Err(_) => Err(MakeError::NoMemory),
        }
    }

    /// Opens another user of the same tree, with a handle of the purse.
    ///
    /// # Errors
    ///
    /// `Busy` if another user has the purse; `NoPlace` if it is empty; `NoMemory` if memory ran out.
    pub fn share(&mut self, alloc: Global) -> Result<(Box<User>, Given<Purse, Tree>), Unchanged>
        ensures common { common_of self.new ≡ common_of self.old }
        ensures walker { self.new.walker ≡ self.old.walker }
        ensures receipts { self.new.receipts ≡ self.old.receipts }
        ensures other { IfOk result (λ r. common_of r.0.value ≡ common_of self.old) }
        ensures pass { IfOk result
            (λ r. IsOfPurse (common_of self.old) (cuts self.old) r.0.value r.1) }
        ensures shared { IfOk result (λ _. cuts self.new ≡ cuts self.old + 2) }
        ensures why { IfErr result (IsWhy (common_of self.old) (cuts self.old)) }
        ensures unchanged { IfErr result (λ _. cuts self.new ≡ cuts self.old + 1) }
    {
        self.common.open_user(alloc, &self.common, &mut self.chair)
    }

    /// Takes the purse, with room for one more handle.
    ///
    /// # Errors
    ///
    /// `Busy` if another user has the purse; `NoMemory` if memory ran out.
    fn take_purse(&mut self) -> Result<Taken<Purse, Tree>, Unchanged>
        ensures common { common_of self.new ≡ common_of self.old }
        ensures walker { self.new.walker ≡ self.old.walker }
        ensures receipts { self.new.receipts ≡ self.old.receipts }
        ensures chair { cuts self.new ≡ cuts self.old + 1 }
        ensures taken { IfOk result (λ taken. HasPurse (common_of self.old) taken.took taken.seat) }
        ensures taken_cuts { IfOk result (λ taken. taken.seat.me.0.cuts ≡ cuts self.new) }
        ensures took { IfOk result (λ taken. known_in taken.took.value ≡ known_in taken.value) }
        ensures passes { IfOk result
            (λ taken. All (IsSparePass (common_of self.old).tree) taken.value.passes.items) }
        ensures room { IfOk result
            (λ taken. vec_len taken.value.passes + 1 ≤ vec_capacity taken.value.passes) }
        ensures why { IfErr result (IsWhy (common_of self.old) (cuts self.old)) }
        ensures place { IfErr result WantsNoPlace }
    {
        self.common.take_room(&mut self.chair)
    }

    /// Leaves its handle in the purse.
    fn leave_to(self, taken: Taken<Purse, Tree>) -> Left
        requires taken { HasPurse (common_of self) taken.took taken.seat }
        requires cuts { taken.seat.me.0.cuts ≡ cuts self }
        requires took { known_in taken.took.value ≡ known_in taken.value }
        requires passes { All (IsSparePass (common_of self).tree) taken.value.passes.items }
        requires room { vec_len taken.value.passes + 1 ≤ vec_capacity taken.value.passes }
        ensures { HasLeft (common_of self) (cuts self) (rested self) result }
    {
        let User {
            common,
            walker,
            chair,
            ..
        } = self;
        let Walker { pass, .. } = walker;
        common.leave(taken, pass, chair)
    }

    /// Closes a user, and leaves its handle in the purse.
    ///
    /// # Errors
    ///
    /// `Busy` if another user has the purse; `NoMemory` if memory ran out. The user is returned, its walk paused.
    #[tactic(auto, using(crate::proofs::Using::took_still))]
    pub fn leave(user: Box<User>) -> Result<Left, (Box<User>, Unchanged)>
        ensures left { IfOk result
            (HasLeft (common_of user.value) (cuts user.value + 1) (rested user.value)) }
        ensures common { IfErr result (λ r. common_of r.0.value ≡ common_of user.value) }
        ensures chair { IfErr result (λ r. cuts r.0.value ≡ cuts user.value + 1) }
        ensures known { IfErr result (λ r. known_to r.0.value ≡ paused user.value) }
        ensures took { IfErr result (λ r. Took 0 user.value.walker r.0.value.walker.pass) }
        ensures receipts { IfErr result (λ r. r.0.value.receipts ≡ user.value.receipts) }
        ensures why { IfErr result (λ r. IsWhy (common_of user.value) (cuts user.value) r.1) }
        ensures place { IfErr result (λ r. WantsNoPlace r.1) }
    {
        let mut user = user;
        user.pause();
        match user.take_purse() {
            Ok(taken) => Ok(Box::into_inner(user).leave_to(taken)),
            Err(why) => Err((user, why)),
        }
    }
}
