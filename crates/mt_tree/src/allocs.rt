//! A locked tree gives single indexes, for who draws numbers from it.

ghost use Rattle.std.specs.Prelude.{◌≡◌, refl};
ghost use Rattle.std.proofs.Common.{◌∙◌};
ghost use Rattle.mt_rule.specs.Tokens.{pass_in};
ghost use Rattle.mt_tree.specs.Allocations.{allocation_of};
ghost use Rattle.mt_tree.specs.Calls.{HasCalled, calls_none, calls_on};

use crate::behind::WriterState;
use crate::locked::Locked;
use mt_base::{Call, Reply};
use mt_ids::Allocs;
use mt_rule::Taken;

impl<'a> Allocs for Locked<'a, Taken<WriterState>> {
    ghost sheet = { λ w. allocation_of w.tree.now (pass_in w.pass.now) };

    // The tree is the same, and so is the pass, which has made all calls that it has seen since.
    ghost stays = { λ v w. (w.pass.ghost_name ≡ v.pass.ghost_name) × (w.tree ≡ v.tree) × HasCalled (pass_in v.pass.now) (pass_in w.pass.now) };

    fn alloc_one(&mut self, min: u64, max: u64, entry: u64) -> Result<Reply, u64> {
        let call = Call::Alloc {
            size: 1,
            min,
            max,
            entry,
        };
        match self.act(&call) {
            Ok(done) => Ok(done.reply),
            Err(worn) => Err(worn.calls),
        }
    }

    ghost itself = { λ v. (refl, refl, calls_none (pass_in v.pass.now)) };

    ghost onward = { λ u v w a b. (b.0 ∙ a.0, b.1 ∙ a.1, calls_on (pass_in u.pass.now) (pass_in v.pass.now) (pass_in w.pass.now) a.2 b.2) };
}
