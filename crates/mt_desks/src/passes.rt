//! The passes (threads' handles) of a shared tree, as lanes have them.

ghost use Rattle.mt_rule.specs.Tokens.{pass_in, steps_made};

use crate::shared::Passage;
use mt_rule::Pass;

impl Passage for Pass {
    ghost knows = { pass_in };

    ghost steps = { steps_made };

    fn number(&self) -> u32 {
        Pass::number(self)
    }

    fn away() -> Self {
        Pass::away()
    }
}
