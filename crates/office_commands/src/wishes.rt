// The wishes of a plan.
ghost use Rattle.std.specs.Prelude.{◌≡◌};
ghost use Rattle.std.specs.List.{AllByRecursion};
ghost use Rattle.office_commands.specs.Asked.{HasDigest};

use fuse_plan::{Want, Wish};
use std::marker::Model;

/// The wishes of a plan, in the order in which they were asked for. Clauses see them as a list.
#[derive(Drop)]
pub struct Wishes {
    wishes: Vec<Wish>,
}

impl Model for Wishes {
    ghost use Rattle.std.specs.Prelude.{List};
    ghost use Rattle.fuse_plan.specs.declared.wish.Wish.{Wish};

    ghost Value = { List Wish };

    ghost view = { λ w. w.wishes.items };
}

impl Wishes {
    /// These wishes.
    pub fn new(wishes: Vec<Wish>) -> Wishes
        ensures { result ≡ wishes.items }
    {
        Wishes { wishes }
    }

    /// A fact: the keys that are wished for are named by digests of 32 bytes. Nothing happens.
    pub fn fact_digests(&self)
        ensures { AllByRecursion (λ w. HasDigest w.want) self.now }
    {
        let wishes = self.as_slice();
        for wish in wishes {
            fact_digest(wish.want);
        }
    }

    /// The wishes in turn.
    pub fn as_slice(&self) -> &[Wish]
        ensures { result.now ≡ self.now }
    {
        self.wishes.as_slice()
    }
}

/// A fact: a key that is wished for is named by a digest of 32 bytes. Nothing happens.
fn fact_digest(want: Want)
    ensures { HasDigest want }
{
    if let Want::Key(digest) = want {
        let _bytes = digest.as_bytes();
    }
}
