//! Boxes in lists whose reading is stable.

ghost use Rattle.std.specs.Prelude.{◌≡◌, IsTrue, Ok, length};
ghost use Rattle.mp4_frame.specs.Members.{held_inside};
ghost use Rattle.mp4_compose.specs.Kept.{IsWrittenIn};
ghost use Rattle.mp4_compose.specs.MemberLaws.{stable_member, code_of_member};
ghost use Rattle.mp4_compose.specs.Stable.{ReadsStably, ReadsOwnCode};

use mp4_frame::{BoxEnum, BoxType, StreamBox};

/// A box in lists whose reading is stable: a value that was read is its own normal form.
pub trait StableBox: StreamBox {
    /// Returns `true` only if the box is written in exactly the bytes `bytes`, in which it was read under the name
    /// `name`. The function takes no memory. `false` decides nothing, and a type may always return it.
    fn is_kept_in(&self, name: BoxType, bytes: &[u8]) -> bool
        requires { (Self.named_reading name bytes.now 0 (length bytes.now)).outcome ≡ Ok self.now }
        ensures { IsTrue result → IsWrittenIn Self.format bytes.now self.now }
    {
        let _name = name;
        let _unread = bytes;
        false
    }

    /// The proof that a value read under a known name is its own normal form, and can be written unless it is too
    /// large.
    ghost stable: { ReadsStably Self.known Self.named_reading Self.format };

    /// The proof that a value read under a known name has the code of that name.
    ghost own_code: { ReadsOwnCode Self.known Self.named_reading Self.format };
}

impl<E: BoxEnum> StableBox for E {
    ghost stable = { stable_member E.kinds (held_inside E.inside) E.members E.named };

    ghost own_code = { code_of_member E.kinds (held_inside E.inside) E.named };
}
