//! Pipes that items can be put into.
ghost use Rattle.std.specs.Prelude.{◌≡◌, List, Bool};
ghost use Rattle.mwc_pipe.specs.Refusal.{PutsIn};

use crate::step::Refused;

/// A pipe that items can be put into.
///
/// Contracts see the items that it accepted, whether it is broken, and which pipe it is, and
/// nothing else.
pub trait PipeIn<T> {
    /// The type of what identifies a pipe.
    ghost Identity: { Type 0 };

    /// Which pipe it is.
    ghost identity: { Self → Identity };

    /// The items that were accepted, oldest first.
    ghost accepted: { Self → List T };

    /// Whether a put was refused for good.
    ghost broken: { Self → Bool };

    /// Puts an item in, after all others.
    ///
    /// No put changes which pipe it is.
    ///
    /// # Errors
    ///
    /// Hands the item back, and leaves what was accepted. Closed and Memory break the pipe for
    /// good; after Full a later put may succeed.
    fn put(&mut self, item: T) -> Result<(), Refused<T>>
        ensures identity { identity self.new ≡ identity self.old }
        ensures put { PutsIn item (accepted self.old) (broken self.old) result
            (accepted self.new) (broken self.new) };
}
