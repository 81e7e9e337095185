ghost use Rattle.std.specs.Prelude.{Option, IfSome};
ghost use Rattle.ov_workers.specs.LinkStates.{IsNewLink, ends_of};
ghost use Rattle.ov_workers.specs.declared.link.Link.{Link as SpecLink};

use crate::link::Link;
use ov_ends::{Sink, Source};

/// Gives connections, one after another.
pub trait Listen<S: Source, W: Sink> {
    /// The listener before, its answer, which is a link or that there are no more, and the listener after.
    ghost gives: { Self → Option (SpecLink S W) → Self → Type 0 };

    /// The two ends of the next connection, once there is one. Nothing was read from it or written to it. None if there are
    /// no more; the listener is then dropped.
    fn accept(&mut self) -> Option<Link<S, W>>
        ensures gives { gives self.old result self.new }
        ensures unused { IfSome result
            (λ link. IsNewLink (ends_of S.Source W.Sink link.reader link.writer)) };
}
