ghost use Rattle.std.specs.Prelude.{◌≡◌, ◌+◌, ◌<◌, ◌≤◌, None, false, length};
ghost use Rattle.rtrb.specs.Ring.{sent, known_free};

use ov_core::{Cause, Session};
use ov_order::{Brought, Sent};
use ov_rpc::Received;
use ov_workers::ReadCause;
use rtrb::{Consumer, Producer};

/// The desk's ends of one session's rings. The outbound ring always has room for the end mark.
#[derive(Drop)]
pub struct Lane {
    /// The session whose rings they are.
    pub session: Session,
    /// What its reader brings.
    pub inbound: Consumer<Brought<Received, ReadCause>>,
    /// What its writer is sent.
    pub outbound: Producer<Sent>,
    /// Why the session was closed, if that is known.
    pub cause: Option<Cause>,
    /// Whether the reader's end was taken.
    pub ended: bool,
    /// Whether the end mark was put.
    pub marked: bool,
    /// Whether something was put since its writer was last woken.
    pub news: bool,
    ghost room: { marked ≡ false → 0 < known_free outbound },
    ghost places: { 1025 ≤ known_free outbound + length (sent outbound) },
}

impl Lane {
    /// The lane of a session whose rings are new. The outbound ring has 1,025 places: for 1,024 frames and the end mark.
    pub fn new(
        session: Session,
        inbound: Consumer<Brought<Received, ReadCause>>,
        outbound: Producer<Sent>,
    ) -> Lane
        requires { known_free outbound ≡ 1025 }
        ensures rings { (result.inbound ≡ inbound) × (result.outbound ≡ outbound) }
        ensures session { result.session ≡ session }
        ensures nothing { (result.cause ≡ None) × (result.ended ≡ false) × (result.marked ≡ false) }
    {
        Lane {
            session,
            inbound,
            outbound,
            cause: None,
            ended: false,
            marked: false,
            news: false,
        }
    }
}
