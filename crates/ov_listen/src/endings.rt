//! How the program ends when it serves at an address, by what it met there.

ghost use Rattle.std.specs.Prelude.{◌≡◌};
ghost use Rattle.ov_listen.specs.Endings.{by_listening, by_serving};

use ov_lanes::ServeFault;
use ov_sockets::ListenFault;
use ov_words::Ending;

/// How the program ends if there are no connections.
pub fn ending_of_listening(fault: ListenFault) -> Ending
    ensures { result ≡ by_listening fault }
{
    match fault {
        ListenFault::Refused => Ending::Streams,
        ListenFault::Memory => Ending::Memory,
    }
}

/// How the program ends if connections are not served.
pub fn ending_of_serving(fault: ServeFault) -> Ending
    ensures { result ≡ by_serving fault }
{
    match fault {
        ServeFault::Threads | ServeFault::TooMany => Ending::Streams,
        ServeFault::Memory => Ending::Memory,
    }
}
