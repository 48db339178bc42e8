//! What a service takes from outside: where it listens, and its clock.
ghost use Rattle.std.specs.Prelude.{◌≡◌, IfErr, IfOk};
ghost use Rattle.std.specs.declared.net.socket_addr.SocketAddrV4.{SocketAddrV4};

use office::Clock;
use sockets::Listener;
use std::alloc::AllocError;
use std::net::SocketAddrV4;

/// Where a service listens, and its clock. `Machine` is the one of the program.
pub trait Outside: Sized {
    /// The listener.
    type Listener: Listener;

    /// The clock.
    type Clock: Clock + Drop;

    /// The listener listens at the address, and nothing has come.
    ghost listens: { SocketAddrV4 → Self.Listener → Type 0 };

    /// The clock was just made.
    ghost begins: { Self.Clock → Type 0 };

    /// Listens at the address. What is outside is used up, so there is one listener at most. The error gives it back.
    fn listen(self, address: SocketAddrV4) -> Result<Self::Listener, Self>
        ensures listens { IfOk result (listens address) }
        ensures same { IfErr result (λ outside. outside ≡ self) };

    /// The clock of a service over the office file of this name, which the program has just opened. The error means that memory
    /// was refused.
    fn clock(&self, file: &str) -> Result<Self::Clock, AllocError>
        ensures { IfOk result begins };
}
