//! The machine that runs the program: TCP, and its clock.
use crate::outside::Outside;
use crate::watching::WatchingClock;
use sockets::send_at_once;
use std::alloc::AllocError;
use std::fs::Files;
use std::net::{Net, SocketAddr, SocketAddrV4, TcpListener, TcpStream};
use std::time;

/// TCP sockets and the clock of the machine that runs the program. No clause says what they give.
#[derive(Clone, Copy)]
pub struct Machine<'a, R> {
    /// The machine.
    pub rt: &'a R,
}

impl<
    'a,
    R: time::Clock + Files + AllocGlobal + Eprint + Net<Listener = TcpListener, Stream = TcpStream>,
> Outside for Machine<'a, R> {
    ghost use Rattle.std.specs.Prelude.{⊤};

    type Listener = TcpListener;

    type Clock = WatchingClock<'a, R>;

    ghost listens = { λ _ _. ⊤ };

    ghost begins = { λ _. ⊤ };

    fn listen(self, address: SocketAddrV4) -> Result<TcpListener, Self> {
        let Ok(listener) = TcpListener::bind(self.rt, SocketAddr::V4(address)) else {
            return Err(self);
        };
        match send_at_once(&listener) {
            Ok(()) => Ok(listener),
            Err(_) => Err(self),
        }
    }

    fn clock(&self, file: &str) -> Result<WatchingClock<'a, R>, AllocError> {
        WatchingClock::new(self.rt, file)
    }
}
