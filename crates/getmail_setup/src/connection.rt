//! The connection to the server: over TCP, or to a Unix socket on which a tunnel listens.
ghost use Rattle.std.specs.{
  Prelude.{◌≡◌, ◌⊎◌, ◌↔◌, ℕ, List, IfErr, IfNone, IfOk, IfSome, IsFalse, None, OnErr, OnOk, Some, false, true, length},
  Prelude.if◌then◌else◌,
  Duration.as_nanos,
  List.AllWithin,
  Net.Socket.socket_ip,
  String.string_bytes,
  declared.net.{ip_addr.IpAddr.IpAddr, socket_addr.SocketAddr.SocketAddr},
};
ghost use Rattle.trace.specs.Wire.{IsTraced};
ghost use Rattle.getmail_setup.specs.{
  Connecting.{HasLimits, IsCanonical, IsLoopback, IsUnconnected, Refuses, TakesFirst, connect_limit},
  Places.{account_name, is_local, is_socket, peer_name},
};

use crate::errors::Errors;
use crate::failure::{Failure, failure_of};
use fetch_rules::Settings;
use pop3_wire::StreamWire;
use std::alloc::{AllocError, Global};
use std::io::{self, Stderr};
use std::net::{Net, SocketAddr, TcpStream, ToSocketAddrs};
use std::os::fd::OwnedFd;
use std::os::unix::net::UnixStream;
use std::time::Duration;
use system_calls::{Noted, Refusals};
use trace::TracedWire;

/// How long one address of the server has to take the connection.
const CONNECT_SECONDS: u64 = 60;

/// How long a read or a write may wait. One that takes longer fails and ends the session, so no wait
/// lasts for ever.
const WAIT_SECONDS: u64 = 180;

/// Why a read or a write failed that waited as long.
pub const SILENT: &str = "silent for 180 seconds";

/// One end of a connection, whose refused calls are noted.
type End<'a> = Noted<'a, &'a TcpStream>;

/// The link over a connection.
pub type Link<'a> = TracedWire<'a, StreamWire<End<'a>, End<'a>>, Stderr>;

/// A stream whose waits can be limited.
trait LimitWaits {
    // Each of its reads waits for so many nanoseconds at most.
    ghost limits_reads: { Self → ℕ → Type 0 };

    // Each of its writes does.
    ghost limits_writes: { Self → ℕ → Type 0 };

    // A limit was refused.
    ghost is_refused: { Self → Type 0 };

    fn limit_reads(&self, wait: Duration) -> io::Result<()>
        ensures ok { OnOk result (limits_reads self.now (as_nanos wait)) }
        ensures err { OnErr result (is_refused self.now) };

    fn limit_writes(&self, wait: Duration) -> io::Result<()>
        ensures ok { OnOk result (limits_writes self.now (as_nanos wait)) }
        ensures err { OnErr result (is_refused self.now) };
}

impl LimitWaits for TcpStream {
    ghost limits_reads = { λ _ _. Unit {0} };

    ghost limits_writes = { λ _ _. Unit {0} };

    ghost is_refused = { λ _. Unit {0} };

    fn limit_reads(&self, wait: Duration) -> io::Result<()> {
        self.set_read_timeout(Some(wait))
    }

    fn limit_writes(&self, wait: Duration) -> io::Result<()> {
        self.set_write_timeout(Some(wait))
    }
}

/// One that knows the addresses of servers, and connects to addresses.
trait Dial {
    type Stream: LimitWaits + Drop;

    // It said that a server of this name, at this port, has these addresses.
    ghost named: { Self → List ℕ → ℕ → List SocketAddr → Type 0 };

    // It knows none of that server.
    ghost unnamed: { Self → List ℕ → ℕ → Type 0 };

    // An address took this connection, which had so many nanoseconds for it.
    ghost took: { Self → SocketAddr → ℕ → Self.Stream → Type 0 };

    // It took none.
    ghost refused: { Self → SocketAddr → ℕ → Type 0 };

    /// The addresses of a server, in the order in which they are to be tried.
    fn addresses(&self, server: &str, port: u16) -> io::Result<Vec<SocketAddr>>
        ensures ok { IfOk result (λ addresses. named self.now server.now port addresses.items) }
        ensures err { IfErr result (λ _. unnamed self.now server.now port) };

    fn dial(&self, address: SocketAddr, limit: Duration) -> io::Result<Self::Stream>
        ensures ok { IfOk result (took self.now address (as_nanos limit)) }
        ensures err { IfErr result (λ _. refused self.now address (as_nanos limit)) };

    // The socket at a path took this connection.
    ghost took_path: { Self → List ℕ → Self.Stream → Type 0 };

    // It took none.
    ghost refused_path: { Self → List ℕ → Type 0 };

    fn dial_path(&self, path: &str) -> io::Result<Self::Stream>
        ensures ok { IfOk result (took_path self.now path.now) }
        ensures err { IfErr result (λ _. refused_path self.now path.now) };

    /// Notes why an address isn't taken.
    fn note(&self, address: SocketAddr, error: io::Error);
}

/// A machine's network, and where it is noted why an address isn't taken.
#[derive(Drop)]
struct Network<'a, R> {
    rt: &'a R,
    refusals: &'a Refusals,
}

impl<'a, R: Net<Stream = TcpStream> + AllocGlobal> Dial for Network<'a, R> {
    type Stream = TcpStream;

    ghost named = { λ _ _ _ _. Unit {0} };

    ghost unnamed = { λ _ _ _. Unit {0} };

    ghost took = { λ _ _ _ _. Unit {0} };

    ghost refused = { λ _ _ _. Unit {0} };

    ghost took_path = { λ _ _ _. Unit {0} };

    ghost refused_path = { λ _ _. Unit {0} };

    fn addresses(&self, server: &str, port: u16) -> io::Result<Vec<SocketAddr>> {
        let found = (server, port).to_socket_addrs(self.rt);
        let found = self.refusals.noted("getaddrinfo", server, found)?;
        Ok(found.collect(self.rt.alloc())?)
    }

    /// Each command goes out at once.
    fn dial(&self, address: SocketAddr, limit: Duration) -> io::Result<TcpStream> {
        let stream = TcpStream::connect_timeout(self.rt, &address, limit)?;
        stream.set_nodelay(true)?;
        Ok(stream)
    }

    /// What reads and writes a stream is the same for either kind.
    fn dial_path(&self, path: &str) -> io::Result<TcpStream> {
        let stream = UnixStream::connect(self.rt, path)?;
        Ok(TcpStream::from(OwnedFd::from(stream)))
    }

    /// Without memory it isn't noted.
    fn note(&self, address: SocketAddr, error: io::Error) {
        if let Ok(address) = format!(in self.rt.alloc(); "{address}") {
            let _ = self
                .refusals
                .noted("connect", address.as_str(), Err::<(), io::Error>(error));
        }
    }
}

/// Limits how long reads and writes of a stream wait.
fn with_limits<S: LimitWaits + Drop>(stream: S) -> io::Result<S>
    ensures ok { IfOk result (λ ready. (ready ≡ stream) × HasLimits S.limits_reads S.limits_writes stream) }
    ensures err { IfErr result (λ _. S.is_refused stream) }
{
    let wait = Duration::from_secs(WAIT_SECONDS);
    stream.limit_reads(wait)?;
    stream.limit_writes(wait)?;
    Ok(stream)
}

/// Connects to one address.
fn connect_to<D: Dial>(net: &D, address: SocketAddr) -> io::Result<D::Stream>
    ensures ok { IfOk result (λ stream. D.took net.now address connect_limit stream
        × HasLimits D.Stream.limits_reads D.Stream.limits_writes stream) }
    ensures err { IfErr result (λ _. Refuses (D.refused net.now) (D.took net.now) D.Stream.is_refused address) }
{
    with_limits(net.dial(address, Duration::from_secs(CONNECT_SECONDS))?)
}

/// Connects to the first of some addresses that takes the connection, and says which it is.
fn connect_to_first<D: Dial>(net: &D, addresses: &[SocketAddr]) -> Option<(D::Stream, SocketAddr)>
    ensures some { IfSome result (λ taken. TakesFirst
        (λ address stream. D.took net.now address connect_limit stream
        × HasLimits D.Stream.limits_reads D.Stream.limits_writes stream)
        (Refuses (D.refused net.now) (D.took net.now) D.Stream.is_refused) addresses.now taken.0 taken.1) }
    ensures none { IfNone result (AllWithin (Refuses (D.refused net.now) (D.took net.now) D.Stream.is_refused)
        addresses.now 0 (length addresses.now)) }
{
    for address in addresses {
        match connect_to(net, *address) {
            Ok(stream) => return Some((stream, *address)),
            Err(error) => net.note(*address, error),
        }
    }
    None
}

/// Connects to the first of a server's addresses that takes the connection, and says which it is.
fn connect_over_tcp<'a, D: Dial>(
    net: &D,
    server: &'a str,
    port: u16,
) -> Result<(D::Stream, SocketAddr), Failure<'a>>
    ensures ok { IfOk result (λ taken. (addresses : List SocketAddr) × D.named net.now server.now port addresses
        × TakesFirst (λ address stream. D.took net.now address connect_limit stream
        × HasLimits D.Stream.limits_reads D.Stream.limits_writes stream)
        (Refuses (D.refused net.now) (D.took net.now) D.Stream.is_refused) addresses taken.0 taken.1) }
    ensures err { IfErr result (IsUnconnected (D.named net.now server.now port) (D.unnamed net.now server.now port)
        (Refuses (D.refused net.now) (D.took net.now) D.Stream.is_refused) (Failure.CannotConnect server.entry port)) }
{
    let addresses = match net.addresses(server, port) {
        Ok(addresses) => addresses,
        Err(error) => return Err(failure_of(error, Failure::CannotConnect(server, port))),
    };
    match connect_to_first(net, addresses.as_slice()) {
        Some(taken) => Ok(taken),
        None => Err(Failure::CannotConnect(server, port)),
    }
}

/// Connects to a socket.
fn connect_to_socket<D: Dial>(net: &D, path: &str) -> io::Result<D::Stream>
    ensures ok { IfOk result (λ stream. D.took_path net.now path.now stream
        × HasLimits D.Stream.limits_reads D.Stream.limits_writes stream) }
    ensures err { IfErr result (λ _. D.refused_path net.now path.now
        ⊎ ((stream : D.Stream) × D.took_path net.now path.now stream × D.Stream.is_refused stream)) }
{
    with_limits(net.dial_path(path)?)
}

/// Whether a server is the absolute path of a socket.
pub fn is_socket(server: &str) -> bool
    ensures { result ≡ is_socket server.now }
{
    server.as_bytes().starts_with(b"/")
}

/// Whether a server is on this machine, as a tunnel is: a socket's path, or a loopback address.
pub fn is_near(server: &str) -> bool
    ensures { result ≡ is_local server.now }
{
    is_socket(server)
        || server.as_bytes().starts_with(b"127.")
        || server == "localhost"
        || server == "::1"
}

/// A connection to the server.
#[derive(Drop)]
pub struct Connection {
    pub stream: TcpStream,
    /// Whether what is sent over it leaves this machine.
    pub leaves: bool,
}

/// Connects to the server's socket, or to the first of its addresses that takes the connection.
pub fn connect<'a, R: Net<Stream = TcpStream> + AllocGlobal>(
    rt: &R,
    refusals: &Refusals,
    server: &'a str,
    port: u16,
) -> Result<Connection, Failure<'a>>
    ensures near { is_socket server.now ≡ true → IfOk result (λ connection. connection.leaves ≡ false) }
    ensures err { IfErr result (λ failure.
        (failure ≡ Failure.NoMemory) ⊎ (failure ≡ Failure.CannotConnect server.entry port)) }
{
    let net = Network { rt, refusals };
    if !is_socket(server) {
        return match connect_over_tcp(&net, server, port) {
            Ok((stream, address)) => Ok(Connection {
                stream,
                leaves: leaves(&address),
            }),
            Err(failure) => Err(failure),
        };
    }
    match refusals.noted("connect", server, connect_to_socket(&net, server)) {
        Ok(stream) => Ok(Connection {
            stream,
            leaves: false,
        }),
        Err(error) => Err(failure_of(error, Failure::CannotConnect(server, port))),
    }
}

/// Whether what is sent to an address leaves this machine.
fn leaves(address: &SocketAddr) -> bool
    ensures { (ip : IpAddr) × IsCanonical (socket_ip address.now) ip × (IsFalse result ↔ IsLoopback ip) }
{
    !address.ip().to_canonical().is_loopback()
}

/// What the link needs besides the connection: the peer's name in a trace, and the password that it hides.
#[derive(Drop)]
pub struct Peer {
    name: String,
    password: Vec<u8>,
}

/// The peer's name: a socket's path, or an address with its port.
fn peer_name(alloc: Global, server: &str, port: u16) -> Result<String, AllocError>
    ensures { IfOk result (λ name. string_bytes name ≡ peer_name server.now port) }
{
    if is_socket(server) {
        return String::from_str(alloc, server);
    }
    format!(in alloc; "{server}:{port}")
}

/// What an account is called in the lines about it.
pub fn account_name(alloc: Global, settings: &Settings) -> Result<String, AllocError>
    ensures { IfOk result (λ name. string_bytes name ≡ account_name settings.now) }
{
    let peer = peer_name(alloc, settings.server.as_str(), settings.port)?;
    let username = settings.username.as_str();
    format!(in alloc; "{username}@{peer}")
}

/// What the link needs. It is made before there is a connection, so that want of memory doesn't end one.
pub fn peer_of(alloc: Global, settings: &Settings) -> Result<Peer, AllocError>
    ensures name { IfOk result (λ peer. string_bytes peer.name
        ≡ peer_name (string_bytes settings.now.server) settings.now.port) }
    ensures password { IfOk result (λ peer. peer.password.items ≡ string_bytes settings.now.password) }
{
    let server = settings.server.as_str();
    let port = settings.port;
    Ok(Peer {
        name: peer_name(alloc, server, port)?,
        password: Vec::from_slice(alloc, settings.password.as_bytes())?,
    })
}

/// The link over a connection to the server. Its conversation is shown if there is a trace, and what was said
/// is kept if reasons are written; neither has the password.
pub fn link_over<'a, E>(
    alloc: Global,
    stream: &'a TcpStream,
    peer: Peer,
    errors: &Errors<'a, E>,
) -> Link<'a>
    ensures { IsTraced errors.now.reasons.now.link.trace.lines
        (if errors.now.says_why then Some errors.now.reasons.now.talk else None) (Some peer.password.items) result }
{
    let reasons = errors.reasons;
    let Peer { name, password } = peer;
    let name = name.as_str();
    let wire = StreamWire::new(
        Noted::new(alloc, stream, name, &reasons.link),
        Noted::new(alloc, stream, name, &reasons.link),
    );
    let talk = if errors.says_why {
        Some(&reasons.talk)
    } else {
        None
    };
    TracedWire::new(alloc, wire, reasons.link.trace(), Some(password), talk)
}
