//! Serves standard input and output, or TCP connections one after the other.
ghost use Rattle.std.specs.{Prelude.{◌≡◌, ◌⊎◌, true, IfOk, IfErr}, String.string_bytes};
ghost use Rattle.pop3_server.specs.ServerMachine.{is_open};
ghost use Rattle.popd_program.specs.{Account.IsCopy, Failures.TellsUnsafe, Texts.client_name, Visits.removals_by};

use crate::account::{Account, check_maildir};
use crate::failure::{Failure, failure_of, tell};
use crate::telling::{Peer, Telling, tell_listening};
use crate::visit::{Quit, Visit, serve_account};
use crate::waits::{BoundedStream, HoldingJournal, LoginJournal, Pause, may_be_connection};
use crate::warning::{Warning, warn, warn_of_network};
use crate::words::Words;
use folder_drop::MaildirDrop;
use pop3_server::{Maildrop, Server, ServerFault, serve_and_note};
use pop3_wire::StreamWire;
use std::io::{ErrorKind, Read, Stderr, Write};
use std::net::{Net, TcpListener, TcpStream};
use std::random::RandomSource;
use std::rt::{Clock, Env, Files};
use std::thread;
use std::time::Duration;
use system_calls::{Noted, System};
use trace::TracedWire;

/// How long the server waits after a connection that couldn't be accepted: without a free descriptor,
/// the next one can't be accepted at once either.
const PAUSE_SECONDS: u64 = 1;

/// Why a text is no address to listen on.
const NO_ADDRESS: &str = "an address is HOST:PORT, such as 127.0.0.1:1100";

const STANDARD_INPUT: &str = "standard input";

const STANDARD_OUTPUT: &str = "standard output";

/// A link over two named streams, which is traced.
fn link_over<'s, R: AllocGlobal, I, O>(
    system: &System<'s, R>,
    input: (I, &str),
    output: (O, &str),
) -> TracedWire<'s, StreamWire<Noted<'s, I>, Noted<'s, O>>, Stderr>
where
    I: Read + Drop,
    O: Write + Drop,
    ensures reader { result.wire.reader.inner ≡ input.entry.0 }
    ensures writer { result.wire.writer.inner ≡ output.entry.0 }
{
    let (alloc, refusals) = (system.alloc(), system.refusals);
    let reader = Noted::new(alloc, input.0, input.1, refusals);
    let writer = Noted::new(alloc, output.0, output.1, refusals);
    let link = StreamWire::new(reader, writer);
    TracedWire::new(alloc, link, refusals.trace(), None, None)
}

/// Serves standard input and output, and tells what happens there. Nothing is removed unless the session came to QUIT.
pub fn serve_streams<R, I, O, D>(
    system: &System<'_, R>,
    server: &mut Server<D>,
    mut telling: Telling<'_, R>,
    streams: (I, O),
) -> Result<(), ServerFault>
where
    R: AllocGlobal + Eprint + Drop,
    I: Read + Drop,
    O: Write + Drop,
    D: Maildrop + Drop,
    requires { is_open server.old.state ≡ true }
    ensures { is_open server.new.state ≡ true → (D.mail server.new.drop).removals ≡ (D.mail server.old.drop).removals }
{
    let (input, output) = ((streams.0, STANDARD_INPUT), (streams.1, STANDARD_OUTPUT));
    let mut wire = link_over(system, input, output);
    serve_and_note(server, &mut wire, &mut telling)
}

/// Serves the account's Maildir over standard input and output, and tells what happens there. Nothing is removed unless
/// the session came to QUIT.
pub fn serve_maildir<'a, R, I, O>(
    system: &System<'_, R>,
    account: Account,
    mut telling: Telling<'_, R>,
    streams: (I, O),
    maildir: MaildirDrop<'a, R>,
) -> Visit<'a, R>
where
    R: Files + Env + Clock + RandomSource + AllocGlobal + Eprint + Clone + Drop,
    I: Read + Drop,
    O: Write + Drop,
    ensures { result.maildir.removals ≡ removals_by result.quit maildir.entry.removals }
{
    let mut journal = HoldingJournal {
        rt: system.rt,
        journal: &mut telling,
        is_connection: may_be_connection(system.rt),
        pause: Pause::first(),
    };
    let (input, output) = ((streams.0, STANDARD_INPUT), (streams.1, STANDARD_OUTPUT));
    let mut wire = link_over(system, input, output);
    serve_account(system, account, maildir, &mut journal, &mut wire)
}

/// What a connection that was just accepted needs besides the Maildir: its account, its stream and the
/// peer's name.
fn begin<'a, R: Clock + AllocGlobal>(
    system: &System<'a, R>,
    stream: &'a TcpStream,
    peer: Peer,
    account: &Account,
) -> Result<(Account, BoundedStream<'a, R>, String), ServerFault>
    ensures account { IfOk result (λ begun. IsCopy begun.0 account.now) }
    ensures name { IfOk result (λ begun. string_bytes begun.2 ≡ client_name peer) }
{
    let account = account.copy(system.alloc())?;
    let stream = match BoundedStream::new(system.rt, stream) {
        Ok(stream) => stream,
        Err(_) => return Err(ServerFault::ReadFailed),
    };
    let name = format!(in system.alloc(); "{peer}")?;
    Ok((account, stream, name))
}

/// Serves one connection with limited waits, over the Maildir as it is now, and gives the Maildir
/// back for the next one. Nothing is removed unless the session came to QUIT.
fn serve_connection<'a, R>(
    system: &System<'_, R>,
    telling: &mut Telling<'_, R>,
    stream: &TcpStream,
    account: &Account,
    maildir: MaildirDrop<'a, R>,
) -> Visit<'a, R>
where
    R: Files + Env + Clock + RandomSource + AllocGlobal + Eprint + Clone + Drop,
    ensures { result.maildir.removals ≡ removals_by result.quit maildir.entry.removals }
{
    let (account, bounded, name) = match begin(system, stream, telling.peer, account) {
        Ok(connection) => connection,
        Err(fault) => {
            return Visit {
                served: Err(fault),
                quit: None,
                maildir,
            };
        }
    };
    // Without it the connection works too, only slower.
    let _ = stream.set_nodelay(true);
    let mut journal = LoginJournal {
        stream: &bounded,
        journal: telling,
        pause: Pause::first(),
    };
    let (input, output) = ((&bounded, name.as_str()), (&bounded, name.as_str()));
    let mut wire = link_over(system, input, output);
    let visit = serve_account(system, account, maildir, &mut journal, &mut wire);
    Visit {
        maildir: visit.maildir.renewed(),
        ..visit
    }
}

/// Accepts the next client and serves it, and reports a fault. If none can be accepted, that is reported
/// after a pause. Gives the Maildir back for the client after it. Nothing is removed unless the session came
/// to QUIT.
fn serve_next<'a, R>(
    system: &System<'_, R>,
    listener: (&TcpListener, &str),
    verbose: bool,
    account: &Account,
    maildir: MaildirDrop<'a, R>,
) -> Visit<'a, R>
where
    R: Files + Env + Clock + RandomSource + AllocGlobal + Eprint + Clone + Drop,
    ensures { result.maildir.removals ≡ removals_by result.quit maildir.entry.removals }
{
    let rt = system.rt;
    let (listener, address) = listener;
    let Ok((stream, client)) = system.refusals.noted("accept", address, listener.accept()) else {
        thread::sleep(rt, Duration::from_secs(PAUSE_SECONDS));
        tell(rt, &Failure::Fault(ServerFault::ReadFailed));
        return Visit {
            served: Err(ServerFault::ReadFailed),
            quit: None,
            maildir,
        };
    };
    let mut telling = Telling {
        rt,
        verbose,
        peer: Peer::Address(client),
    };
    let visit = serve_connection(system, &mut telling, &stream, account, maildir);
    if let Err(fault) = visit.served {
        tell(rt, &Failure::Fault(fault));
        warn(rt, Warning::Cut(client, fault));
    }
    visit
}

/// Listens on an address. The reason of one that isn't of the form is its own.
fn bind<'a, R>(system: &System<'_, R>, address: &'a str) -> Result<TcpListener, Failure<'a>>
where
    R: Net<Listener = TcpListener, Stream = TcpStream> + AllocGlobal,
    ensures { IfErr result (λ f. (f ≡ Failure.CannotListen address.entry)
        ⊎ (f ≡ Failure.Fault ServerFault.NoMemory)) }
{
    let bound = TcpListener::bind(system.rt, address);
    match system.refusals.noted("bind", address, bound) {
        Ok(listener) => Ok(listener),
        Err(error) => {
            if error.kind() == ErrorKind::InvalidInput && error.raw_os_error().is_none() {
                let _ = system.refusals.refuse(address, NO_ADDRESS);
            }
            Err(failure_of(error, Failure::CannotListen(address)))
        }
    }
}

/// Serves connections to an address over the account's Maildir, one after the other, as many as the words say.
/// A fault of one of them, or in accepting it, is reported, and the next one is served. Returns the last one that
/// came to QUIT, and the Maildir after all of them; nothing is removed unless one did, nor after it.
pub fn listen<'a, 'b, R>(
    system: &System<'_, R>,
    address: &'a str,
    words: &Words,
    account: &Account,
    tells_reasons: bool,
    maildir: MaildirDrop<'b, R>,
) -> Result<(Option<Quit>, MaildirDrop<'b, R>), Failure<'a>>
where
    R: Net<Listener = TcpListener, Stream = TcpStream> + Files + Env + Clock,
    R: RandomSource + AllocGlobal + Eprint + Copy + Drop,
    ensures err { IfErr result (λ f. (f ≡ Failure.CannotListen address.entry)
        ⊎ (f ≡ Failure.Fault ServerFault.NoMemory) ⊎ TellsUnsafe f) }
    ensures removals { IfOk result (λ left. left.1.removals ≡ removals_by left.0 maildir.entry.removals) }
{
    let listener = bind(system, address)?;
    check_maildir(system.alloc(), system, account)?;
    if words.verbose {
        tell_listening(system.rt, &listener);
    }
    if tells_reasons {
        warn_of_network(system.rt, &listener);
    }
    let mut quit = None;
    let mut left = maildir;
    for _ in 0..words.connections {
        let next = (&listener, address);
        let visit = serve_next(system, next, words.verbose, account, left);
        quit = visit.quit.or(quit);
        left = visit.maildir;
    }
    Ok((quit, left))
}
