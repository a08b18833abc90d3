//! Listeners over memory, whose connections are served one after another on the caller.

use crate::outside::{read_joined, read_link};
use crate::program::push_errors;
use crate::same_words::SameWords;
use crate::text::Text;
use crate::word::Word;
use modbus_app::{StoreServices, open_shared, run_listen};
use modbus_link::{
    Acceptor, Failed, FlagStop, InlineSpawner, Link, MemoryAcceptor, MemoryLink, MemorySink,
    MemoryStop, ScopeSpawner, Spawner,
};
use modbus_rtu::Inbox;
use modbus_server::tcp::AduBuffer;
use modbus_server::{
    ConnectionWorker, Framing, ProcessError, ServeError, Server, Terminated, accept_tcp_connection,
};
use std::alloc::{AllocError, Global};
use std::net::SocketAddr;
use std::sync::Wait;

/// By the port of its peer a connection is taken, or rejected, or refused with the port as the error.
const TAKES: u16 = 0;

const REJECTS: u16 = 1;

/// The room of what the program's listener tells, in bytes.
const ERRORS: usize = 64;

/// The address of a peer.
fn address(port: u16) -> SocketAddr {
    SocketAddr::from(([127, 0, 0, 1], port))
}

/// The service of a connection from this address.
fn service_for(address: SocketAddr) -> Result<Option<SameWords>, u16> {
    match address.port() {
        TAKES => Ok(Some(SameWords::new(1))),
        REJECTS => Ok(None),
        port => Err(port),
    }
}

/// How a listener ended; a refused connection is told by the port of its peer.
type Ended = Result<Terminated, ServeError<u16>>;

/// The answer of a listener without a signal, or with one that is set after so many looks.
fn listen<I, R, A, H, P>(
    rt: &R,
    alloc: Global,
    server: &mut Server<I, A>,
    on_process_error: H,
    spawner: &mut P,
    looks: Option<u64>,
) -> Ended
where
    I: Framing,
    R: Wait,
    A: Acceptor,
    A::Link: Link + Send + Drop,
    H: Fn(ProcessError) + Copy + Send,
    P: Spawner<ConnectionWorker<I, A::Link, SameWords, H, FlagStop>>,
    requires error_hook { H.IsAlwaysCallable on_process_error }
    requires can { P.can_start spawner.old }
{
    let mut hook = |link: A::Link, address: SocketAddr| -> Result<
        Option<(SameWords, A::Link)>,
        u16,
    > { accept_tcp_connection(link, address, &mut service_for) };
    match looks {
        None => match server.serve(rt, alloc, &mut hook, on_process_error, spawner) {
            Ok(()) => Ok(Terminated::Finished),
            Err(error) => Err(error),
        },
        Some(looks) => server.serve_until(
            rt,
            alloc,
            &mut hook,
            on_process_error,
            spawner,
            &mut MemoryStop::new(looks),
        ),
    }
}

/// The answer of a listener whose workers are run at once, or none of whose workers a thread is found for.
fn ended<I, R, A>(
    rt: &R,
    alloc: Global,
    spawner: &str,
    server: &mut Server<I, A>,
    looks: Option<u64>,
) -> Option<Ended>
where
    I: Framing,
    R: Wait,
    A: Acceptor,
    A::Link: Link + Send + Drop,
{
    let ignore = |_error: ProcessError| {};
    match spawner {
        "inline" => Some(listen(rt, alloc, server, ignore, &mut InlineSpawner::new(), looks)),
        "refused" => {
            let mut spawner = ScopeSpawner::new(|_worker: ConnectionWorker<
                I,
                A::Link,
                SameWords,
                _,
                FlagStop,
            >| false);
            Some(listen(rt, alloc, server, ignore, &mut spawner, looks))
        }
        _ => None,
    }
}

/// The peers that connect: the port of each, and the link to it.
#[derive(Drop)]
struct Peers {
    ports: Vec<u16>,
    links: Vec<MemoryLink>,
}

impl Peers {
    fn new(alloc: Global) -> Peers {
        Peers {
            ports: Vec::new(alloc),
            links: Vec::new(alloc),
        }
    }

    fn push(&mut self, port: u16, link: MemoryLink) -> Result<(), AllocError> {
        self.ports.push(port)?;
        self.links.push(link)?;
        Ok(())
    }
}

/// An acceptor of the links to these peers.
fn accepting<'l>(
    alloc: Global,
    ports: &[u16],
    links: &'l mut [MemoryLink],
) -> Result<MemoryAcceptor<&'l mut MemoryLink>, AllocError> {
    let mut accepted = Vec::new(alloc);
    let mut left = links;
    for port in ports {
        let Some((link, others)) = left.split_first_mut() else {
            break;
        };
        accepted.push((link, address(*port)))?;
        left = others;
    }
    Ok(MemoryAcceptor::new(accepted))
}

/// Appends what each peer was sent.
fn push_sent(text: &mut Text, peers: &Peers) {
    for link in peers.links.as_slice() {
        text.push_str(" ");
        text.push_hex(link.sink().bytes());
    }
}

/// Appends how a listener ended, and that.
fn push_ended(text: &mut Text, ended: Ended, peers: &Peers) {
    text.push_shown(ended);
    push_sent(text, peers);
}

/// The answer of a listener of these peers, and what each of them was sent.
fn listened<I: Framing, R: Wait>(
    rt: &R,
    text: &mut Text,
    spawner: &str,
    peers: &mut Peers,
    looks: Option<u64>,
) -> bool {
    let Ok(acceptor) = accepting(
        text.alloc,
        peers.ports.as_slice(),
        peers.links.as_mut_slice(),
    ) else {
        return false;
    };
    let ended = ended(
        rt,
        text.alloc,
        spawner,
        &mut Server::<I, _>::new(acceptor),
        looks,
    );
    match ended {
        Some(ended) => push_ended(text, ended, peers),
        None => return false,
    }
    true
}

/// The answer of a listener in a framing.
fn listened_in<R: Wait>(
    rt: &R,
    text: &mut Text,
    framing: &str,
    spawner: &str,
    peers: &mut Peers,
    looks: Option<u64>,
) -> bool {
    match framing {
        "rtu" => listened::<Inbox, R>(rt, text, spawner, peers, looks),
        "tcp" => listened::<AduBuffer, R>(rt, text, spawner, peers, looks),
        _ => false,
    }
}

/// The port of a peer and the link to it, which have a colon between them. The words of its outside have a plus between them.
fn peer_of(alloc: Global, word: &str) -> Option<(u16, MemoryLink)> {
    let (port, outside) = word.split_once(":")?;
    Some((port.parse().ok()?, read_joined(alloc, outside)?))
}

/// The peers of these connections.
fn peers_of(alloc: Global, words: &[Word]) -> Option<Peers> {
    let mut peers = Peers::new(alloc);
    for word in words {
        let (port, link) = peer_of(alloc, word.text())?;
        peers.push(port, link).ok()?;
    }
    Some(peers)
}

/// A framing; a spawner; and the connections.
fn answer_of_each<R: Wait>(rt: &R, text: &mut Text, words: &[Word], looks: Option<u64>) -> bool {
    let [framing, spawner, words @ ..] = words else {
        return false;
    };
    match peers_of(text.alloc, words) {
        Some(mut peers) => {
            listened_in(rt, text, framing.text(), spawner.text(), &mut peers, looks)
        }
        None => false,
    }
}

/// Eight peers, each with a link over an outside of its own that these words tell.
fn eight_peers(alloc: Global, words: &[Word]) -> Option<Peers> {
    let mut peers = Peers::new(alloc);
    for _ in 0..8 {
        peers.push(TAKES, read_link(alloc, words)?).ok()?;
    }
    Some(peers)
}

/// The answer of an RTU listener of eight peers with such links.
fn answer_of_eight<R: Wait>(rt: &R, text: &mut Text, words: &[Word]) -> bool {
    match eight_peers(text.alloc, words) {
        Some(mut peers) => listened::<Inbox, R>(rt, text, "inline", &mut peers, None),
        None => false,
    }
}

/// The status of the program's listener over links that share its device.
fn listen_shared<R: Wait + Sync>(
    rt: &R,
    alloc: Global,
    framing: modbus_app::Framing,
    acceptor: &mut MemoryAcceptor<&mut MemoryLink>,
    services: &mut StoreServices<'_, R>,
    errors: &mut MemorySink,
) -> u8 {
    run_listen(
        rt,
        alloc,
        framing,
        acceptor,
        &mut InlineSpawner::new(),
        services,
        |_error: ProcessError| {},
        errors,
    )
}

/// The same of a device that is opened for it. None where memory was refused.
fn status_shared<R: Wait + Sync>(
    rt: &R,
    alloc: Global,
    framing: modbus_app::Framing,
    peers: &mut Peers,
    errors: &mut MemorySink,
) -> Option<u8> {
    let (table, pass) = open_shared(alloc, framing).ok()?;
    let services = &mut StoreServices::new(rt, &table, pass);
    let acceptor = &mut accepting(alloc, peers.ports.as_slice(), peers.links.as_mut_slice()).ok()?;
    Some(listen_shared(rt, alloc, framing, acceptor, services, errors))
}

/// That status, its text, and what each peer was sent.
fn push_shared<R: Wait + Sync>(
    rt: &R,
    text: &mut Text,
    framing: modbus_app::Framing,
    peers: &mut Peers,
    errors: &mut MemorySink,
) -> bool {
    let Some(status) = status_shared(rt, text.alloc, framing, peers, errors) else {
        return false;
    };
    write!(text, "{status} ");
    push_errors(text, errors.bytes());
    push_sent(text, peers);
    true
}

/// The framing of the program's listener that a word names.
fn framing_of(word: &str) -> Option<modbus_app::Framing> {
    Some(match word {
        "rtu" => modbus_app::Framing::Rtu,
        "tcp" => modbus_app::Framing::Tcp,
        _ => return None,
    })
}

/// `run_listen`, a framing and the connections.
pub fn answer_shared<R: Wait + Sync>(rt: &R, text: &mut Text, words: &[Word]) -> bool {
    let [framing, words @ ..] = words else {
        return false;
    };
    let (Some(framing), Some(mut peers)) = (framing_of(framing.text()), peers_of(text.alloc, words))
    else {
        return false;
    };
    match MemorySink::new(text.alloc, ERRORS, ERRORS, &[]) {
        Ok(mut errors) => push_shared(rt, text, framing, &mut peers, &mut errors),
        Err(_) => false,
    }
}

/// The port of the next peer of an acceptor.
fn push_next(text: &mut Text, acceptor: &mut MemoryAcceptor<&mut MemoryLink>) {
    match acceptor.accept() {
        Ok((_link, address)) => text.push_shown(address.port()),
        Err(Failed) => text.push_str("none"),
    }
}

/// The same of the acceptor that a listener gives back, which accepted nothing.
fn given_back<I: Framing>(text: &mut Text, peers: &mut Peers) -> bool {
    match accepting(
        text.alloc,
        peers.ports.as_slice(),
        peers.links.as_mut_slice(),
    ) {
        Ok(acceptor) => push_next(text, &mut Server::<I, _>::new(acceptor).into_acceptor()),
        Err(_) => return false,
    }
    true
}

/// `listen_not`, a framing and the connections.
pub fn answer_given_back(text: &mut Text, words: &[Word]) -> bool {
    let [framing, words @ ..] = words else {
        return false;
    };
    let Some(mut peers) = peers_of(text.alloc, words) else {
        return false;
    };
    match framing.text() {
        "rtu" => given_back::<Inbox>(text, &mut peers),
        "tcp" => given_back::<AduBuffer>(text, &mut peers),
        _ => false,
    }
}

/// `listen`, or `listen_until` and how often the signal is looked at before it is set; a framing; a spawner; and the connections. Or
/// `listen_to_eight`, and the outside of each of eight connections.
pub fn answer<R: Wait>(rt: &R, text: &mut Text, call: &str, words: &[Word]) -> bool {
    match (call, words) {
        ("listen", _) => answer_of_each(rt, text, words, None),
        ("listen_until", [looks, words @ ..]) => {
            let looks = looks.number().map(u64::from);
            looks.is_some() && answer_of_each(rt, text, words, looks)
        }
        ("listen_to_eight", _) => answer_of_eight(rt, text, words),
        _ => false,
    }
}
