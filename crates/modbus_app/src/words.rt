//! The words of the command line.
ghost use Rattle.std.specs.Prelude.{◌≡◌, ◌≤◌, ◌∷◌, [], map, IfSome, string_bytes};
ghost use Rattle.modbus_app.specs.Plan.{are_items};
ghost use Rattle.modbus_app.specs.Words.{size_named, count_named, port_named, serve_task, make_task, listened_to, forwarded_to, plan_task, form_of, task_asked, listener_asked, most_entries, most_requests, IsWithinLimits};

use crate::plan::item_of_word;
use modbus_poll::number_within;
use modbus_port::Framing;

/// The size of a table that a word shows: one to five digits, of a value from 1 to 65536.
fn table_size(word: &str) -> Option<u32>
    ensures exact { result ≡ size_named word.now }
    ensures most { IfSome result (λ size. size ≤ most_entries) }
{
    number_within(word.as_bytes(), 5, 1, 0x10000)
}

/// How many requests a word asks for: one to seven digits, of a value from 1 to 1,000,000.
fn request_count(word: &str) -> Option<u32>
    ensures exact { result ≡ count_named word.now }
    ensures most { IfSome result (λ count. count ≤ most_requests) }
{
    number_within(word.as_bytes(), 7, 1, 1_000_000)
}

/// The port that a word shows: one to five digits, of a value up to 65535.
fn port_number(word: &str) -> Option<u16>
    ensures { result ≡ port_named word.now }
{
    match number_within(word.as_bytes(), 5, 0, 0xFFFF) {
        Some(port) if port <= 0xFFFF => Some(port as u16),
        _ => None,
    }
}

/// What frames the requests that come over the standard streams.
#[derive(Clone, Copy, Debug, PartialEq, Eq)]
pub enum Mode {
    /// RTU frames.
    Rtu,
    /// Frames of the ASCII transmission mode (MODBUS over Serial Line V1.02, section 2.5.2).
    Ascii,
    /// ADUs with an MBAP header.
    Tcp,
}

/// A device that the program serves: which mode, how many entries each table has, and whether they are seeded.
#[derive(Clone, Copy, Debug, PartialEq, Eq)]
pub struct Form {
    /// What frames the requests.
    pub mode: Mode,
    /// The entries of each table.
    pub size: u32,
    /// Whether the tables begin with a pattern, and not with zeros.
    pub seeded: bool,
}

/// What the program does.
#[derive(Clone, Copy, Debug, PartialEq, Eq)]
pub enum Task {
    /// It serves a device over its standard streams.
    Serve(Form),
    /// It makes so many requests, serves them, and sums up the replies.
    Make(u32),
    /// It listens on this port, and serves each connection in this framing.
    Listen(Framing, u16),
    /// It forwards Modbus TCP over its standard streams to the line of RTU frames at this port.
    Forward(u16),
    /// It plans the reads of the items that the words name.
    Plan,
}

/// The entries of a table where no size is given.
pub const DEFAULT_SIZE: u32 = 1024;

/// Serving in a mode, where there is a size.
fn serve(mode: Mode, size: Option<u32>, seeded: bool) -> Option<Task>
    requires { IfSome size (λ size. size ≤ most_entries) }
    ensures exact { result ≡ serve_task mode size seeded }
    ensures limits { IfSome result IsWithinLimits }
{
    match size {
        Some(size) => Some(Task::Serve(Form { mode, size, seeded })),
        None => None,
    }
}

/// Making requests, where there is a count.
fn make(count: Option<u32>) -> Option<Task>
    requires { IfSome count (λ count. count ≤ most_requests) }
    ensures exact { result ≡ make_task count }
    ensures limits { IfSome result IsWithinLimits }
{
    match count {
        Some(count) => Some(Task::Make(count)),
        None => None,
    }
}

/// Listening in a framing, where there is a port.
fn listen(framing: Framing, port: Option<u16>) -> Option<Task>
    ensures exact { result ≡ listened_to framing port }
    ensures limits { IfSome result IsWithinLimits }
{
    match port {
        Some(port) => Some(Task::Listen(framing, port)),
        None => None,
    }
}

/// Forwarding to a port, where there is one.
fn forward(port: Option<u16>) -> Option<Task>
    ensures exact { result ≡ forwarded_to port }
    ensures limits { IfSome result IsWithinLimits }
{
    match port {
        Some(port) => Some(Task::Forward(port)),
        None => None,
    }
}

/// Whether each of these words names an item.
fn are_items(words: &[String]) -> bool
    ensures { result ≡ are_items (map string_bytes words.now) }
{
    let mut all = true;
    for word in words {
        all = all && item_of_word(word.as_str()).is_some();
    }
    all
}

/// Planning, where each of these words names an item.
fn plan(words: &[String]) -> Option<Task>
    ensures exact { result ≡ plan_task (map string_bytes words.now) }
    ensures limits { IfSome result IsWithinLimits }
{
    if are_items(words) {
        Some(Task::Plan)
    } else {
        None
    }
}

fn one_word(word: &str) -> Option<Task>
    ensures exact { result ≡ form_of (word.now ∷ []) }
    ensures limits { IfSome result IsWithinLimits }
{
    if word == "rtu" {
        return serve(Mode::Rtu, Some(DEFAULT_SIZE), false);
    }
    if word == "ascii" {
        return serve(Mode::Ascii, Some(DEFAULT_SIZE), false);
    }
    if word == "tcp" {
        return serve(Mode::Tcp, Some(DEFAULT_SIZE), false);
    }
    None
}

fn two_words(word: &str, argument: &str) -> Option<Task>
    ensures exact { result ≡ form_of (word.now ∷ argument.now ∷ []) }
    ensures limits { IfSome result IsWithinLimits }
{
    if word == "rtu" {
        return serve(Mode::Rtu, table_size(argument), false);
    }
    if word == "ascii" {
        return serve(Mode::Ascii, table_size(argument), false);
    }
    if word == "tcp" {
        return serve(Mode::Tcp, table_size(argument), false);
    }
    if word == "make" {
        return make(request_count(argument));
    }
    if word == "listen-rtu" {
        return listen(Framing::Rtu, port_number(argument));
    }
    if word == "listen-tcp" {
        return listen(Framing::Tcp, port_number(argument));
    }
    if word == "gateway" {
        return forward(port_number(argument));
    }
    None
}

fn three_words(word: &str, size: &str, last: &str) -> Option<Task>
    ensures exact { result ≡ form_of (word.now ∷ size.now ∷ last.now ∷ []) }
    ensures limits { IfSome result IsWithinLimits }
{
    if word != "rtu" || last != "seeded" {
        return None;
    }
    serve(Mode::Rtu, table_size(size), true)
}

/// What words ask for that are no plan.
fn other_words(words: &[String]) -> Option<Task>
    ensures exact { result ≡ form_of (map string_bytes words.now) }
    ensures limits { IfSome result IsWithinLimits }
{
    match words {
        [word] => one_word(word.as_str()),
        [word, argument] => two_words(word.as_str(), argument.as_str()),
        [word, size, last] => three_words(word.as_str(), size.as_str(), last.as_str()),
        _ => None,
    }
}

/// What the words ask for: `rtu`, `rtu size`, `rtu size seeded`, `tcp`, `tcp size`, `ascii` or `ascii size` to serve, `make n` to make
/// requests, `listen-rtu port` or `listen-tcp port` to listen, `gateway port` to forward, `plan` with any number of items `address:width` to plan reads; `None` where
/// they are no such form. It takes no memory.
pub fn read_words(words: &[String]) -> Option<Task>
    ensures exact { result ≡ task_asked words.now }
    ensures limits { IfSome result IsWithinLimits }
{
    match words {
        [word, items @ ..] if word.as_str() == "plan" => plan(items),
        _ => other_words(words),
    }
}

/// What the words ask to listen for: the framing and the port of `listen-rtu port` or `listen-tcp port`; `None` where they are no such
/// form. It takes no memory.
pub fn listening(words: &[String]) -> Option<(Framing, u16)>
    ensures { result ≡ listener_asked (task_asked words.now) }
{
    match read_words(words) {
        Some(Task::Listen(framing, port)) => Some((framing, port)),
        _ => None,
    }
}
