//! The devices of a plant, each of which is polled at its own times on one thread.
ghost use Rattle.std.specs.Prelude.{◌≡◌, ◌<◌, ◌^◌, IfOk, OnOk};

use crate::alive::{Census, alive_line};
use crate::ask::hand_on;
use crate::fault::{Fault, Why, why_unanswered, why_unconnected};
use crate::lines::Output;
use crate::places::Places;
use crate::supervised::Supervised;
use crate::target::Target;
use crate::time::Time;
use crate::turn::{Turn, rest_of};
use crate::watched::Watched;
use crate::words::Task;
use mio::net::TcpStream;
use modbus_client::tcp::OwnAdus;
use modbus_fleet::{Device, Dues, Fleet};
use modbus_frame::{ExceptionCode, Response, Result as Answer};
use modbus_ready::{MioReadiness, PolledTcpLink};
use std::io::{self, Write};
use std::time::{Duration, Instant};

/// How many reads of a call may give bytes.
const TURNS: u64 = 64;

/// When the call of a connection is over for the fleet: from the first on, since the turn of each device says when its call is given up.
const NO_TIME: u64 = 0;

/// The devices under their keys, and the connections over which they are polled, each under its place, in the fleet too.
#[derive(Drop)]
struct Supervisor {
    fleet: Fleet<'static, OwnAdus, PolledTcpLink, MioReadiness>,
    places: Places,
    devices: Vec<Supervised>,
    // the keys of the devices whose polls waited, and begin next
    called: Vec<usize>,
    began: Instant,
    output: Output,
    // whether each poll tells all values
    tells_all: bool,
    // when something is to be done for each device, if no answer comes
    dues: Dues,
    // what is printed next
    lines: Vec<u8>,
    is_short_of_files: bool,
    // when lines of life are printed, where they are
    life: Option<Turn>,
}

/// Whether a call was opened, which fails for want of memory alone.
// Of any error, since letting go of one takes the longer to prove, the more its type has.
fn is_opened<E: Drop>(asked: Option<Result<(), E>>) -> Result<bool, Fault> {
    match asked {
        Some(Ok(())) => Ok(true),
        Some(Err(_)) => Err(Fault::NoMemory),
        None => Ok(false),
    }
}

/// The turn of lines of life, one each so many seconds, the first at once.
fn life_each(seconds: u32) -> Turn {
    Turn::new(u64::MAX, seconds.saturating_mul(1000), 0, 1)
}

/// The earlier of a time and another, if there is one.
fn earlier(time: u64, other: Option<u64>) -> u64 {
    match other {
        Some(other) => time.min(other),
        None => time,
    }
}

/// Prints lines, each by one call, so that no part of one is left where the program is ended between two.
fn print_lines(rt: &HostRuntime, lines: &[u8]) -> io::Result<()> {
    for line in lines.split_inclusive(|byte| *byte == b'\n') {
        io::writer(rt).write_all(line)?;
    }
    Ok(())
}

impl Supervisor {
    /// How many milliseconds passed since the program began.
    fn now(&self, rt: &HostRuntime) -> Result<u64, Fault>
        ensures { IfOk result (λ now. now < 2 ^ 63) }
    {
        match self.began.elapsed(rt) {
            Ok(time) => {
                let seconds = time.as_secs().min(u64::from(u32::MAX));
                Ok(seconds * 1000 + u64::from(time.subsec_millis()))
            }
            Err(_) => Err(Fault::Clock),
        }
    }

    /// Keeps when something is to be done for the device under a key.
    fn note_wake(&mut self, key: usize) -> Result<(), Fault> {
        if let Some(device) = self.devices.get(key) {
            self.dues.set(key, device.turn.wake())?;
        }
        Ok(())
    }

    /// The place of the connection over which the device under a key is polled; one at which there is none where there is no device.
    fn place_of(&self, key: usize) -> usize {
        match self.devices.get(key) {
            Some(device) => device.place,
            None => usize::MAX,
        }
    }

    /// Whether other devices are polled over the connection of the one under a key.
    fn is_shared(&self, key: usize) -> bool {
        match self.places.get(self.place_of(key)) {
            Some(place) => place.is_shared(),
            None => false,
        }
    }

    /// Whether the poll of the device under a key begins at once: if not, it waits for those of others over the same connection.
    fn enters(&mut self, key: usize) -> Result<bool, Fault> {
        let place = self.place_of(key);
        let Some(place) = self.places.get_mut(place) else {
            return Ok(false);
        };
        if place.queue.enter(key)? {
            return Ok(true);
        }
        if let Some(device) = self.devices.get_mut(key) {
            device.turn.wait();
        }
        Ok(false)
    }

    /// Calls up the device that waited for longest for the connection of the one under a key, whose poll is over.
    fn hand_over(&mut self, key: usize) -> Result<(), Fault> {
        let place = self.place_of(key);
        let Some(place) = self.places.get_mut(place) else {
            return Ok(());
        };
        if let Some(next) = place.queue.leave() {
            self.called.push(next)?;
        }
        Ok(())
    }

    /// Ends the poll of the device under a key, which has its next so many intervals later.
    fn end(&mut self, rt: &HostRuntime, key: usize, intervals: u8) -> Result<(), Fault> {
        let now = self.now(rt)?;
        if let Some(device) = self.devices.get_mut(key) {
            device.turn.end(now, intervals);
        }
        self.note_wake(key)?;
        self.hand_over(key)
    }

    /// Counts that the device under a key is away. After how many intervals it is polled again: where it holds up others, the more the longer it
    /// has been away.
    fn note_miss(&mut self, key: usize) -> u8 {
        let is_shared = self.is_shared(key);
        let Some(device) = self.devices.get_mut(key) else {
            return 1;
        };
        device.misses = device.misses.saturating_add(1);
        if is_shared {
            rest_of(device.misses, device.turn.every())
        } else {
            1
        }
    }

    /// Ends the poll of the device under a key, which is away.
    fn leave(&mut self, rt: &HostRuntime, key: usize, why: Why) -> Result<(), Fault> {
        let time = Time::now(rt)?;
        if let Some(device) = self.devices.get_mut(key) {
            device.watched.leave(rt.alloc(), self.output, &time, why.text(), &mut self.lines)?;
        }
        let intervals = self.note_miss(key);
        self.end(rt, key, intervals)
    }

    /// Ends the poll of the device under a key, each read of which had an answer.
    fn finish(&mut self, rt: &HostRuntime, key: usize) -> Result<(), Fault> {
        let time = Time::now(rt)?;
        if let Some(device) = self.devices.get_mut(key) {
            device.misses = 0;
            device
                .watched
                .end(rt.alloc(), self.output, &time, &mut self.lines)?;
        }
        self.end(rt, key, 1)
    }

    /// Tells the first time that no file descriptor is left.
    fn note_shortage(&mut self, rt: &HostRuntime, why: Why) {
        if why == Why::NoFiles && !self.is_short_of_files {
            self.is_short_of_files = true;
            let _ = eprintln!(rt;
                "modbus_supervisor: too many open files: devices are away that have no connection yet"
            );
        }
    }

    /// Begins the connection of the device under a key, where there is none. A poll of its call goes on with it.
    ///
    /// # Errors
    /// Why there is none.
    fn connect(&mut self, rt: &HostRuntime, key: usize) -> Result<(), Why> {
        let place = self.place_of(key);
        match self.fleet.device(place) {
            Some(device) if device.is_away() => self.connect_to(rt, place),
            _ => Ok(()),
        }
    }

    /// Begins the connection of a place.
    ///
    /// # Errors
    /// Why there is none.
    fn connect_to(&mut self, rt: &HostRuntime, place: usize) -> Result<(), Why> {
        let Some(it) = self.places.get_mut(place) else {
            return Err(Why::NoConnection);
        };
        let stream = match TcpStream::connect(rt, it.address) {
            Ok(stream) => stream,
            Err(error) => return Err(why_unconnected(&error)),
        };
        it.is_fresh = true;
        match self.fleet.connect(place, PolledTcpLink::new(stream)) {
            Ok(()) => Ok(()),
            Err(_) => Err(Why::NoConnection),
        }
    }

    /// Whether the device under a key is connected, which it is from now on where it can be. If not, it is away.
    fn is_connected(&mut self, rt: &HostRuntime, key: usize) -> Result<bool, Fault> {
        let Err(why) = self.connect(rt, key) else {
            return Ok(true);
        };
        self.note_shortage(rt, why);
        self.leave(rt, key, why)?;
        Ok(false)
    }

    /// Whether the poll of the device under a key is over: no read of it comes next.
    fn is_over(&self, key: usize) -> bool {
        match self.devices.get(key) {
            Some(device) => device.watched.is_over(),
            None => true,
        }
    }

    /// Hands the read of the device under a key that comes next to its connection. Whether that took it, as one that is connected does.
    fn hand_on(&mut self, rt: &HostRuntime, key: usize) -> Result<bool, Fault> {
        let now = self.now(rt)?;
        let Some(device) = self.devices.get_mut(key) else {
            return Ok(false);
        };
        if !is_opened(hand_on(&mut self.fleet, device, now))? {
            return Ok(false);
        }
        device.turn.ask(now.saturating_add(device.timeout));
        self.note_wake(key)?;
        Ok(true)
    }

    /// Asks the read of the device under a key that comes next, or ends its poll where none is left. Whether a read was asked.
    fn ask(&mut self, rt: &HostRuntime, key: usize) -> Result<bool, Fault> {
        if self.is_over(key) {
            self.finish(rt, key)?;
            return Ok(false);
        }
        if !self.is_connected(rt, key)? {
            return Ok(false);
        }
        let is_asked = self.hand_on(rt, key)?;
        if !is_asked {
            self.leave(rt, key, Why::NoConnection)?;
        }
        Ok(is_asked)
    }

    /// Whether the read of the device under a key is made again that had no answer, which counts.
    fn takes_try(&mut self, key: usize) -> bool {
        match self.devices.get_mut(key) {
            Some(device) if device.tries > 0 => {
                device.tries = device.tries.saturating_sub(1);
                true
            }
            _ => false,
        }
    }

    /// Goes on with the device under a key after a call without its answer: the read is asked again over a new connection as often as the map
    /// says; then the device is away. Whether it was asked.
    fn try_again(&mut self, rt: &HostRuntime, key: usize, why: Why) -> Result<bool, Fault> {
        if self.takes_try(key) {
            return self.ask(rt, key);
        }
        self.leave(rt, key, why)?;
        Ok(false)
    }

    /// Goes on with the device under a key whose connection broke, or whose answer was none: where an answer came over that connection
    /// before, the read is asked again over a new one and doesn't count, since the device may have closed the last one between two polls.
    /// Whether it was asked.
    fn try_anew(&mut self, rt: &HostRuntime, key: usize, why: Why) -> Result<bool, Fault> {
        match self.places.get(self.place_of(key)) {
            Some(place) if !place.is_fresh => self.ask(rt, key),
            _ => self.try_again(rt, key, why),
        }
    }

    /// Keeps that an answer came over the connection at a place.
    fn note_answer(&mut self, place: usize) {
        if let Some(place) = self.places.get_mut(place) {
            place.is_fresh = false;
        }
    }

    /// Takes what the device under a key replied. Why it answers nothing that was asked, if it does not.
    fn take_reply(
        &mut self,
        rt: &HostRuntime,
        key: usize,
        reply: &Result<Response, ExceptionCode>,
    ) -> Result<Option<Why>, Fault> {
        let Some(device) = self.devices.get_mut(key) else {
            return Ok(Some(Why::Other));
        };
        if !device.watched.take(rt.alloc(), reply)? {
            return Ok(Some(Why::Other));
        }
        device.tries = device.retries;
        device.has_answered = true;
        let place = device.place;
        self.note_answer(place);
        Ok(None)
    }

    /// Takes an answer of the device under a key. Why it answers nothing that was asked, if it does not.
    fn take_answer(
        &mut self,
        rt: &HostRuntime,
        key: usize,
        answer: Answer<Response>,
    ) -> Result<Option<Why>, Fault> {
        match answer {
            Ok(reply) => self.take_reply(rt, key, &reply),
            Err(error) => Ok(Some(why_unanswered(&error))),
        }
    }

    /// Takes an answer of the device under a key, and asks its next read. Whether one was asked.
    fn take_one(
        &mut self,
        rt: &HostRuntime,
        key: usize,
        answer: Answer<Response>,
    ) -> Result<bool, Fault> {
        match self.take_answer(rt, key, answer)? {
            None => self.ask(rt, key),
            Some(why) => self.try_anew(rt, key, why),
        }
    }

    /// Takes the answers of the device under a key, whose read was asked just now, that come at once: a link that is ready already is not told
    /// of again.
    fn take_ready(&mut self, rt: &HostRuntime, key: usize) -> Result<(), Fault> {
        let place = self.place_of(key);
        for _ in 0..u64::MAX {
            let Some(answer) = self.fleet.poll(place) else {
                return Ok(());
            };
            if !self.take_one(rt, key, answer)? {
                return Ok(());
            }
        }
        Ok(())
    }

    /// Takes an answer of the device under a key, and those to the reads behind it that come at once.
    fn take(
        &mut self,
        rt: &HostRuntime,
        key: usize,
        answer: Answer<Response>,
    ) -> Result<(), Fault> {
        if self.take_one(rt, key, answer)? {
            self.take_ready(rt, key)?;
        }
        Ok(())
    }

    /// Takes an answer that came over the connection at a place: it is that of the device whose poll is under way there.
    fn take_at(
        &mut self,
        rt: &HostRuntime,
        place: usize,
        answer: Answer<Response>,
    ) -> Result<(), Fault> {
        let current = match self.places.get(place) {
            Some(place) => place.queue.current(),
            None => None,
        };
        match current {
            Some(key) => self.take(rt, key, answer),
            None => Ok(()),
        }
    }

    /// Begins a poll of the device under a key, or has it wait for those of others over the same connection.
    fn begin(&mut self, rt: &HostRuntime, key: usize) -> Result<(), Fault> {
        if self.enters(key)? {
            self.start(rt, key)?;
        }
        Ok(())
    }

    /// Begins the polls that waited, and were called up.
    fn serve_called(&mut self, rt: &HostRuntime) -> Result<(), Fault> {
        for _ in 0..u64::MAX {
            let Some(key) = self.called.pop() else {
                return Ok(());
            };
            if let Some(device) = self.devices.get_mut(key) {
                device.turn.call_up();
            }
            self.start(rt, key)?;
        }
        Ok(())
    }

    /// Begins a poll of the device under a key, whose turn it is.
    fn start(&mut self, rt: &HostRuntime, key: usize) -> Result<(), Fault> {
        if let Some(device) = self.devices.get_mut(key) {
            device.watched.begin()?;
            device.tries = device.retries;
        }
        self.go_on(rt, key)
    }

    /// Asks the next read of the device under a key, and takes the answers that come at once.
    fn go_on(&mut self, rt: &HostRuntime, key: usize) -> Result<(), Fault> {
        if self.ask(rt, key)? {
            self.take_ready(rt, key)?;
        }
        Ok(())
    }

    /// Gives up the call of the device under a key, unless its answer has come, with its link: the reply may still come.
    fn give_up(&mut self, rt: &HostRuntime, key: usize, now: u64) -> Result<(), Fault> {
        let place = self.place_of(key);
        if let Some(answer) = self.fleet.poll(place) {
            return self.take(rt, key, answer);
        }
        let _is_given_up = self.fleet.expire_at(place, now);
        if self.takes_try(key) {
            return self.go_on(rt, key);
        }
        self.leave(rt, key, Why::NoAnswer)
    }

    /// Does what is to be done for the device under a key at this time.
    fn serve(&mut self, rt: &HostRuntime, key: usize, now: u64) -> Result<(), Fault> {
        let Some(device) = self.devices.get(key) else {
            return Ok(());
        };
        let turn = device.turn;
        if turn.is_late(now) {
            self.give_up(rt, key, now)?;
        } else if turn.is_due(now) {
            self.begin(rt, key)?;
        }
        self.note_wake(key)
    }

    /// Does what is to be done at this time, for each device for which something is.
    fn serve_all(&mut self, rt: &HostRuntime, now: u64) -> Result<(), Fault> {
        for _ in 0..u64::MAX {
            match self.dues.take_due(now) {
                Some(key) => self.serve(rt, key, now)?,
                None => return Ok(()),
            }
        }
        Ok(())
    }

    /// Prints the lines that were made.
    fn print(&mut self, rt: &HostRuntime) -> Result<(), Fault> {
        if self.lines.is_empty() {
            return Ok(());
        }
        let printed = print_lines(rt, self.lines.as_slice());
        self.lines.clear();
        match printed {
            Ok(()) => Ok(()),
            Err(_) => Err(Fault::Output),
        }
    }

    /// The place of the connection over which one more device at this address is polled.
    fn take_in(&mut self, rt: &HostRuntime, target: &Target) -> Result<usize, Fault> {
        let place = self.places.take_in(rt.alloc(), target.address)?;
        if place == self.fleet.len() {
            let added = self.fleet.add(Device::new(target.unit, TURNS, NO_TIME))?;
            if added != place {
                return Err(Fault::NoMemory);
            }
        }
        Ok(place)
    }

    /// Adds a device with its turn, which is not connected yet.
    fn add(&mut self, rt: &HostRuntime, turn: Turn, target: Target) -> Result<(), Fault> {
        let times = target.times;
        let place = self.take_in(rt, &target)?;
        let key = self.devices.len();
        self.devices.push(Supervised {
            place,
            unit: target.unit,
            watched: Watched::new(rt.alloc(), target.name, target.points, self.tells_all)?,
            turn,
            timeout: u64::from(times.timeout),
            retries: times.retries,
            tries: times.retries,
            misses: 0,
            has_answered: false,
        })?;
        self.dues.add()?;
        self.note_wake(key)
    }

    /// Adds devices, the first polls of which are spread over their intervals.
    fn add_all(&mut self, rt: &HostRuntime, count: u64, targets: Vec<Target>) -> Result<(), Fault> {
        let devices = u32::try_from(targets.len()).unwrap_or(u32::MAX);
        let mut place: u32 = 0;
        for target in targets {
            let turn = Turn::new(count, target.times.every, place, devices);
            self.add(rt, turn, target)?;
            place = place.saturating_add(1);
        }
        Ok(())
    }

    /// How many devices are polled, and how many of them are away.
    fn census(&self) -> Census {
        Census {
            devices: self.devices.len(),
            away: self
                .devices
                .iter()
                .filter(|device| device.watched.is_away())
                .count(),
        }
    }

    /// When the next line of life is due, where there are such lines.
    fn next_life(&self) -> Option<u64> {
        match &self.life {
            Some(life) => life.wake(),
            None => None,
        }
    }

    /// Whether a line of life is due. The next one is an interval later.
    fn takes_life(&mut self, rt: &HostRuntime) -> Result<bool, Fault> {
        let now = self.now(rt)?;
        match &mut self.life {
            Some(life) if life.is_due(now) => {
                life.end(now, 1);
                Ok(true)
            }
            _ => Ok(false),
        }
    }

    /// Prints a line of life, where one is due.
    fn tell_life(&mut self, rt: &HostRuntime) -> Result<(), Fault> {
        if !self.takes_life(rt)? {
            return Ok(());
        }
        let time = Time::now(rt)?;
        let line = alive_line(rt.alloc(), self.output, &time, self.census())?;
        self.lines.extend_from_slice(line.as_slice())?;
        self.print(rt)
    }

    /// Whether each device answered some read.
    ///
    /// # Errors
    /// `Unanswered` where one never did.
    fn judge(&self) -> Result<(), Fault> {
        if self.devices.iter().all(|device| device.has_answered) {
            Ok(())
        } else {
            Err(Fault::Unanswered)
        }
    }

    /// Polls the devices until each has had its polls.
    ///
    /// # Errors
    /// Why it ended before, or `Unanswered` where a device never answered.
    fn run(&mut self, rt: &HostRuntime) -> Result<(), Fault> {
        for _ in 0..u64::MAX {
            let Some(wake) = self.dues.next() else {
                return self.judge();
            };
            self.tell_life(rt)?;
            self.wait_until(rt, earlier(wake, self.next_life()))?;
            let now = self.now(rt)?;
            self.serve_all(rt, now)?;
            self.serve_called(rt)?;
            self.print(rt)?;
        }
        Ok(())
    }

    /// Waits until this time, or until answers may have come, and takes those.
    fn wait_until(&mut self, rt: &HostRuntime, time: u64) -> Result<(), Fault> {
        let now = self.now(rt)?;
        let patience = Duration::from_millis(time.saturating_sub(now));
        if self.fleet.wait(Some(patience)).is_err() {
            return Err(Fault::Wait);
        }
        for _ in 0..u64::MAX {
            match self.fleet.next_answer() {
                Some(told) => self.take_at(rt, told.key, told.answer)?,
                None => return Ok(()),
            }
        }
        Ok(())
    }
}

/// A supervisor of no device.
fn idle(rt: &HostRuntime, task: &Task<'_>) -> Result<Supervisor, Fault> {
    let alloc = rt.alloc();
    let Ok(began) = Instant::now(rt) else {
        return Err(Fault::Clock);
    };
    let Ok(readiness) = MioReadiness::new(rt) else {
        return Err(Fault::Wait);
    };
    Ok(Supervisor {
        fleet: Fleet::new(alloc, readiness),
        places: Places::new(alloc, task.connections),
        devices: Vec::new(alloc),
        called: Vec::new(alloc),
        began,
        output: task.output,
        tells_all: task.tells_all,
        dues: Dues::new(alloc),
        lines: Vec::new(alloc),
        is_short_of_files: false,
        life: task.alive.map(life_each),
    })
}

/// Polls devices, each as often as it is to be.
///
/// # Errors
/// Why it ended before.
pub fn supervise(rt: &HostRuntime, task: &Task<'_>, targets: Vec<Target>) -> Result<(), Fault> {
    let mut supervisor = idle(rt, task)?;
    supervisor.add_all(rt, task.count, targets)?;
    supervisor.run(rt)
}
