//! A link of which each read is a burst: what came between two silences.
ghost use Rattle.std.specs.Prelude.{[], ◌≡◌, ◌⊎◌, ◌<◌, ◌≤◌, length, take, IsTrue, Ok, IfOk, OnErr};
ghost use Rattle.std.specs.Io.{ReadsAtMost, WritesAtMost};
ghost use Rattle.modbus_link.specs.Outside.{Rose, Advances, Extends, bytes_appended, bytes_read, front_of, untold_input};
ghost use Rattle.modbus_link.specs.Memory.{faults_after};
ghost use Rattle.modbus_link.specs.declared.polled.Polled.TheVariants.{Ready};
ghost use Rattle.modbus_field.specs.BurstLink.{burst_at_start, output_over, last_count, CountsSilence, ComesBehind, FailsBy, GoesOn, Finishes, GivesBurst, GivesAtOnce, FitsRoom};

use crate::burst::counted::CountedLink;
use modbus_link::{Ends, Failed, Polled, Sink, Source};
use std::marker::Model;

/// The length in bytes of the room of a read that is dropped.
const DROPPED: usize = 64;

/// A source and a sink over a link that tells silence. One read gives one burst: what came until the line fell silent again.
///
/// As a read of a datagram socket does, it gives the front of the burst that fits into its room, and drops the rest. What the line has is
/// not known before it is silent, so a contract knows no content of the input, and each read says what it gave of the link's.
#[derive(Drop)]
pub struct BurstLink<L> {
    link: L,
    read_faults: u64,
    write_faults: u64,
}

/// What a contract knows of it is the link, and how often it failed.
impl<L> Model for BurstLink<L> {
    ghost use Rattle.modbus_field.specs.BurstLink.{BurstState};

    ghost Value = { BurstState L };

    ghost view = { λ it. record { link = it.link; read_faults = it.read_faults; write_faults = it.write_faults } };
}

impl<L> BurstLink<L> {
    /// A link over this one that has never failed.
    pub fn new(link: L) -> BurstLink<L>
        ensures { result ≡ burst_at_start link }
    {
        BurstLink {
            link,
            read_faults: 0,
            write_faults: 0,
        }
    }

    /// The link that tells silence.
    pub fn link(&self) -> &L
        ensures { result.now ≡ self.now.link }
    {
        &self.link
    }
}

/// Waits until bytes come, and reads those that fit: how many; 0 where the input has ended.
fn begin<L: CountedLink>(link: &mut L, room: &mut [u8]) -> Result<usize, Failed>
    requires { 0 < length room.old }
    ensures length { length room.new ≡ length room.old }
    ensures within { IfOk result (λ count. count ≤ length room.new) }
    ensures source { Advances (L.input link.old) (L.input link.new) }
    ensures later { L.not_ready link.old ≤ L.not_ready link.new }
    ensures told { IsTrue (L.input link.old).told
        → IfOk result (λ count. bytes_read (L.input link.old) (L.input link.new) ≡ take count
        room.new) }
    ensures ended { result ≡ Ok 0 → IsTrue (L.input link.old).told → (L.input link.new).left ≡ [] }
    ensures fails { OnErr result
        (FailsBy (L.input link.old) (L.input link.new) (L.not_ready link.new)) }
    ensures behind { IfOk result (λ count. ComesBehind L.input L.not_ready link.old link.new) }
    ensures sink { L.output link.new ≡ L.output link.old }
    ensures line { L.line link.new ≡ L.line link.old }
{
    'silences: for _told in 0..u64::MAX {
        match link.poll_counted(room) {
            Ok(Polled::Pending) => {}
            Ok(Polled::Ready(count)) => return Ok(count),
            Err(Failed) => return Err(Failed),
        }
    }
    Err(Failed)
}

/// Reads what comes next behind `count` bytes of a burst that stand in the room, or drops it where the room is full: how many bytes came.
fn poll_next<L: CountedLink>(
    link: &mut L,
    room: &mut [u8],
    count: usize,
) -> Result<Polled<usize>, Failed>
    requires { count ≤ length room.old }
    ensures goes_on { GoesOn (L.input link.old) (L.input link.new) count room.old room.new result }
    ensures ended { result ≡ Ok (Ready 0) → IsTrue (L.input link.old).told → (L.input link.new).left
        ≡ [] }
    ensures counted { CountsSilence result (L.not_ready link.old) (L.not_ready link.new) }
    ensures later { L.not_ready link.old ≤ L.not_ready link.new }
    ensures cause { OnErr result (Rose (L.input link.old).faults (L.input link.new).faults) }
    ensures sink { L.output link.new ≡ L.output link.old }
    ensures line { L.line link.new ≡ L.line link.old }
{
    if count < room.len() {
        link.poll_counted(&mut room[count..])
    } else {
        let mut dropped = [0; DROPPED];
        link.poll_counted(&mut dropped)
    }
}

/// Reads on until the link falls silent or ends: how many bytes of the burst stand in the room, of which `first` did before.
fn finish<L: CountedLink>(link: &mut L, room: &mut [u8], first: usize) -> Result<usize, Failed>
    requires some { 0 < first }
    requires within { first ≤ length room.old }
    ensures finishes { Finishes (L.input link.old) (L.input link.new) (L.not_ready link.old)
        (L.not_ready link.new) first room.old room.new result }
    ensures sink { L.output link.new ≡ L.output link.old }
    ensures line { L.line link.new ≡ L.line link.old }
{
    let mut count = first;
    'pieces: for _read in 0..u64::MAX {
        match poll_next(link, room, count) {
            Ok(Polled::Pending) => return Ok(count),
            Ok(Polled::Ready(0)) => return Ok(count),
            Ok(Polled::Ready(more)) => {
                let kept = more.min(room.len() - count);
                count += kept;
            }
            Err(Failed) => return Err(Failed),
        }
    }
    Ok(count)
}

/// Reads a burst: how many bytes of it stand at the front of the room; 0 where the input has ended.
fn read_burst<L: CountedLink>(link: &mut L, room: &mut [u8]) -> Result<usize, Failed>
    requires { 0 < length room.old }
    ensures bound { ReadsAtMost result room.new }
    ensures gives { GivesBurst L.input L.not_ready link.old link.new (length room.old) room.new
        result }
    ensures sink { L.output link.new ≡ L.output link.old }
    ensures line { L.line link.new ≡ L.line link.old }
{
    match begin(link, room) {
        Ok(0) => Ok(0),
        Ok(first) => finish(link, room, first),
        Err(Failed) => Err(Failed),
    }
}

/// Reads a burst that comes at once: how many bytes of it stand at the front of the room, 0 where the input has ended; `None` where a
/// silence came first.
fn read_first<L: CountedLink>(link: &mut L, room: &mut [u8]) -> Result<Option<usize>, Failed>
    requires { 0 < length room.old }
    ensures length { length room.new ≡ length room.old }
    ensures fits { FitsRoom result room.new }
    ensures gives { GivesAtOnce L.input L.not_ready link.old link.new (length room.old) room.new
        result }
    ensures sink { L.output link.new ≡ L.output link.old }
    ensures line { L.line link.new ≡ L.line link.old }
{
    match link.poll_counted(room) {
        Ok(Polled::Pending) => Ok(None),
        Ok(Polled::Ready(0)) => Ok(Some(0)),
        Ok(Polled::Ready(first)) => match finish(link, room, first) {
            Ok(count) => Ok(Some(count)),
            Err(Failed) => Err(Failed),
        },
        Err(Failed) => Err(Failed),
    }
}

/// Waits until the link takes a front of the bytes: how many.
fn write_through<L: CountedLink>(link: &mut L, piece: &[u8]) -> Result<usize, Failed>
    ensures bound { WritesAtMost result piece.now }
    ensures some { IfOk result (λ count. 0 < length piece.now → 0 < count) }
    ensures sink { Extends (L.output link.old) (L.output link.new) }
    ensures told { IsTrue (L.output link.old).told
        → bytes_appended (L.output link.old) (L.output link.new) ≡ front_of result piece.now }
    ensures fails { OnErr result
        (Rose (L.output link.old).faults (L.output link.new).faults ⊎
        (last_count ≤ L.not_ready link.new)) }
    ensures source { L.input link.new ≡ L.input link.old }
    ensures line { L.line link.new ≡ L.line link.old }
{
    'silences: for _told in 0..u64::MAX {
        match link.poll_write(piece) {
            Ok(Polled::Pending) => {}
            Ok(Polled::Ready(count)) => return Ok(count),
            Err(Failed) => return Err(Failed),
        }
    }
    Err(Failed)
}

impl<L: CountedLink> BurstLink<L> {
    /// Reads a burst as `read` does, where it begins before the line falls silent: how many bytes of it stand at the front of the room, 0
    /// where the input has ended. `None` where a silence came first: nothing was read then.
    ///
    /// # Errors
    /// `Failed` where the link failed, and what came of the burst is lost.
    pub fn read_at_once(&mut self, room: &mut [u8]) -> Result<Option<usize>, Failed>
        requires { 0 < length room.old }
        ensures length { length room.new ≡ length room.old }
        ensures fits { FitsRoom result room.new }
        ensures gives { GivesAtOnce L.input L.not_ready self.old.link self.new.link
            (length room.old) room.new result }
        ensures sink { L.output self.new.link ≡ L.output self.old.link }
        ensures line { L.line self.new.link ≡ L.line self.old.link }
        ensures later { self.old.read_faults ≤ self.new.read_faults }
        ensures counts { self.new ≡ record self.old {
          link = self.new.link;
          read_faults = faults_after result self.old.read_faults;
        } }
    {
        match read_first(&mut self.link, room) {
            Ok(found) => Ok(found),
            Err(Failed) => {
                self.read_faults = self.read_faults.saturating_add(1);
                Err(Failed)
            }
        }
    }
}

impl<L: CountedLink> Ends for BurstLink<L> {
    ghost input = { λ it. untold_input it.read_faults };

    ghost output = { λ it. output_over (L.output it.link) it.write_faults };

    ghost line = { λ it. L.line it.link };
}

impl<L: CountedLink> Source for BurstLink<L> {
    /// Reads one burst: waits until bytes come, and reads until the link falls silent again. What does not fit into the room is dropped.
    /// Where the input ends within a burst, what came of it is given, and the next read gives none.
    ///
    /// # Errors
    /// `Failed` where the link failed, and what came of the burst is lost; or where it told as many silences as can be counted.
    fn read(&mut self, room: &mut [u8]) -> Result<usize, Failed>
        requires { 0 < length room.old }
        ensures bound { ReadsAtMost result room.new }
        ensures source { Advances (untold_input self.old.read_faults)
            (untold_input self.new.read_faults) }
        ensures sink { output_over (L.output self.new.link) self.new.write_faults
            ≡ output_over (L.output self.old.link) self.old.write_faults }
        ensures line { L.line self.new.link ≡ L.line self.old.link }

        ensures gives { GivesBurst L.input L.not_ready self.old.link self.new.link
            (length room.old) room.new result }
        ensures counts { self.new ≡ record self.old {
          link = self.new.link;
          read_faults = faults_after result self.old.read_faults;
        } }
    {
        match read_burst(&mut self.link, room) {
            Ok(count) => Ok(count),
            Err(Failed) => {
                self.read_faults = self.read_faults.saturating_add(1);
                Err(Failed)
            }
        }
    }
}

impl<L: CountedLink> Sink for BurstLink<L> {
    /// Writes through to the link.
    ///
    /// # Errors
    /// `Failed` where the link failed, or was not ready as often as can be counted.
    fn write(&mut self, piece: &[u8]) -> Result<usize, Failed>
        ensures bound { WritesAtMost result piece.now }
        ensures some { IfOk result (λ count. 0 < length piece.now → 0 < count) }
        ensures sink { Extends (output_over (L.output self.old.link) self.old.write_faults)
            (output_over (L.output self.new.link) self.new.write_faults) }
        ensures told { IsTrue (L.output self.old.link).told
            → bytes_appended (L.output self.old.link) (L.output self.new.link) ≡ front_of result
            piece.now }
        ensures line { L.line self.new.link ≡ L.line self.old.link }

        ensures fails { OnErr result
            (Rose (L.output self.old.link).faults (L.output self.new.link).faults ⊎
            (last_count ≤ L.not_ready self.new.link)) }
        ensures counts { self.new ≡ record self.old {
          link = self.new.link;
          write_faults = faults_after result self.old.write_faults;
        } }
    {
        match write_through(&mut self.link, piece) {
            Ok(count) => Ok(count),
            Err(Failed) => {
                self.write_faults = self.write_faults.saturating_add(1);
                Err(Failed)
            }
        }
    }
}
