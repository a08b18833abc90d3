//! A look at a line, or at the link of a client: whether something came that was not asked for.
ghost use Rattle.std.specs.Prelude.{◌≡◌};
ghost use Rattle.modbus_link.specs.Room.{read_room};
ghost use Rattle.modbus_reconnect.specs.Settles.{DropsNoise};

use crate::settling::Unsettled;
use modbus_client::{IdleLink, LinkClient, Protocol};
use modbus_link::{Failed, Polled, READ_ROOM};

/// Looks at a line, and drops what came: so many bytes, 0 where nothing did.
///
/// # Errors
/// `ReadFault` only where the link's count of read faults rose. `Ended` where a link that tells its bytes has none left.
pub(crate) fn look_at<L: IdleLink>(link: &mut L) -> Result<usize, Unsettled>
    ensures drops { DropsNoise 1 read_room (L.input link.old) (L.input link.new)
        (L.looks link.old) (L.looks link.new) result }
    ensures sink { L.output link.new ≡ L.output link.old }
    ensures line { L.line link.new ≡ L.line link.old }
{
    let mut room = [0; READ_ROOM];
    match link.look(&mut room) {
        Ok(Polled::Pending) => Ok(0),
        Ok(Polled::Ready(0)) => Err(Unsettled::Ended),
        Ok(Polled::Ready(count)) => Ok(count),
        Err(Failed) => Err(Unsettled::ReadFault),
    }
}

/// The same at the link of a client, which stays as it is otherwise.
///
/// # Errors
/// As `look_at`.
pub(crate) fn look_at_client<P: Protocol, L: IdleLink>(
    client: &mut LinkClient<P, L>,
) -> Result<usize, Unsettled>
    ensures drops { DropsNoise 1 read_room (L.input client.old.link) (L.input client.new.link)
        (L.looks client.old.link) (L.looks client.new.link) result }
    ensures sink { L.output client.new.link ≡ L.output client.old.link }
    ensures line { L.line client.new.link ≡ L.line client.old.link }
    ensures rest { client.new ≡ record client.old { link = client.new.link } }
{
    let mut room = [0; READ_ROOM];
    match client.look(&mut room) {
        Ok(Polled::Pending) => Ok(0),
        Ok(Polled::Ready(0)) => Err(Unsettled::Ended),
        Ok(Polled::Ready(count)) => Ok(count),
        Err(Failed) => Err(Unsettled::ReadFault),
    }
}
