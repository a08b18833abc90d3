//! A client by the kind of link that its device is reached by.
ghost use Rattle.modbus_plant.specs.Linked.{selects_of, sets_slave, calls_as, disconnects_as, limit_of, limits_as};

use modbus_client::Client;
use modbus_frame::{Request, Response, Result as Answer, ShutdownFault, Slave, SlaveContext};
use std::time::Duration;

/// A client of one of four types, by the link to its device. Each call is that of the client in it, and it stays of its type.
#[derive(Drop)]
pub enum LinkedClient<T, R, S, E> {
    /// By Modbus TCP.
    Tcp(T),
    /// By RTU frames over TCP.
    RtuOverTcp(R),
    /// On a serial line.
    Serial(S),
    /// On a serial line whose adapter gives back what is sent.
    Echoed(E),
}

impl<T: SlaveContext, R: SlaveContext, S: SlaveContext, E: SlaveContext> SlaveContext
    for LinkedClient<T, R, S, E> {
    ghost selected = { selects_of T.selected R.selected S.selected E.selected };

    ghost set_slave_gives = { sets_slave T.set_slave_gives R.set_slave_gives S.set_slave_gives E.set_slave_gives };

    fn set_slave(&mut self, slave: Slave) {
        match self {
            LinkedClient::Tcp(client) => client.set_slave(slave),
            LinkedClient::RtuOverTcp(client) => client.set_slave(slave),
            LinkedClient::Serial(client) => client.set_slave(slave),
            LinkedClient::Echoed(client) => client.set_slave(slave),
        }
    }
}

impl<T: Client, R: Client, S: Client, E: Client> Client for LinkedClient<T, R, S, E> {
    ghost answers = { calls_as T.answers R.answers S.answers E.answers };

    ghost disconnects = { disconnects_as T.disconnects R.disconnects S.disconnects E.disconnects };

    ghost time_limit = { limit_of T.time_limit R.time_limit S.time_limit E.time_limit };

    ghost limits = { limits_as T.limits R.limits S.limits E.limits };

    fn call(&mut self, request: Request<'_>) -> Answer<Response> {
        match self {
            LinkedClient::Tcp(client) => client.call(request),
            LinkedClient::RtuOverTcp(client) => client.call(request),
            LinkedClient::Serial(client) => client.call(request),
            LinkedClient::Echoed(client) => client.call(request),
        }
    }

    fn disconnect(&mut self) -> Result<(), ShutdownFault> {
        match self {
            LinkedClient::Tcp(client) => client.disconnect(),
            LinkedClient::RtuOverTcp(client) => client.disconnect(),
            LinkedClient::Serial(client) => client.disconnect(),
            LinkedClient::Echoed(client) => client.disconnect(),
        }
    }

    fn timeout(&self) -> Option<Duration> {
        match self {
            LinkedClient::Tcp(client) => client.timeout(),
            LinkedClient::RtuOverTcp(client) => client.timeout(),
            LinkedClient::Serial(client) => client.timeout(),
            LinkedClient::Echoed(client) => client.timeout(),
        }
    }

    fn set_timeout(&mut self, duration: Option<Duration>) {
        match self {
            LinkedClient::Tcp(client) => client.set_timeout(duration),
            LinkedClient::RtuOverTcp(client) => client.set_timeout(duration),
            LinkedClient::Serial(client) => client.set_timeout(duration),
            LinkedClient::Echoed(client) => client.set_timeout(duration),
        }
    }
}
