//! Laws on what such an acceptor gives, about definitions alone. Each is proved by its contract.
ghost use Rattle.modbus_admission.specs.Admits.{GivesAdmitted};

use modbus_ready::{Peered, PolledAcceptor};

/// However many peers came before and whoever they were: each link that is given is that of a peer which may come, by the address that the link
/// tells of it. So no other peer has a request answered.
pub fn links_are_of_admitted_peers<A: PolledAcceptor>()
where
    A::Link: Peered,
    ensures { GivesAdmitted A.accepts A.Link.peer }
{}
