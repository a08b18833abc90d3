//! Laws on what a port gives, about definitions alone. Each is proved by its contract.
ghost use Rattle.modbus_port.specs.Port.{GivesServed};

/// However many peers came before and whoever they were: each link that a port gives is that of a peer which is served, by the address that the
/// system told of it. So no other peer has a request answered.
pub fn links_are_of_served_peers()
    ensures { GivesServed }
{}
