//! Laws on the runs of services behind rules, about definitions alone. Each is proved by its contract.
ghost use Rattle.modbus_rules.specs.Restricted.{RestrictedRuns};

use modbus_service::Service;

/// Whatever is asked of a service behind rules: it has the requests that these allow and no other, in their order, and each other request is
/// answered by the exception of its refusal. So no function that writes changes what may only be read, a broadcast neither.
pub fn only_what_is_allowed_is_asked<H, S: Service>()
    ensures { RestrictedRuns H S.answers S.takes_memory }
{}
