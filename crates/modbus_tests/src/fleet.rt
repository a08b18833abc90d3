//! A device that is asked, before and after it has a link, and a fleet from which devices go.

use crate::check::check;
use crate::links::{READ_ONE, link_of};
use modbus_client::rtu::Frames;
use modbus_fleet::{Device, Fleet};
use modbus_frame::Slave;
use modbus_link::MemoryLink;
use modbus_ready::ScheduledReadiness;
use std::test::Fail;

#[test]
fn a_device_with_a_link_is_idle(rt: HostRuntime) -> Result<(), Fail> {
    let mut device: Device<'_, Frames, MemoryLink> = Device::new(Slave(1), 64, 1000);
    check(&rt, (device.is_away(), device.is_idle()), (true, false));
    device.connect(link_of(rt.alloc(), &READ_ONE, &[])?);
    check(&rt, (device.is_away(), device.is_idle()), (false, true));
    Ok(())
}

type Devices = Fleet<'static, Frames, MemoryLink, ScheduledReadiness>;

/// Takes the device under a key out; whether there was one.
fn goes(fleet: &mut Devices, key: usize) -> bool {
    fleet.remove(key).is_some()
}

#[test]
fn a_device_that_goes_leaves_its_key(rt: HostRuntime) -> Result<(), Fail> {
    let readiness = ScheduledReadiness::new(rt.alloc(), &[])?;
    let mut fleet: Devices = Fleet::new(rt.alloc(), readiness);
    let first = fleet.add(Device::new(Slave(1), 64, 1000))?;
    let second = fleet.add(Device::new(Slave(2), 64, 1000))?;
    check(
        &rt,
        (goes(&mut fleet, first), goes(&mut fleet, first)),
        (true, false),
    );
    check(
        &rt,
        (fleet.len(), fleet.device(second).is_some()),
        (1, true),
    );
    check(&rt, fleet.add(Device::new(Slave(3), 64, 1000))?, first);
    Ok(())
}
