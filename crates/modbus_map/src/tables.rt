//! What there is for each of the four tables of a device.
ghost use Rattle.std.specs.Prelude.{◌≡◌};
ghost use Rattle.modbus_map.specs.Gathering.{of_table};

use crate::kind::Table;

/// One for each table (V1.1b3, section 4.3).
#[derive(Debug, PartialEq, Eq, Drop)]
pub struct Tables<T> {
    pub coils: T,
    pub discrete_inputs: T,
    pub input_registers: T,
    pub holding_registers: T,
}

impl<T> Tables<T> {
    /// What there is of a table.
    pub fn of(&self, table: Table) -> &T
        ensures { result.now ≡ of_table self.now table }
    {
        match table {
            Table::Coils => &self.coils,
            Table::DiscreteInputs => &self.discrete_inputs,
            Table::InputRegisters => &self.input_registers,
            Table::HoldingRegisters => &self.holding_registers,
        }
    }
}
