//! A law on what a device says of itself, about definitions alone. It is proved by its contract, and its body is empty.
ghost use Rattle.std.specs.Prelude.{◌≤◌, ℕ};
ghost use Rattle.modbus_pdu.specs.Limits.{max_pdu};
ghost use Rattle.modbus_pdu.specs.ResponseLaws.{response_size};
ghost use Rattle.modbus_frame.specs.declared.code.ReadCode.{ReadCode};
ghost use Rattle.modbus_frame.specs.declared.identification.ReadDeviceIdentificationResponse.{ReadDeviceIdentificationResponse};
ghost use Rattle.modbus_frame.specs.declared.response.Response.TheVariants as response;
ghost use Rattle.std.specs.Prelude.{Ok, true};
ghost use Rattle.modbus_diagnostics.specs.IdentityAnswers.{FindsObjects};
ghost use Rattle.modbus_diagnostics.specs.Identity.{IdentityState, IsIdentity};

/// What is said of an identity fits a PDU.
pub fn identities_fit()
    ensures report { (it : IdentityState) → IsIdentity it
        → response_size (response.ReportServerId it.server_id true it.extra) ≤ max_pdu }
    ensures objects { (it : IdentityState) (code : ReadCode) (id : ℕ)
        (found : ReadDeviceIdentificationResponse) → IsIdentity it
        → FindsObjects it.objects code id (Ok found)
        → response_size (response.ReadDeviceIdentification found) ≤ max_pdu }
{}
