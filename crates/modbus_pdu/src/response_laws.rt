//! Laws of the responses and exceptions that are written and read.
ghost use Rattle.std.specs.Prelude.{◌≡◌, length};
ghost use Rattle.modbus_frame.specs.declared.response.ExceptionResponse.{ExceptionResponse};
ghost use Rattle.modbus_frame.specs.declared.response.Response.{Response};
ghost use Rattle.modbus_pdu.specs.ResponseLaws.{ExceptionReadsBack, ResponseReadsBack, ResultReadsBack, response_size};
ghost use Rattle.modbus_pdu.specs.ResponsePdu.{response_pdu};

/// The PDU of a response that fits is read as that response, with its coils filled by false to a
/// multiple of eight. The PDU of an exception is read as that exception.
pub fn responses_read_back()
    ensures response { (r : Response) → ResponseReadsBack r }
    ensures result { (r : Response) → ResultReadsBack r }
    ensures exception { (e : ExceptionResponse) → ExceptionReadsBack e }
{}

/// The size of a PDU, by the kind of its response.
pub fn responses_have_sizes()
    ensures { (r : Response) → length (response_pdu r) ≡ response_size r }
{}
