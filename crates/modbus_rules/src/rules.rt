//! Which requests are allowed.
ghost use Rattle.std.specs.Prelude.{◌≡◌, ◌∷◌};
ghost use Rattle.std.specs.Option.{option_map};
ghost use Rattle.modbus_frame.specs.Meaning.{meaning};
ghost use Rattle.modbus_rules.specs.Rules.{is_between, is_among, Extent, written, covers, is_covered, may_ask, write_refusal, writes_refusal, rules_refusal, refusal, no_rules, nothing_written};

use modbus_frame::{Address, ExceptionCode, Request, SlaveId, SlaveRequest};
use std::marker::Model;

/// The first address that no slave has (MODBUS over Serial Line V1.02, section 2.2).
const RESERVED: SlaveId = 248;

/// Unit identifiers, from the first to the last, both among them.
#[derive(Clone, Copy, Debug, PartialEq, Eq)]
pub struct UnitSpan {
    /// The first.
    pub first: SlaveId,
    /// The last.
    pub last: SlaveId,
}

/// Registers and coils that may be written at some units.
#[derive(Clone, Copy, Debug, PartialEq, Eq)]
pub struct WriteSpan {
    /// The units. A broadcast is a request for unit 0, and writes at each slave of the line.
    pub units: UnitSpan,
    /// The first address.
    pub first: Address,
    /// The last address.
    pub last: Address,
}

/// What masters may do.
#[derive(Drop)]
pub struct Rules<'r> {
    /// The units that they may ask; `None` for each.
    pub units: Option<&'r [UnitSpan]>,
    /// What they may write; `None` for everything. Where it is empty, only requests are allowed that change nothing in a device.
    pub writes: Option<&'r [WriteSpan]>,
}

impl<'r> Model for Rules<'r> {
    ghost use Rattle.std.specs.Option.{option_map};
    ghost use Rattle.modbus_rules.specs.Rules.{RulesState};

    ghost Value = { RulesState };

    ghost view = { λ it. record {
      units = option_map (λ spans. spans.now) it.units;
      writes = option_map (λ spans. spans.now) it.writes;
    } };
}

/// What a request writes: the first address, and how many registers or coils.
#[derive(Clone, Copy)]
struct Extent {
    first: Address,
    count: usize,
}

/// What a request writes, where its kind tells that.
fn written(request: &Request<'_>) -> Option<Extent>
    ensures { option_map (λ at. record { first = at.first; count = at.count }) result
        ≡ written (meaning request.now) }
{
    match request {
        Request::WriteSingleCoil(first, _) => Some(one(*first)),
        Request::WriteMultipleCoils(first, coils) => Some(several(*first, coils.as_slice().len())),
        Request::WriteSingleRegister(first, _) => Some(one(*first)),
        Request::WriteMultipleRegisters(first, words) => {
            Some(several(*first, words.as_slice().len()))
        }
        Request::MaskWriteRegister(first, _, _) => Some(one(*first)),
        Request::ReadWriteMultipleRegisters(_, _, first, words) => {
            Some(several(*first, words.as_slice().len()))
        }
        _ => None,
    }
}

fn one(first: Address) -> Extent
    ensures { result ≡ record { first = first; count = 1 } }
{
    Extent { first, count: 1 }
}

fn several(first: Address, count: usize) -> Extent
    ensures { result ≡ record { first = first; count = count } }
{
    Extent { first, count }
}

impl UnitSpan {
    /// Whether the unit is one of these.
    fn has(&self, unit: SlaveId) -> bool
        ensures { result ≡ is_between self.now.first self.now.last unit }
    {
        self.first <= unit && unit <= self.last
    }
}

/// Whether the unit is one of these.
fn is_among(spans: &[UnitSpan], unit: SlaveId) -> bool
    ensures { result ≡ is_among spans.now unit }
{
    for span in spans {
        if span.has(unit) {
            return true;
        }
    }
    false
}

/// Whether all that is written at this unit lies within the span.
fn covers(span: &WriteSpan, unit: SlaveId, at: Extent) -> bool
    ensures { result
        ≡ covers span.now unit (record { first = at.first; count = at.count }) }
{
    let first = usize::from(at.first);
    let last = usize::from(span.last);
    span.units.has(unit)
        && span.first <= at.first
        && at.count <= last + 1
        && first + at.count <= last + 1
}

/// Whether one of the spans covers all that is written at this unit.
fn is_covered(spans: &[WriteSpan], unit: SlaveId, at: Extent) -> bool
    ensures { result
        ≡ is_covered spans.now unit (record { first = at.first; count = at.count }) }
{
    for span in spans {
        if covers(span, unit, at) {
            return true;
        }
    }
    false
}

/// Why a request that may change something is refused, where only these spans may be written.
fn write_refusal(spans: &[WriteSpan], unit: SlaveId, at: Option<Extent>) -> Option<ExceptionCode>
    ensures { result ≡ write_refusal spans.now unit
        (option_map (λ w. record { first = w.first; count = w.count }) at) }
{
    match at {
        Some(at) if !spans.is_empty() => {
            if is_covered(spans, unit, at) {
                None
            } else {
                Some(ExceptionCode::IllegalDataAddress)
            }
        }
        _ => Some(ExceptionCode::IllegalFunction),
    }
}

impl<'r> Rules<'r> {
    fn may_ask(&self, unit: SlaveId) -> bool
        ensures { result ≡ may_ask self.now.units unit }
    {
        match self.units {
            Some(spans) => is_among(spans, unit),
            None => true,
        }
    }

    fn writes_refusal(&self, unit: SlaveId, request: &Request<'_>) -> Option<ExceptionCode>
        ensures { result ≡ writes_refusal self.now.writes unit (meaning request.now) }
    {
        match self.writes {
            Some(spans) if !request.only_reads() => write_refusal(spans, unit, written(request)),
            _ => None,
        }
    }

    /// No rules: each request is allowed.
    pub fn none() -> Rules<'r>
        ensures { result ≡ no_rules }
    {
        Rules {
            units: None,
            writes: None,
        }
    }

    /// Each unit may be asked, and nothing written.
    pub fn read_only() -> Rules<'r>
        ensures { result ≡ nothing_written }
    {
        Rules {
            units: None,
            writes: Some(&[]),
        }
    }

    /// The exception by which these rules refuse what is asked of a unit; `None` where it is allowed.
    ///
    /// 01 (illegal function) for a unit that may not be asked; where nothing may be written; and for a function that doesn't tell what it
    /// writes. 02 (illegal data address) where a register or coil that it writes is not among those that may be written. A request that
    /// changes nothing in a device is a read (`Request::only_reads`), and a broadcast is for unit 0.
    pub fn rules_refusal(&self, unit: SlaveId, request: &Request<'_>) -> Option<ExceptionCode>
        ensures { result ≡ rules_refusal self.now unit (meaning request.now) }
    {
        if self.may_ask(unit) {
            self.writes_refusal(unit, request)
        } else {
            Some(ExceptionCode::IllegalFunction)
        }
    }

    /// The exception by which a request for the slaves of a line is refused; `None` where it is allowed.
    ///
    /// 0A (gateway path unavailable) for units 248 to 255, which no slave has (MODBUS over Serial Line V1.02, section 2.2). 01 (illegal
    /// function) for a broadcast that reads, which nobody answers. Any other by these rules, as `rules_refusal` tells.
    pub fn refusal(&self, request: &SlaveRequest<'_>) -> Option<ExceptionCode>
        ensures { result ≡ refusal self.now request.now.slave (meaning request.now.request) }
    {
        if request.slave >= RESERVED {
            Some(ExceptionCode::GatewayPathUnavailable)
        } else if request.slave == 0 && request.request.only_reads() {
            Some(ExceptionCode::IllegalFunction)
        } else {
            self.rules_refusal(request.slave, &request.request)
        }
    }
}
