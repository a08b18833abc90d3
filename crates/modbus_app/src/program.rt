//! The top call.
ghost use Rattle.std.specs.Prelude.{◌≡◌, ◌≢◌, ◌↔◌, ◌⊎◌, ◌<◌, ◌≤◌, ◌-◌, ◌^◌, ℕ, [], Ok, Err, Some, None, IfSome, IsTrue, length, map, string_bytes};
ghost use Rattle.modbus_link.specs.Outside.{Input, Rose, bytes_appended, cuts_made};
ghost use Rattle.modbus_link.specs.Reads.{totals};
ghost use Rattle.modbus_server.specs.declared.error.ProcessError.TheVariants.{ResponseTooLong};
ghost use Rattle.modbus_server.specs.Complete.{IsCleanLine};
ghost use Rattle.modbus_server.specs.Step.{Ran};
ghost use Rattle.modbus_store.specs.Step.{device};
ghost use Rattle.modbus_app.specs.Words.{task_asked, most_entries, most_requests, IsUsage, IsWithinLimits};
ghost use Rattle.modbus_app.specs.declared.words.Form.{Form};
ghost use Rattle.modbus_app.specs.declared.words.Task.TheVariants.{Serve, Make, Plan};
ghost use Rattle.modbus_app.specs.Device.{EndsServing, messages_of};
ghost use Rattle.modbus_app.specs.Make.{summary};
ghost use Rattle.modbus_app.specs.Ends.{IsUsageFault, EndsProgram, MakesRequests, PlansReads};
ghost use Rattle.modbus_app.specs.Plan.{items_named};
ghost use Rattle.modbus_server.specs.Moment.{moment};

use crate::device::open;
use crate::make::make;
use crate::plan::tell_plan;
use crate::status::{NO_MEMORY, USAGE, USAGE_LINE, report_fault, status};
use crate::words::{Form, Mode, Task, read_words};
use modbus_ascii::ascii;
use modbus_link::{Sink, Source};
use modbus_port::report;
use modbus_server::{ProcessError, rtu_over_tcp, tcp};
use modbus_store::RegisterStore;
use std::alloc::Global;

/// Serves a device by frames of a serial line or by ADUs, with no limit of turns but that of a `u64`.
fn serve<S: Source, K: Sink>(
    alloc: Global,
    mode: Mode,
    store: &mut RegisterStore,
    source: &mut S,
    sink: &mut K,
) -> Result<(), ProcessError>
    ensures ran { Ran (messages_of mode) device (2 ^ 64 - 1)
        (moment store.old (S.input source.old) (K.output sink.old))
        (moment store.new (S.input source.new) (K.output sink.new)) result }
    ensures fits { (size : ℕ) → result ≢ Err (ResponseTooLong size) }
    ensures complete { IsTrue (S.input source.old).told
        → IsCleanLine (messages_of mode) (S.input source.old).left
        → length (S.input source.old).left < 2 ^ 64 - 1
        → (Rose (S.input source.old).faults (S.input source.new).faults → ⊥)
        → (Rose (K.output sink.old).faults (K.output sink.new).faults → ⊥)
        → (result ≡ Ok tt) ⊎ (result ≡ Err ProcessError.NoMemory) }
{
    modbus_store::laws::answers_fit();
    match mode {
        Mode::Rtu => rtu_over_tcp::process(alloc, source, sink, store, u64::MAX),
        Mode::Ascii => ascii::process(alloc, source, sink, store, u64::MAX),
        Mode::Tcp => tcp::process(alloc, source, sink, store, u64::MAX),
    }
}

/// Serves the device of a form, and answers the status, which it tells.
fn serve_form<S: Source, K: Sink, E: Sink>(
    alloc: Global,
    form: Form,
    source: &mut S,
    sink: &mut K,
    errors: &mut E,
) -> u8
    requires { form.size ≤ most_entries }
    ensures not_usage { result ≢ 2 }
    ensures ok { result ≡ 0 → IsTrue (S.input source.old).told → IsTrue (K.output sink.old).told
        → EndsServing form (S.input source.old).left
        (totals (cuts_made (S.input source.old) (S.input source.new)))
        (bytes_appended (K.output sink.old) (K.output sink.new)) (Ok tt)
        × ((S.input source.new).left ≡ []) }
    ensures ends { EndsProgram form (S.input source.old) (S.input source.new) (K.output sink.old)
        (K.output sink.new) (E.output errors.old) (E.output errors.new) result }
    ensures complete { IsTrue (S.input source.old).told
        → IsCleanLine (messages_of form.mode) (S.input source.old).left
        → length (S.input source.old).left < 2 ^ 64 - 1
        → (Rose (S.input source.old).faults (S.input source.new).faults → ⊥)
        → (Rose (K.output sink.old).faults (K.output sink.new).faults → ⊥)
        → (result ≡ 0) ⊎ (result ≡ 11) }
{
    let Ok(mut store) = open(alloc, form) else {
        report_fault(errors, ProcessError::NoMemory);
        return NO_MEMORY;
    };
    match serve(alloc, form.mode, &mut store, source, sink) {
        Ok(()) => 0,
        Err(error) => {
            report_fault(errors, error);
            status(error)
        }
    }
}

/// Makes so many requests, appends their summary to the sink, and answers the status, which it tells.
fn sum_up<K: Sink, E: Sink>(alloc: Global, count: u32, sink: &mut K, errors: &mut E) -> u8
    requires { count ≤ most_requests }
    ensures not_usage { result ≢ 2 }
    ensures makes { (input : Input) → MakesRequests count input input (K.output sink.old)
        (K.output sink.new) (E.output errors.old) (E.output errors.new) result }
{
    match make(alloc, count, sink) {
        Ok(()) => 0,
        Err(error) => {
            report_fault(errors, error);
            status(error)
        }
    }
}

/// Appends the plan for the items that words name to the sink, and answers the status, which it tells.
fn plan<K: Sink, E: Sink>(alloc: Global, words: &[String], sink: &mut K, errors: &mut E) -> u8
    ensures not_usage { result ≢ 2 }
    ensures plans { (input : Input) → PlansReads (items_named (map string_bytes words.now)) input input
        (K.output sink.old) (K.output sink.new) (E.output errors.old) (E.output errors.new) result }
{
    match tell_plan(alloc, words, sink) {
        Ok(()) => 0,
        Err(error) => {
            report_fault(errors, error);
            status(error)
        }
    }
}

/// Does what was asked for, and answers the status, as `run` does. The words are those that name the items of a plan.
pub fn run_task<S: Source, K: Sink, E: Sink>(
    alloc: Global,
    task: Option<Task>,
    words: &[String],
    source: &mut S,
    sink: &mut K,
    errors: &mut E,
) -> u8
    requires limits { IfSome task IsWithinLimits }
    ensures usage { (result ≡ 2) ↔ IsUsage task }
    ensures refused { IsUsage task
        → IsUsageFault (S.input source.old) (S.input source.new) (K.output sink.old)
        (K.output sink.new) (E.output errors.old) (E.output errors.new) }
    ensures ok { (form : Form) → task ≡ Some (Serve form) → result ≡ 0
        → IsTrue (S.input source.old).told → IsTrue (K.output sink.old).told
        → EndsServing form (S.input source.old).left
        (totals (cuts_made (S.input source.old) (S.input source.new)))
        (bytes_appended (K.output sink.old) (K.output sink.new)) (Ok tt)
        × ((S.input source.new).left ≡ []) }
    ensures ends { (form : Form) → task ≡ Some (Serve form)
        → EndsProgram form (S.input source.old) (S.input source.new) (K.output sink.old)
        (K.output sink.new) (E.output errors.old) (E.output errors.new) result }
    ensures complete { (form : Form) → task ≡ Some (Serve form)
        → IsTrue (S.input source.old).told
        → IsCleanLine (messages_of form.mode) (S.input source.old).left
        → length (S.input source.old).left < 2 ^ 64 - 1
        → (Rose (S.input source.old).faults (S.input source.new).faults → ⊥)
        → (Rose (K.output sink.old).faults (K.output sink.new).faults → ⊥)
        → (result ≡ 0) ⊎ (result ≡ 11) }
    ensures made { (count : ℕ) → task ≡ Some (Make count) → result ≡ 0
        → IsTrue (K.output sink.old).told
        → bytes_appended (K.output sink.old) (K.output sink.new) ≡ summary count }
    ensures makes { (count : ℕ) → task ≡ Some (Make count)
        → MakesRequests count (S.input source.old) (S.input source.new) (K.output sink.old)
        (K.output sink.new) (E.output errors.old) (E.output errors.new) result }
    ensures made_unless { (count : ℕ) → task ≡ Some (Make count)
        → (Rose (K.output sink.old).faults (K.output sink.new).faults → ⊥)
        → (result ≡ 0) ⊎ (result ≡ 11) }
    ensures plans { task ≡ Some Plan
        → PlansReads (items_named (map string_bytes words.now)) (S.input source.old) (S.input source.new)
        (K.output sink.old) (K.output sink.new) (E.output errors.old) (E.output errors.new) result }
{
    match task {
        Some(Task::Serve(form)) => serve_form(alloc, form, source, sink, errors),
        Some(Task::Make(count)) => sum_up(alloc, count, sink, errors),
        Some(Task::Plan) => plan(alloc, words, sink, errors),
        Some(Task::Listen(_, _) | Task::Forward(_)) | None => {
            report(errors, USAGE_LINE);
            USAGE
        }
    }
}

/// Runs the program with the words after its name, and answers its status.
///
/// With the words `rtu`, `rtu size` or `rtu size seeded` it serves RTU frames, with a device of four tables of so many entries (1024
/// where no size is given), which hold 0 at first or a pattern; a broadcast has its effect and no answer. With `ascii` or `ascii size` it
/// serves ASCII frames in the same way. With `tcp` or `tcp size` it serves ADUs with an MBAP header, and unit 0 is answered like any other.
///
/// With `plan` and any number of items `address:width` it writes the reads of few registers that give all these items, as
/// `modbus_poll::plan_reads` plans them: `read`, the address and the count of each on a line, and `reads` and how many they are. The input
/// is not read, and there are the statuses 0, 4 and 11 alone.
///
/// With `make n` it makes n requests, serves them over memory with a device of its own, and writes a summary of the replies: how many
/// requests, how many bytes, and the sum of these bytes. The input is not read, and there are the statuses 0, 4 and 11 alone.
///
/// A status other than 0 is told by a line of text on `errors`; where that fails, the line is cut short and the status stays.
///
/// | Status | When |
/// |---|---|
/// | 0 | the input ended, with no frame or ADU begun, and all were answered; for `make`, the summary was written |
/// | 2 | the words are others, those that ask to listen or to forward among them |
/// | 3, 4 | the source, the sink failed |
/// | 5 | twenty offsets in a row, which came with one read, have no frame |
/// | 6 | the input ended within a frame or ADU |
/// | 7 | the PDU of a frame or ADU is no request |
/// | 8 | as many reads gave bytes as a `u64` counts |
/// | 9 | the header of an ADU tells a length of 0 |
/// | 10 | an ADU is of another protocol than Modbus |
/// | 11 | memory was refused |
pub fn run<S: Source, K: Sink, E: Sink>(
    alloc: Global,
    words: &[String],
    source: &mut S,
    sink: &mut K,
    errors: &mut E,
) -> u8
    ensures usage { (result ≡ 2) ↔ IsUsage (task_asked words.now) }
    ensures refused { IsUsage (task_asked words.now)
        → IsUsageFault (S.input source.old) (S.input source.new) (K.output sink.old)
        (K.output sink.new) (E.output errors.old) (E.output errors.new) }

    // Status 0: the input ended with no uncovered offset open, with no `:` open, or with nothing left after its ADUs. What was appended is exactly the
    // replies of one run of the device to the leftmost frames, or to the ADUs, of the whole input in order, each framed for its request's
    // slave or under its header.
    ensures ok { (form : Form) → task_asked words.now ≡ Some (Serve form) → result ≡ 0
        → IsTrue (S.input source.old).told → IsTrue (K.output sink.old).told
        → EndsServing form (S.input source.old).left
        (totals (cuts_made (S.input source.old) (S.input source.new)))
        (bytes_appended (K.output sink.old) (K.output sink.new)) (Ok tt)
        × ((S.input source.new).left ≡ []) }

    // Each status is that of an answer of the server, with its cause, what was answered before it, and its text.
    ensures ends { (form : Form) → task_asked words.now ≡ Some (Serve form)
        → EndsProgram form (S.input source.old) (S.input source.new) (K.output sink.old)
        (K.output sink.new) (E.output errors.old) (E.output errors.new) result }

    // A clean line is served to its end.
    ensures complete { (form : Form) → task_asked words.now ≡ Some (Serve form)
        → IsTrue (S.input source.old).told
        → IsCleanLine (messages_of form.mode) (S.input source.old).left
        → length (S.input source.old).left < 2 ^ 64 - 1
        → (Rose (S.input source.old).faults (S.input source.new).faults → ⊥)
        → (Rose (K.output sink.old).faults (K.output sink.new).faults → ⊥)
        → (result ≡ 0) ⊎ (result ≡ 11) }

    // Of `make`, with status 0, the summary of so many requests was appended, and else a front of it; nothing was read, and there is no
    // fault but one of the sink.
    ensures made { (count : ℕ) → task_asked words.now ≡ Some (Make count) → result ≡ 0
        → IsTrue (K.output sink.old).told
        → bytes_appended (K.output sink.old) (K.output sink.new) ≡ summary count }
    ensures makes { (count : ℕ) → task_asked words.now ≡ Some (Make count)
        → MakesRequests count (S.input source.old) (S.input source.new) (K.output sink.old)
        (K.output sink.new) (E.output errors.old) (E.output errors.new) result }
    ensures made_unless { (count : ℕ) → task_asked words.now ≡ Some (Make count)
        → (Rose (K.output sink.old).faults (K.output sink.new).faults → ⊥)
        → (result ≡ 0) ⊎ (result ≡ 11) }

    // Of `plan`, the reads of the plan for the items were told, each on a line, and how many they are; nothing was read, and there is no
    // fault but one of the sink.
    ensures plans { task_asked words.now ≡ Some Plan
        → PlansReads (items_named (map string_bytes words.now)) (S.input source.old) (S.input source.new)
        (K.output sink.old) (K.output sink.new) (E.output errors.old) (E.output errors.new) result }
{
    run_task(alloc, read_words(words), words, source, sink, errors)
}
