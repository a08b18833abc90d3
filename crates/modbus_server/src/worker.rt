//! One connection as work that can be handed over, whatever frames its messages.
ghost use Rattle.std.specs.Prelude.{◌≡◌, ◌-◌, ◌^◌};
ghost use Rattle.modbus_server.specs.Complete.{Completes};
ghost use Rattle.modbus_server.specs.Listener.{WorkerState, IsTold, WorksOnce};
ghost use Rattle.modbus_server.specs.Signal.{RanUntil, to_the_end};
ghost use Rattle.modbus_server.specs.Moment.{moment, watched, signalled};

use crate::error::ProcessError;
use crate::framing::Framing;
use crate::serving::serve_until;
use modbus_frame::Terminated;
use modbus_link::{Link, Stop, Worker};
use modbus_service::Answerer;
use std::alloc::Global;
use std::marker::{Model, PhantomData};

/// The link of one connection, the service that answers it, a hook for its error and a signal to stop.
///
/// It keeps the allocator that its connection takes memory of.
#[derive(Drop)]
pub struct ConnectionWorker<I, L, V, H, X> {
    alloc: Global,
    link: L,
    service: V,
    on_process_error: H,
    abort_signal: X,
    framing: PhantomData<I>,
}

/// A contract sees the link, the service, the hook and the signal.
impl<I, L, V, H, X> Model for ConnectionWorker<I, L, V, H, X> {
    ghost use Rattle.modbus_server.specs.Listener.{WorkerState};

    ghost Value = { WorkerState L V H X };

    ghost view = { λ worker. record {
      link = worker.link;
      service = worker.service;
      on_process_error = worker.on_process_error;
      signal = worker.abort_signal;
    } };
}

impl<I: Framing, L: Link, V: Answerer, H: Fn(ProcessError), X: Stop> ConnectionWorker<
    I,
    L,
    V,
    H,
    X,
> {
    /// A worker that has done nothing. It takes no memory.
    pub fn new(
        alloc: Global,
        link: L,
        service: V,
        on_process_error: H,
        abort_signal: X,
    ) -> ConnectionWorker<I, L, V, H, X>
        ensures { result ≡ record {
          link = link;
          service = service;
          on_process_error = on_process_error;
          signal = abort_signal;
        } }
    {
        ConnectionWorker {
            alloc,
            link,
            service,
            on_process_error,
            abort_signal,
            framing: PhantomData,
        }
    }

    /// Serves the worker's link with its service until its input ends, which is `Finished`, or until its signal is set, which is
    /// `Aborted`. It does what `process` of its framing does, with the link as source and sink, and lets as many reads give bytes as a
    /// `u64` counts.
    ///
    /// The signal is looked at before each step: before each request that is answered, and before each read. What has begun is done, so
    /// no reply is cut short by a stop, and a read that waits is not woken.
    ///
    /// # Errors
    /// Those of `process`, with the same causes, where no look said that the signal is set.
    pub fn work(&mut self) -> Result<Terminated, ProcessError>
        ensures ran { RanUntil I.framing V.answering (signalled X.stops X.looks) (2 ^ 64 - 1)
            (watched self.old.service (L.input self.old.link) (L.output self.old.link)
            self.old.signal)
            (watched self.new.service (L.input self.new.link) (L.output self.new.link)
            self.new.signal) result }
        ensures complete { Completes I.framing V.answering (2 ^ 64 - 1)
            (moment self.old.service (L.input self.old.link) (L.output self.old.link))
            (moment self.new.service (L.input self.new.link) (L.output self.new.link))
            (to_the_end result) }
        ensures hook { self.new.on_process_error ≡ self.old.on_process_error }
    {
        serve_until::<I, L, V, X>(
            self.alloc,
            &mut self.link,
            &mut self.service,
            &mut self.abort_signal,
            u64::MAX,
        )
    }

    /// Hands the error of the work to the hook, where there is one.
    fn tell(&self, answer: Result<Terminated, ProcessError>)
        requires { H.IsAlwaysCallable self.now.on_process_error }
        ensures { IsTold (H.post self.now.on_process_error) answer }
    {
        match answer {
            Ok(_) => {}
            Err(error) => (self.on_process_error)(error),
        }
    }
}

impl<
    I: Framing,
    L: Link + Drop,
    V: Answerer + Drop,
    H: Fn(ProcessError) + Copy,
    X: Stop + Drop,
> Worker for ConnectionWorker<I, L, V, H, X> {
    ghost ready = { λ worker. H.IsAlwaysCallable worker.on_process_error };

    /// Serves the link as `work` does, once, and hands its error to the hook.
    fn run(mut self)
        requires ready { H.IsAlwaysCallable self.on_process_error }
        ensures worked { WorksOnce (λ (after : WorkerState L V H X) result. RanUntil I.framing
            V.answering (signalled X.stops X.looks) (2 ^ 64 - 1)
            (watched self.service (L.input self.link) (L.output self.link) self.signal)
            (watched after.service (L.input after.link) (L.output after.link) after.signal) result)
            (H.post self.on_process_error) }
    {
        let answer = self.work();
        self.tell(answer);
    }
}
