//! A service that has files.
ghost use Rattle.std.specs.Prelude.{◌≡◌, ◌∷◌, ◌≤◌, length, IfOk};
ghost use Rattle.modbus_frame.specs.Meaning.{meaning};
ghost use Rattle.modbus_files.specs.Files.{is_write, read_outcome, write_outcome, after_write, files_after, TellsFiles};
ghost use Rattle.modbus_files.specs.Filed.{call_of, bytes_of, filed_answers, filed_takes};

use crate::answer::is_read;
use crate::files::Files;
use arrayvec::ArrayVec;
use bytes::Bytes;
use modbus_frame::function_code::{READ_FILE_RECORD, WRITE_FILE_RECORD};
use modbus_frame::{ExceptionCode, Request, Response, SlaveRequest};
use modbus_service::{Service, ServiceError};
use std::alloc::{AllocError, Global};

/// What a request asks of files.
#[derive(Clone, Copy, Debug, PartialEq, Eq)]
enum FileCall {
    /// Read File Record (section 6.14).
    Read,
    /// Write File Record (section 6.15).
    Write,
    /// Nothing.
    Other,
}

/// What a request asks of files.
fn call_of(request: &Request<'_>) -> FileCall
    ensures { result ≡ call_of (meaning request.now) }
{
    match request {
        Request::Custom(READ_FILE_RECORD, _) => FileCall::Read,
        Request::Custom(WRITE_FILE_RECORD, _) => FileCall::Write,
        _ => FileCall::Other,
    }
}

/// The bytes of such a request behind its function code.
fn bytes_of<'r>(request: &'r Request<'_>) -> &'r [u8]
    ensures { result.now ≡ bytes_of (meaning request.now) }
{
    match request {
        Request::Custom(_, bytes) => bytes.as_slice(),
        _ => &[],
    }
}

/// Bytes behind their number.
fn counted(alloc: Global, told: &[u8]) -> Result<Bytes, AllocError>
    requires { length told.now ≤ 255 }
    ensures { IfOk result (λ bytes. bytes ≡ length told.now ∷ told.now) }
{
    let mut bytes = Vec::with_capacity(alloc, 1 + told.len())?;
    bytes.push(told.len() as u8)?;
    bytes.extend_from_slice(told)?;
    Bytes::copy_from_slice(alloc, bytes.as_slice())
}

/// Whether the data of a request to write is a byte count and as many bytes as fit.
fn is_write(asked: &[u8]) -> bool
    ensures { result ≡ is_write asked.now }
{
    match asked {
        [count, groups @ ..] => {
            let size = usize::from(*count);
            size == groups.len() && size >= 9 && size <= 251
        }
        [] => false,
    }
}

impl Files {
    /// The answer to a request with this data that reads records.
    ///
    /// # Errors
    /// Its exception, or refused memory.
    pub fn read(&self, alloc: Global, asked: &[u8]) -> Result<Option<Response>, ServiceError>
        ensures { TellsFiles (read_outcome self.now asked.now) result }
    {
        if !is_read(asked) {
            return Err(ServiceError::Exception(ExceptionCode::IllegalDataValue));
        }
        let mut told = ArrayVec::new();
        match self.tell_all(&asked[1..], &mut told) {
            Ok(()) => {
                let data = counted(alloc, told.as_slice())?;
                Ok(Some(Response::Custom(READ_FILE_RECORD, data)))
            }
            Err(code) => Err(ServiceError::Exception(code)),
        }
    }

    /// The answer to a request with this data that writes records: all of its groups are written, or none.
    ///
    /// # Errors
    /// Its exception, or refused memory; the files are as they were then.
    pub fn write(&mut self, alloc: Global, asked: &[u8]) -> Result<Option<Response>, ServiceError>
        ensures tells { TellsFiles (write_outcome self.old asked.now) result }
        ensures writes { self.new ≡ files_after result self.old (after_write self.old asked.now) }
    {
        if !is_write(asked) {
            return Err(ServiceError::Exception(ExceptionCode::IllegalDataValue));
        }
        match self.check(&asked[1..]) {
            Ok(()) => {
                let data = Bytes::copy_from_slice(alloc, asked)?;
                self.write_all(&asked[1..]);
                Ok(Some(Response::Custom(WRITE_FILE_RECORD, data)))
            }
            Err(code) => Err(ServiceError::Exception(code)),
        }
    }
}

/// A service that has files: what reads or writes records is answered by these, all else is asked of the service.
///
/// As `Identified` of modbus_diagnostics it stands behind the address of its unit, and behind `StandardAnswers`.
#[derive(Drop)]
pub struct Filed<S> {
    /// The files.
    pub files: Files,
    /// What answers all else.
    pub service: S,
}

impl<S: Service> Service for Filed<S> {
    ghost answers = { filed_answers S.answers };

    ghost takes_memory = { filed_takes S.takes_memory };

    fn call(
        &mut self,
        alloc: Global,
        request: SlaveRequest<'_>,
    ) -> Result<Option<Response>, ServiceError> {
        match call_of(&request.request) {
            FileCall::Read => self.files.read(alloc, bytes_of(&request.request)),
            FileCall::Write => self.files.write(alloc, bytes_of(&request.request)),
            FileCall::Other => self.service.call(alloc, request),
        }
    }
}
