//! Sends a file as one message: what `amqp send` does.
//!
//! Begin reading at [`send_file`], which opens the file and the connection. `send` sends a message over any devices with
//! `amqp_send`, and waits for its fate. `why` hears the error of a receiver that does not accept it. The tests are in
//! `test_amqp`.
#![tactic(auto)]

mod send;
mod why;

use amqp_frame::Device;
use amqp_send::{SendConfig, Sender};
pub use send::{Fate, SendFault, send_all, send_all_heard};
use std::alloc::{AllocError, Global};
use std::io::Read;
use std::net::{Net, OpenStream, TcpStream};
use std::rt::Files;
use std::{fs, io};
use thiserror::Error;
pub use why::{Deaf, Listen, Why};

/// The container-id of the sender, and the name of its link.
const NAME: &str = "send";

/// Why a file was not sent to its end.
#[derive(Debug, Drop, Error)]
pub enum FileFault {
    /// The file or the connection can't be opened.
    #[error("Open")]
    Open,
    /// The file can't be read.
    #[error("Read")]
    Read,
    #[error("NoMemory")]
    NoMemory,
    #[error(transparent)]
    Send(SendFault),
}

/// Sends a file as one message to the listener at `address`, and returns what became of it. `why` hears what the
/// listener says of that.
///
/// # Errors
///
/// `Open` if the file or the connection can't be opened, `Read` if the file can't be read,
/// `NoMemory` if memory is refused, and `Send` if a device has failed.
pub fn send_file<R: Net + Files + AllocGlobal>(
    rt: &R,
    address: &str,
    path: &str,
    why: &mut Why,
) -> Result<Fate, FileFault> {
    let alloc = rt.alloc();
    let message = read_file(rt, path)?;
    let Ok(stream) = TcpStream::connect(rt, address) else {
        return Err(FileFault::Open);
    };
    let _ = stream.set_nodelay(true);
    let Ok(other) = stream.try_clone() else {
        return Err(FileFault::Open);
    };
    let mut sender = match new_sender(alloc) {
        Ok(sender) => sender,
        Err(_) => return Err(FileFault::NoMemory),
    };
    let mut reader = Device::new(stream);
    let mut writer = Device::new(other);
    match send_all_heard(&mut sender, why, &mut reader, &mut writer, message) {
        Ok(fate) => Ok(fate),
        Err(fault) => Err(FileFault::Send(fault)),
    }
}

/// Returns all bytes of a file.
fn read_file<R: Files + AllocGlobal>(rt: &R, path: &str) -> Result<Vec<u8>, FileFault> {
    let Ok(mut file) = fs::open(rt, path) else {
        return Err(FileFault::Open);
    };
    let mut bytes = Vec::new(rt.alloc());
    match file.read_to_end(&mut bytes) {
        Ok(_) => Ok(bytes),
        Err(error) if error.kind() == io::ErrorKind::OutOfMemory => Err(FileFault::NoMemory),
        Err(_) => Err(FileFault::Read),
    }
}

/// Returns the sender of the program.
fn new_sender(alloc: Global) -> Result<Sender, AllocError> {
    Sender::new(
        alloc,
        SendConfig {
            container_id: String::from_str(alloc, NAME)?,
            name: String::from_str(alloc, NAME)?,
        },
    )
}
