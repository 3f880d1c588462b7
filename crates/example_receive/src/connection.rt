//! The bytes of a connection: from its input into an endpoint, and from the endpoint to its output.

use crate::application::{follow, new_endpoint};
use amqp_endpoint::Endpoint;
use anyhow::Result;
use std::io::{self, Read, Write};

/// This many bytes wait in an endpoint to be sent at most.
const OUTPUT: usize = 8192;

/// Serves a connection until it is over or its input ends, and prints how it stood then.
pub fn serve<I: Read + Drop, O: Write + Drop>(
    rt: &(impl Print + AllocGlobal),
    mut input: I,
    mut output: O,
) -> Result<()> {
    let mut endpoint = new_endpoint(rt.alloc())?;
    for _ in 0..u64::MAX {
        if endpoint.is_over() {
            break;
        }
        let count = input.read(endpoint.spare())?; // what is due: a header, or a part of a frame
        if count == 0 {
            break;
        }
        let fed = endpoint.filled(count);
        follow(rt, &mut endpoint, fed.outcome)?;
        send(&mut endpoint, &mut output)?;
    }
    println!(rt; "the end: {:?}", endpoint.finish())?;
    Ok(())
}

/// Writes all that waits to be sent, so that the next frame finds room for its answer.
fn send(endpoint: &mut Endpoint, output: &mut impl Write) -> io::Result<()> {
    let mut room = [0; OUTPUT];
    let count = endpoint.output(&mut room);
    output.write_all(&room[..count])
}
