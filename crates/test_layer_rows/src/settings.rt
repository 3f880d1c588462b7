//! The settings of an endpoint by their words.

use crate::parts::text_of;
use amqp_endpoint::{Config, Endpoint};
use std::alloc::{AllocError, Global};
use test_row_files::words::{name_of, number, six_numbers};
use test_row_files::{Heap, Miss};

/// The numbers of the settings, in the order of `Config::checked`.
type Numbers = [u32; 6];

/// Returns what these settings are: the name and the numbers, and after `idle` the idle-time-out, if one is
/// announced. An error within where memory for the name is refused.
pub fn config_of<'a>(
    alloc: Global,
    heap: Heap<'a>,
    words: &str,
) -> Result<Result<Config<Heap<'a>>, AllocError>, Miss> {
    let (words, time_out) = words.split_once(" idle ").unwrap_or((words, "0"));
    let (name, numbers) = name_of(words);
    let name = text_of(alloc, name)?;
    let numbers = six_numbers(numbers)?;
    let Ok(name) = String::from_str(heap, name.as_str()) else {
        return Ok(Err(AllocError));
    };
    let config = checked(name, numbers).ok_or("no such settings")?;
    Ok(Ok(config.with_idle_time_out(number(time_out)?)))
}

/// Returns a new endpoint with a copy of these settings; an error within if memory is refused.
pub fn endpoint_of<'a>(
    alloc: Global,
    heap: Heap<'a>,
    words: &str,
) -> Result<Result<Endpoint<Heap<'a>>, AllocError>, Miss> {
    let Ok(config) = config_of(alloc, heap, words)? else {
        return Ok(Err(AllocError));
    };
    let Ok(copy) = config.copy(heap) else {
        return Ok(Err(AllocError));
    };
    Ok(Endpoint::new(heap, copy))
}

fn checked<'a>(name: String<Heap<'a>>, numbers: Numbers) -> Option<Config<Heap<'a>>> {
    let [
        max_frame,
        channel_max,
        handle_max,
        allowed,
        max_message,
        window,
    ] = numbers;
    Config::checked(
        name,
        max_frame,
        channel_max,
        handle_max,
        allowed,
        max_message,
        window,
    )
}
