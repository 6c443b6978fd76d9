//! Rows of moments: the seconds since the year 1970 began, and the date as it is printed.
use crate::escapes::text_of;
use ifmap_io::Moment;
use std::alloc::{AllocError as NoMemory, Global};

/// The date at these seconds.
pub fn answer_of(alloc: Global, asked: &str) -> Result<String, NoMemory> {
    let Ok(seconds) = asked.parse::<u64>() else {
        return String::from_str(alloc, "no number");
    };
    let Some(moment) = Moment::new(seconds) else {
        return String::from_str(alloc, "none");
    };
    if moment.seconds() == seconds {
        text_of(alloc, &moment.text())
    } else {
        String::from_str(alloc, "other seconds")
    }
}
