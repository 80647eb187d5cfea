// Calls that are to be made again.
use std::io::{Error, ErrorKind};
use std::thread;

// Whether the call that failed was interrupted, or found nothing ready, so that it is made again, later in the second case.
pub(crate) fn call_again(error: &Error) -> bool {
    let kind = error.kind();
    if kind == ErrorKind::WouldBlock {
        thread::yield_now();
        return true;
    }
    kind == ErrorKind::Interrupted
}
