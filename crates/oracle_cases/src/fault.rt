// Why the list is not replayed to its end. `cut_cases` has the like: a crate for both would hold nothing else.
use std::alloc::AllocError;
use std::io;

#[derive(Debug, Drop)]
pub enum Fault {
    // It is no such list.
    Bad,
    Io(io::Error),
}

impl From<AllocError> for Fault {
    fn from(error: AllocError) -> Fault {
        Fault::Io(error.into())
    }
}

impl From<io::Error> for Fault {
    fn from(error: io::Error) -> Fault {
        Fault::Io(error)
    }
}
