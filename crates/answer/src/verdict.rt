// What a line comes to.
use delivery::numbered::Numbered;

// The loop that an accepted line leaves, and how many bytes from the lent buffer's first on answer the line: the buffer is the
// caller's.
#[derive(Clone, Copy)]
pub struct Answered {
    pub state: Numbered,
    pub len: usize,
}
