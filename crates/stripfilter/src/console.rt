//! The program's streams: what is read, what is written, and where the lines on what is wrong go.

#[derive(Drop)]
pub struct Console<S, O, E> {
    pub input: S,
    pub output: O,
    pub errors: E,
}
