// Where a map stands.
use cells::refusal::Refusal;

#[derive(Clone, Copy, PartialEq, Eq, Debug)]
pub enum Phase {
    // refuses every call with the number that made it void
    Void(Refusal),
    // takes cells
    Open,
    // answers questions
    Sealed,
}
