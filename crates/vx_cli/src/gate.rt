// Where the threads of a run meet a test that orders them.

/// A gate that the threads of a run pass at named points. A test can hold one of them there, to choose an order.
/// What a gate does changes nothing that a run promises.
pub trait Gate: Sync {
    /// Passes the point of this number, which may take any time.
    fn pass(&self, point: u8);
}

/// A gate that holds nobody.
#[derive(Clone, Copy, Debug)]
pub struct OpenGate;

impl Gate for OpenGate {
    fn pass(&self, _point: u8) {}
}
