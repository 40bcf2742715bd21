// What a walk only reads.

// The limits of the nodes, and the answers of actions.
#[derive(Clone, Copy)]
pub struct Reads<'a> {
    pub limits: &'a [f64],
    pub statuses: &'a [u8],
    pub leftovers: &'a [f64],
}
