// What a tick brings: an update with the time that has passed, or any other event.
ghost use Rattle.std.specs.Prelude.{◌≡◌};
ghost use Rattle.rules.specs.Outcome.{dt};

#[derive(Clone, Copy)]
pub enum Event {
    Update(f64),
    Other,
}

impl Event {
    // The dt that an event carries, 0 for an other event.
    pub fn dt(self) -> f64
        ensures { result ≡ dt self }
    {
        match self {
            Event::Update(x) => x,
            Event::Other => 0.0,
        }
    }
}
