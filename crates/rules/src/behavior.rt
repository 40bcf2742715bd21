// The kinds of nodes and how many children each allows.
ghost use Rattle.std.specs.Prelude.{◌≡◌, ◌<◌, ◌≤◌, MatchResult};
ghost use Rattle.rules.specs.Kinds.{code, kind_of, fewest, most, children, timed, marks_children, memory};
ghost use Rattle.rules.specs.Cells.{last_place};

#[derive(Clone, Copy, PartialEq, Eq)]
pub enum Kind {
    Wait,
    WaitForever,
    Action,
    Invert,
    AlwaysSucceed,
    Timeout,
    Select,
    If,
    Sequence,
    MemorylessSequence,
    MemorylessSelector,
    While,
    WhileAll,
    WhenAll,
    WhenAny,
    After,
    Race,
}

// A number that is no kind's.
#[derive(Clone, Copy, PartialEq, Eq)]
pub struct NoKind(pub u8);

impl TryFrom<u8> for Kind {
    type Error = NoKind;

    ghost try_from_gives = { λ n r. MatchResult r (λ k. (n ≤ 16) × (k ≡ kind_of n)) (λ e. (16 < n) × (e.0 ≡ n)) };

    fn try_from(number: u8) -> Result<Kind, NoKind> {
        if number <= Kind::LAST {
            Ok(Kind::of(number))
        } else {
            Err(NoKind(number))
        }
    }
}

impl From<Kind> for u8 {
    ghost from_gives = { λ k n. n ≡ code k };

    fn from(kind: Kind) -> u8 {
        kind as u8
    }
}

impl Kind {
    // The number of the last kind; a larger one is no kind.
    pub const LAST: u8 = 16;

    // "Or more": as many children as a node's number can say.
    pub const MANY: u16 = 65535;

    // The kind of a number; a number past the last is taken for the last.
    #[tactic(auto, unfolding(crate::specs::Kinds::kind_of))]
    pub fn of(number: u8) -> Kind
        ensures { result ≡ kind_of number }
    {
        match number {
            0 => Kind::Wait,
            1 => Kind::WaitForever,
            2 => Kind::Action,
            3 => Kind::Invert,
            4 => Kind::AlwaysSucceed,
            5 => Kind::Timeout,
            6 => Kind::Select,
            7 => Kind::If,
            8 => Kind::Sequence,
            9 => Kind::MemorylessSequence,
            10 => Kind::MemorylessSelector,
            11 => Kind::While,
            12 => Kind::WhileAll,
            13 => Kind::WhenAll,
            14 => Kind::WhenAny,
            15 => Kind::After,
            _ => Kind::Race,
        }
    }

    // The fewest children that the kind allows.
    pub fn fewest(self) -> u16
        ensures { result ≡ fewest self }
    {
        match self {
            Kind::Wait | Kind::WaitForever | Kind::Action => 0,
            Kind::MemorylessSequence | Kind::MemorylessSelector => 0,
            Kind::WhenAll | Kind::WhenAny | Kind::After | Kind::Race => 0,
            Kind::Invert | Kind::AlwaysSucceed | Kind::Timeout => 1,
            Kind::Select | Kind::Sequence => 1,
            Kind::While | Kind::WhileAll => 2,
            Kind::If => 3,
        }
    }

    // The most children that the kind allows.
    pub fn most(self) -> u16
        ensures { result ≡ most self }
    {
        match self {
            Kind::Wait | Kind::WaitForever | Kind::Action => 0,
            Kind::Invert | Kind::AlwaysSucceed | Kind::Timeout => 1,
            Kind::If => 3,
            _ => Kind::MANY,
        }
    }

    // How many children a node has; an Action's number is no count of them.
    pub fn children(self, n: u16) -> u16
        ensures { result ≡ children self n }
    {
        match self {
            Kind::Action => 0,
            _ => n,
        }
    }

    // The largest place that a cell of the kind may have.
    pub fn last_place(self, n: u16) -> u16
        ensures { result ≡ last_place self n }
    {
        match self {
            Kind::Select | Kind::Sequence | Kind::After => n,
            Kind::If => 2,
            Kind::While => n.saturating_sub(2),
            Kind::WhileAll => n.saturating_sub(1),
            _ => 0,
        }
    }

    // Whether nodes of the kind have a limit and an elapsed time.
    pub fn timed(self) -> bool
        ensures { result ≡ timed self }
    {
        matches!(self, Kind::Wait | Kind::Timeout)
    }

    // Whether a child of the kind may be marked as ended.
    pub fn marks_children(self) -> bool
        ensures { result ≡ marks_children self }
    {
        matches!(self, Kind::WhenAll | Kind::WhenAny)
    }

    // The kind with its memory on or off; only Sequence and Select have a form of each.
    #[tactic(auto, unfolding(crate::specs::Kinds::memory))]
    pub fn memory(self, on: bool) -> Kind
        ensures { result ≡ memory on self }
    {
        if on {
            match self {
                Kind::MemorylessSequence => Kind::Sequence,
                Kind::MemorylessSelector => Kind::Select,
                _ => self,
            }
        } else {
            match self {
                Kind::Sequence => Kind::MemorylessSequence,
                Kind::Select => Kind::MemorylessSelector,
                _ => self,
            }
        }
    }
}
