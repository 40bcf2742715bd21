// What the exchange of a branch answers.
ghost use Rattle.std.specs.Prelude.{◌≡◌};
ghost use Rattle.rules.specs.Exchange.{exchange_said_of};

// What an exchange can say, as a case for each number of the C interface and for each of the two tables; so its order of
// refusals is one definition, of which `laws` and `finish` (Exchanges) speak.
#[derive(Clone, Copy, PartialEq, Eq)]
pub enum Exchanged {
    Done(usize),
    Finished,
    BadTable(usize),
    BadBranch(usize),
    TooShort,
    BadCell(usize),
    NoNode,
    StateHeld,
    TooLarge,
    ShortRoom,
}

// The answer in document 02's numbers, which the C interface needs; a field that its line does not name is 0.
#[repr(C)]
#[derive(Clone, Copy, Default)]
pub struct ExchangeSaid {
    pub no: u8,
    pub table: u8,
    pub place: usize,
    pub nodes: usize,
}

// The answer in numbers; a table of 1 is the branch's.
impl From<Exchanged> for ExchangeSaid {
    ghost from_gives = { λ a s. s ≡ exchange_said_of a };

    fn from(answer: Exchanged) -> ExchangeSaid {
        let bare = ExchangeSaid::default();
        match answer {
            Exchanged::Done(nodes) => ExchangeSaid { nodes, ..bare },
            Exchanged::Finished => ExchangeSaid { no: 2, ..bare },
            Exchanged::BadTable(place) => ExchangeSaid {
                no: 3,
                place,
                ..bare
            },
            Exchanged::BadBranch(place) => ExchangeSaid {
                no: 3,
                table: 1,
                place,
                ..bare
            },
            Exchanged::TooShort => ExchangeSaid { no: 4, ..bare },
            Exchanged::BadCell(place) => ExchangeSaid {
                no: 9,
                place,
                ..bare
            },
            Exchanged::NoNode => ExchangeSaid { no: 17, ..bare },
            Exchanged::StateHeld => ExchangeSaid { no: 18, ..bare },
            Exchanged::TooLarge => ExchangeSaid { no: 19, ..bare },
            Exchanged::ShortRoom => ExchangeSaid { no: 20, ..bare },
        }
    }
}
