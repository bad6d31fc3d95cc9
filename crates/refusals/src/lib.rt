// The refusals of every public function, in SCOPE's words: an error enum for all of them. A reply is a `Result`, `Ok` where nothing is
// refused.
#![tactic(auto)]

ghost use Rattle.std.specs.Prelude.{◌≡◌};
ghost use Rattle.refusals.specs.Refusals.{number_of, carried_of, number, carried, refusal_carried};

// Why a call is refused. `Point` and `Energy` carry the first such point; `NoRoom` carries the whole length of the answer.
#[derive(Clone, Copy, PartialEq, Eq, Debug)]
pub enum Refusal {
    Options,
    Count,
    Point(usize),
    Tables,
    NoTree,
    NoCluster,
    Tile,
    EmptyTile,
    Box,
    NoRoom(usize),
    Spoiled,
    Text,
    Energy(usize),
    Lamp,
}

impl Refusal {
    // SCOPE's number of the refusal.
    pub fn number(self) -> u32
        ensures { result ≡ number_of self }
    {
        match self {
            Refusal::Options => 1,
            Refusal::Count => 2,
            Refusal::Point(_) => 3,
            Refusal::Tables => 4,
            Refusal::NoTree => 5,
            Refusal::NoCluster => 6,
            Refusal::Tile => 7,
            Refusal::EmptyTile => 8,
            Refusal::Box => 9,
            Refusal::NoRoom(_) => 10,
            Refusal::Spoiled => 11,
            Refusal::Text => 12,
            Refusal::Energy(_) => 15,
            Refusal::Lamp => 16,
        }
    }

    // What the refusal carries: 0 where it carries nothing.
    pub fn carried(self) -> usize
        ensures { result ≡ carried_of self }
    {
        match self {
            Refusal::Point(i) => i,
            Refusal::Energy(i) => i,
            Refusal::NoRoom(k) => k,
            _ => 0,
        }
    }
}

// SCOPE's number of a reply: 0 where nothing is refused.
pub fn number<T>(reply: &Result<T, Refusal>) -> u32
    ensures { result ≡ number reply.now }
{
    match reply {
        Ok(_) => 0,
        Err(refusal) => refusal.number(),
    }
}

// What a reply carries: how many there are, or what its refusal carries.
pub fn carried(reply: Result<usize, Refusal>) -> usize
    ensures { result ≡ carried reply }
{
    match reply {
        Ok(k) => k,
        Err(refusal) => refusal.carried(),
    }
}

// What the refusal of a reply carries: 0 where nothing is refused.
pub fn refusal_carried<T>(reply: &Result<T, Refusal>) -> usize
    ensures { result ≡ refusal_carried reply.now }
{
    if let Err(refusal) = reply {
        return refusal.carried();
    }
    0
}
