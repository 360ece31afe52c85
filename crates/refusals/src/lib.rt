// Refusals, and a run of checks, of which the first that fails refuses.
// The contracts cite `specs/Checks.antt`; `specs/Reply.antt` says what a call comes to.
#![tactic(auto)]

ghost use Rattle.std.specs.Prelude.{◌≡◌};
ghost use Rattle.refusals.specs.Checks.{number_of, checked};

// Why a call is refused. The papers know each refusal by a number.
#[derive(Clone, Copy, Debug, PartialEq, Eq)]
pub enum Refusal {
    Scratch,
    Room,
    Call,
    Length,
    Size,
    Word,
    Register,
    Delay,
    Crossed,
    Sum,
    NoNeeds,
    Hold,
    Order,
    Unlike,
    Pairs,
}

impl Refusal {
    #[tactic(auto, unfolding(crate::specs::Checks::number_of))]
    pub fn number(self) -> u32
        ensures { result ≡ number_of self }
    {
        match self {
            Refusal::Scratch => 1,
            Refusal::Room => 2,
            Refusal::Call => 3,
            Refusal::Length => 11,
            Refusal::Size => 12,
            Refusal::Word => 13,
            Refusal::Register => 14,
            Refusal::Delay => 15,
            Refusal::Crossed => 16,
            Refusal::Sum => 17,
            Refusal::NoNeeds => 18,
            Refusal::Hold => 19,
            Refusal::Order => 20,
            Refusal::Unlike => 21,
            Refusal::Pairs => 22,
        }
    }
}

// A refusal, and the place that it is about.
#[derive(Clone, Copy, Debug, PartialEq, Eq)]
pub struct Refused {
    pub refusal: Refusal,
    pub place: usize,
}

// One check: a refusal where it fails.
#[tactic(auto, unfolding(crate::specs::Checks::or_check))]
pub fn check(fails: bool, refusal: Refusal, place: usize) -> Result<(), Refused>
    ensures { result ≡ checked (fails, refusal, place) }
{
    if fails {
        return Err(Refused { refusal, place });
    }
    Ok(())
}
