// The nine causes for which a job is refused: the error of whatever answers `Result<.., Refusal>`. What they mean stands in specs/, where
// `number_of` and `total_of` give number and total of every answer. Assumes nothing.
#![tactic(auto)]

ghost use Rattle.std.specs.Prelude.{◌≡◌};
ghost use Rattle.model.specs.Refusals.{cause_number};

// The causes in the order in which they are tried; the first has number 1.
#[derive(Clone, Copy, PartialEq, Eq)]
pub enum Refusal {
    Sizes,
    Levels,
    Ranges,
    Slopes,
    IslandPower,
    Count,
    Order,
    Speed,
    Buffers,
}

// The number of a cause.
impl From<Refusal> for u32 {
    ghost from_gives = { λ refusal r. r ≡ cause_number refusal };

    fn from(refusal: Refusal) -> Self {
        match refusal {
            Refusal::Sizes => 1,
            Refusal::Levels => 2,
            Refusal::Ranges => 3,
            Refusal::Slopes => 4,
            Refusal::IslandPower => 5,
            Refusal::Count => 6,
            Refusal::Order => 7,
            Refusal::Speed => 8,
            Refusal::Buffers => 9,
        }
    }
}
