// The number and the place of a refusal (the paper, refusal numbers).
ghost use Rattle.std.specs.Prelude.{◌≡◌};
ghost use Rattle.plan.specs.Refusals.{number_of, place_of};

use plan::Refusal;

// The paper's number of the refusal.
pub fn told_number(refusal: Refusal) -> u64
    ensures { result ≡ number_of refusal }
{
    match refusal {
        Refusal::WrongByte(_) => 1,
        Refusal::LargeCount(_) => 2,
        Refusal::WrongSum(_) => 3,
        Refusal::ShortTable(_) => 4,
        Refusal::OutOfRange(_) => 5,
        Refusal::DefinedTwice(_) => 6,
        Refusal::NotDefined(_) => 7,
        Refusal::Cyclic(_) => 8,
        Refusal::BadDifference(_) => 9,
        Refusal::BadSymbol(_) => 10,
        Refusal::ShortBuffer(_) => 11,
        Refusal::BadVector(_) => 12,
        Refusal::LongInput(_) => 13,
        Refusal::Unreadable(_) => 14,
        Refusal::NotInOrder(_) => 15,
        Refusal::LongDifference(_) => 16,
        Refusal::NotExplained(_) => 17,
        Refusal::WrongMark(_) => 18,
        Refusal::NotOnCards(_) => 19,
        Refusal::ManyX(_) => 20,
        Refusal::Justice(_) => 21,
        Refusal::NoGate(_) => 22,
        Refusal::WrongValue(_) => 23,
        Refusal::ManyGates(_) => 24,
        Refusal::ManyLatches(_) => 25,
        Refusal::ManyInputs(_) => 26,
        Refusal::NotAlike(_) => 27,
    }
}

// Its place, as the paper gives one for each number.
pub fn told_place(refusal: Refusal) -> usize
    ensures { result ≡ place_of refusal }
{
    match refusal {
        Refusal::WrongByte(place) => place,
        Refusal::LargeCount(place) => place,
        Refusal::WrongSum(place) => place,
        Refusal::ShortTable(place) => place,
        Refusal::OutOfRange(place) => place,
        Refusal::DefinedTwice(place) => place,
        Refusal::NotDefined(place) => place,
        Refusal::Cyclic(place) => place,
        Refusal::BadDifference(place) => place,
        Refusal::BadSymbol(place) => place,
        Refusal::ShortBuffer(place) => place,
        Refusal::BadVector(place) => place,
        Refusal::LongInput(place) => place,
        Refusal::Unreadable(place) => place,
        Refusal::NotInOrder(place) => place,
        Refusal::LongDifference(place) => place,
        Refusal::NotExplained(place) => place,
        Refusal::WrongMark(place) => place,
        Refusal::NotOnCards(place) => place,
        Refusal::ManyX(place) => place,
        Refusal::Justice(place) => place,
        Refusal::NoGate(place) => place,
        Refusal::WrongValue(place) => place,
        Refusal::ManyGates(place) => place,
        Refusal::ManyLatches(place) => place,
        Refusal::ManyInputs(place) => place,
        Refusal::NotAlike(place) => place,
    }
}
