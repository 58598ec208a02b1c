// The questions put to a page, and what a guard answers.
#![tactic(auto)]

ghost use Rattle.std.specs.Prelude.{◌≡◌, ◌∷◌, []};
ghost use Rattle.questions.specs.Questions.{first_missed};
ghost use Rattle.questions.specs.Missed.{number_of, number_in};

// A question that is missed, by its number in document 01.
#[derive(Clone, Copy)]
pub enum Missed {
    Sides = 1,
    Scale = 2,
    Lengths = 3,
    Shears = 4,
    Counts = 5,
    Rectangles = 6,
    Finite = 7,
    NotNegative = 8,
    BoxSizes = 9,
    Fractions = 10,
    Minimums = 11,
    Caps = 12,
    FreeRules = 13,
    Room = 14,
    Evidence = 15,
}

impl Missed {
    // A method and no `From`: the name says which number it is.
    pub fn number(self) -> u32
        ensures { result ≡ number_of self }
    {
        self as u32
    }
}

// One question, for a guard that puts several with `?`.
pub fn ask(yes: bool, question: Missed) -> Result<(), Missed>
    ensures { number_in result ≡ first_missed ((number_of question, yes) ∷ []) }
{
    if yes { Ok(()) } else { Err(question) }
}

// What a call returns for its guard: 0 where no question is missed.
pub fn number(asked: Result<(), Missed>) -> u32
    ensures { result ≡ number_in asked }
{
    match asked {
        Ok(()) => 0,
        Err(question) => question.number(),
    }
}
