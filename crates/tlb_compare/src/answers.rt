// What came of a call.
ghost use Rattle.tlb_compare.specs.Agreement.{NoAnswers};

use crate::plain::PlainPair;

// The pair that the TLB answered, and that of the model; only a probe is answered.
#[derive(Clone, Copy)]
pub struct Answers {
    pub tlb: Option<PlainPair>,
    pub model: Option<PlainPair>,
}

impl Answers {
    pub fn none() -> Answers
        ensures { NoAnswers result }
    {
        Answers {
            tlb: None,
            model: None,
        }
    }
}
