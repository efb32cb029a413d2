// Facts about the format, each the contract of a function that only carries it.
ghost use Rattle.trace_format.specs.Laws.{OneTrouble, OneReading, AnswersRead, SpelledAgain, OneLine};

// One thing at most is wrong with some bytes, and none where a record stands; and it is one record that stands there.
pub fn one_trouble()
    ensures { OneTrouble }
{}

// The bytes of an input determine its records and how they end.
pub fn one_reading()
    ensures { OneReading }
{}

// The answers of a reader, one after another, are the reading of its input.
pub fn answers_are_read()
    ensures { AnswersRead }
{}

// The records of an input, spelled out again, are what stands before its end or the place of its fault; and what is spelled so is read.
pub fn spelled_again()
    ensures { SpelledAgain }
{}

// Two lines that differ never have one text.
pub fn one_line_for_a_text()
    ensures { OneLine }
{}
