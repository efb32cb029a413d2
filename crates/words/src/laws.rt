// Facts about the definitions of specs/, each the contract of a function that only carries it.
ghost use Rattle.words.specs.Examples.{Examples};
ghost use Rattle.words.specs.Laws.{AcceptedAreValues, OneWord, SameWordSamePages};

// The words that the reader accepts are the values of the word types, all of them and no others.
pub fn accepted_are_values()
    ensures { AcceptedAreValues }
{}

// At most one form and word stand for a page of a map.
pub fn one_word_for_a_page()
    ensures { OneWord }
{}

// Two maps that give a compact block the same word agree on its pages.
pub fn same_word_same_pages()
    ensures { SameWordSamePages }
{}

// The worked values of the formats, together.
pub fn worked_values()
    ensures { Examples }
{}
