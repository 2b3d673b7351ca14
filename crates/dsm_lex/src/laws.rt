ghost use Rattle.dsm_lex.specs.Laws.{LinesHaveNoFeed, WordsHaveNoBlank, WordsHaveBytes, NumbersAsPrinted};

/// What holds of the lines of all texts, of the words of all bytes, and of all numbers.
pub fn lex_law()
    ensures lines { LinesHaveNoFeed }
    ensures no_blank { WordsHaveNoBlank }
    ensures no_empty { WordsHaveBytes }
    ensures numbers { NumbersAsPrinted }
{}
