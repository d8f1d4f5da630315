//! Laws of scripts: of the lines of a text, and the words of a line.
ghost use Rattle.cell_script.specs.LineLaws.{HasTheseLines, HasTheseWholeLines};
ghost use Rattle.cell_script.specs.ScriptLaws.{ReadsSpacedWords};

/// The lines of a text are those that it was made of; the last may lack its LF.
pub fn text_has_its_lines()
    ensures { HasTheseLines }
{}

/// The whole lines of a text are those that it was made of, without a last one that lacks its LF.
pub fn text_has_its_whole_lines()
    ensures { HasTheseWholeLines }
{}

/// A line of words with blanks between them has these words.
pub fn line_has_its_words()
    ensures { ReadsSpacedWords }
{}
