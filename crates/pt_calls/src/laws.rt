//! Laws of the grammar and of words: each is the clause of a call that does nothing.
ghost use Rattle.call_grammar.specs.Laws.{ReadsSpellings, ReadsSpellingsAlone};
ghost use Rattle.xdr_base.specs.Laws.{NoneBeginsAnother};
ghost use Rattle.pt_calls.specs.Calls.{IsCall, spelling};
ghost use Rattle.pt_calls.specs.Laws.{NamesCalls};
ghost use Rattle.pt_calls.specs.Reading.{call_of};

/// A call is read from its spelling, and from no other bytes.
pub fn a_call_is_read_from_its_spelling()
    ensures read { ReadsSpellings IsCall spelling call_of }
    ensures alone { ReadsSpellingsAlone IsCall spelling call_of }
{}

/// No call's spelling begins another's, so each spelling has one call.
pub fn no_call_begins_another()
    ensures { NoneBeginsAnother IsCall spelling }
{}

/// Words never name bytes that are no call: a call that they name is read from its spelling.
pub fn words_name_calls()
    ensures { NamesCalls }
{}
