//! The laws of decoding and encoding, as the promise of a call.

ghost use Rattle.isa.specs.Laws.{FieldsReturn, WordsAreFields, WordsReturn, InstructionsReturn, SourcesStandInWords};

/// Does nothing. Its contract holds for every word and every instruction: a word that decodes is the word of what it
/// decodes to, an instruction that has a word is what the word decodes to, and the two sources of an instruction stand
/// in fields of its word.
pub fn coding_is_exact()
    ensures words_return { WordsReturn }
    ensures instructions_return { InstructionsReturn }
    ensures fields_return { FieldsReturn }
    ensures words_are_fields { WordsAreFields }
    ensures sources { SourcesStandInWords }
{}
