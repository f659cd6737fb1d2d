//! Laws of the grammar.
ghost use Rattle.mc_model.specs.Stream.{OneSpelling, OneReading, EachTextReads, ReadsExtend};

/// No spelling begins another, and one spelling spells one message.
pub fn one_spelling()
    ensures { OneSpelling }
{}

/// No text has two readings.
pub fn one_reading()
    ensures { OneReading }
{}

/// Each text has a reading.
pub fn each_text_reads()
    ensures { EachTextReads }
{}

/// A longer text reads as the messages of its front, and then more.
pub fn reads_extend()
    ensures { ReadsExtend }
{}
